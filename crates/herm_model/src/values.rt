// Laws of values, their parts and their names.

ghost use Rattle.std.specs.Prelude.{◌≡◌, ℕ, List, [], ◌∷◌, map, true, false, Option, Some, None, pos};
ghost use Rattle.herm_model.specs.Paths.{Path, init, case};
ghost use Rattle.herm_model.specs.Facts.{full_facts, declared_facts};
ghost use Rattle.herm_model.specs.Values.{Name, an_integer, a_scalar, a_record, a_variant, a_table, a_polymorph, a_callmessage, an_inport, Cell, cell, Parts, no_parts, gap, part, cell_at, read_at, put_at, clear_at, change_at, has_place, has_value, polymorph_depth};
ghost use Rattle.herm_model.specs.CellNames.{names_of, count, copy_from};
ghost use Rattle.herm_model.specs.FactsOfValues.{satisfies};
ghost use Rattle.herm_model.specs.Tables.{same_scalar, same_key, key_of, has_key, place_of_key, has_distinct_keys, without_part};
ghost use Rattle.herm_model.specs.Typed.{IsFull, HasType};
ghost use Rattle.herm_model.specs.Finalising.{finalised, pending, excess, excess_at, keeps};
ghost use Rattle.herm_model.specs.examples.ExampleTypes.{example_types, leaf, one, two, pair, a_whole, a_call, with_part, answered, without_first, colour};
ghost use Rattle.herm_model.specs.laws.TypeLaws.{TestsEquality};
ghost use Rattle.herm_model.specs.laws.ValueLaws.{IsChangedAt, IsChangedThrough, KeepsCellsAbove, WeighsTheChange, WeighsTheFinalised, IsCopy, IsKeyed, ForgetsInParts, ForgetsInCell, FullIsTyped, FullHasFullFacts, FullFactsAreFull, ExcessIsTopmost};

/// A change at a path leaves what is apart from it, and above it the cells that were there, with the change inside. Where
/// there is a place at the path, it sets what stands there and its parts. A change through components changes what is read
/// at the path.
pub fn a_change_is_local()
    ensures at { (p : Path) (o : Option (Cell Name)) (ps : Parts Name) → IsChangedAt p o ps }
    ensures above { KeepsCellsAbove }
    ensures through { (j : ℕ) (p : Path) (f : Cell Name → Cell Name) (ps : Parts Name) → IsChangedThrough j p f ps }
{}

/// No name is made or lost by a change at a path, where there is a place, beyond what is set and what was there, nor by
/// finalising.
pub fn names_are_kept()
    ensures change { WeighsTheChange }
    ensures finalised { WeighsTheFinalised }
{}

/// With a bound on the type's depth, the excess has exactly the topmost paths that are left over.
pub fn the_excess_is_topmost()
    ensures topmost { ExcessIsTopmost }
{}

/// A copy is the same value with names of its own, one for each cell in the order of a walk.
pub fn a_copy_has_fresh_names()
    ensures copy { (name : ℕ → Name) (s : ℕ) (c : Cell Name) → IsCopy name s c }
{}

/// Reading and changing parts, finding and removing rows, finalising, copying, and what is asked of a cell without its
/// name, are on the cells of the ledger what they are on values, once the names are forgotten.
pub fn names_can_be_forgotten()
    ensures parts { (ps : Parts Name) → ForgetsInParts ps }
    ensures cells { (c : Cell Name) → ForgetsInCell c }
{}

/// A full value of a type is a value of the type. Where the type is within the limit of depth, a value of the type is full
/// exactly where it has values at the paths that full asks for and at no other.
pub fn full_values_are_typed()
    ensures full { FullIsTyped }
    ensures facts { FullHasFullFacts }
    ensures only { FullFactsAreFull }
{}

/// A key finds a row that has it, exactly where there is one. A row behind the others keeps the keys different exactly
/// where its key is new, and a row less keeps them different.
pub fn rows_have_keys()
    ensures rows { (key : List ℕ) (rows : Parts Name) → IsKeyed key rows }
{}

/// Scalars and keys are compared by tests.
pub fn keys_are_compared()
    ensures scalars { TestsEquality same_scalar }
    ensures keys { TestsEquality same_key }
{}

/// Reading and changing the parts of variables by path, and what facts tell of them.
pub fn parts_example()
    ensures read { cell_at (0 ∷ 0 ∷ 1 ∷ []) (one a_whole) ≡ Some (leaf 13 (a_scalar (an_integer (pos 2)))) }
    ensures no_component { cell_at (0 ∷ 1 ∷ 1 ∷ []) (one a_whole) ≡ None }
    ensures component { read_at (0 ∷ 1 ∷ 1 ∷ 0 ∷ []) (one a_whole) ≡ Some (leaf 16 (a_scalar (an_integer (pos 3)))) }
    ensures other_component { read_at (0 ∷ 1 ∷ 0 ∷ []) (one a_whole) ≡ None }
    ensures parameter { cell_at (1 ∷ 1 ∷ 0 ∷ []) (two a_whole a_call) ≡ Some (leaf 23 (a_scalar (an_integer (pos 5)))) }
    ensures put { put_at (1 ∷ 2 ∷ []) (pair 30 8 9) (gap (one a_call)) ≡ gap (one (cell 20 (a_callmessage 2 0) (part (leaf 21 (a_scalar (an_integer (pos 7)))) (two (pair 22 5 6) (pair 30 8 9))))) }
    ensures clear { cell_at (0 ∷ []) (clear_at (0 ∷ 0 ∷ []) (one (cell 1 a_record (one (pair 2 0 0))))) ≡ Some (cell 1 a_record (gap no_parts)) }
    ensures through { read_at (0 ∷ 1 ∷ 1 ∷ 0 ∷ []) (change_at (0 ∷ 1 ∷ 1 ∷ []) (λ c. pair 60 7 8) (one a_whole)) ≡ Some (leaf 61 (a_scalar (an_integer (pos 7)))) }
    ensures not_through { change_at (0 ∷ 1 ∷ 0 ∷ []) (λ c. pair 60 7 8) (one a_whole) ≡ one a_whole }
    ensures places { map (has_place (two a_whole a_call)) ((0 ∷ []) ∷ (1 ∷ 2 ∷ []) ∷ (1 ∷ 3 ∷ []) ∷ (0 ∷ 1 ∷ 1 ∷ []) ∷ (2 ∷ []) ∷ []) ≡ true ∷ true ∷ false ∷ false ∷ false ∷ [] }
    ensures facts { map (satisfies (two a_whole a_call)) (init (0 ∷ 1 ∷ []) ∷ init (1 ∷ 2 ∷ []) ∷ case (0 ∷ 1 ∷ []) 1 ∷ case (0 ∷ 1 ∷ []) 0 ∷ []) ≡ true ∷ false ∷ true ∷ false ∷ [] }
{}

/// The walk of a value, its copies and the depth of its polymorphs.
pub fn walks_example()
    ensures names { names_of a_whole ≡ 10 ∷ 11 ∷ 12 ∷ 13 ∷ 14 ∷ 15 ∷ 16 ∷ 17 ∷ 18 ∷ [] }
    ensures cells { map count (a_whole ∷ a_call ∷ []) ≡ 9 ∷ 5 ∷ [] }
    ensures copy { copy_from (λ s. s) 22 (pair 4 5 6) ≡ pair 22 5 6 }
    ensures shallow { polymorph_depth a_whole ≡ 0 }
    ensures deep { polymorph_depth (with_part (a_polymorph 16) (cell 1 a_record (two (with_part (a_polymorph 8) (pair 2 0 0)) (pair 5 0 0)))) ≡ 2 }
{}

/// What is finalised at once and what waits, in the order of a walk; a callmessage waits before what its parameters
/// hold, and has no parts then.
pub fn finalising_example()
    ensures finalised { finalised a_whole ≡ 10 ∷ 11 ∷ 12 ∷ 13 ∷ 14 ∷ 15 ∷ 16 ∷ 17 ∷ [] }
    ensures inports { pending a_whole ≡ leaf 18 (an_inport 5) ∷ [] }
    ensures parameters { finalised (cell 40 (a_callmessage 3 1) (two a_whole a_call)) ≡ 10 ∷ 11 ∷ 12 ∷ 13 ∷ 14 ∷ 15 ∷ 16 ∷ 17 ∷ 21 ∷ 22 ∷ 23 ∷ 24 ∷ [] }
    ensures callmessages { pending (cell 40 (a_callmessage 3 1) (two a_whole a_call)) ≡ leaf 40 (a_callmessage 3 1) ∷ leaf 18 (an_inport 5) ∷ leaf 20 (a_callmessage 2 0) ∷ [] }
{}

/// What an edge and a send drop: the topmost values that are there and not kept, by variables and then by parts.
pub fn excess_example()
    ensures edge { excess example_types (16 ∷ 8 ∷ []) (has_value (two a_whole (pair 30 1 2))) (keeps (init (0 ∷ []) ∷ init (0 ∷ 0 ∷ []) ∷ init (0 ∷ 0 ∷ 1 ∷ []) ∷ [])) ≡ (0 ∷ 0 ∷ 0 ∷ []) ∷ (0 ∷ 1 ∷ []) ∷ (0 ∷ 2 ∷ []) ∷ (1 ∷ []) ∷ [] }
    ensures trim { excess_at example_types (has_value (one a_whole)) (keeps (declared_facts example_types 14 (0 ∷ 0 ∷ []))) (0 ∷ 0 ∷ []) 8 ≡ (0 ∷ 0 ∷ 1 ∷ []) ∷ [] }
    ensures returned { excess_at example_types (has_value (one (answered a_call))) (keeps (full_facts example_types 11 (0 ∷ []))) (0 ∷ []) 11 ≡ (0 ∷ 2 ∷ []) ∷ [] }
    ensures none { excess example_types (16 ∷ []) (has_value (one a_whole)) (keeps (full_facts example_types 16 (0 ∷ []))) ≡ [] }
{}

/// Rows are found by their keys, which are their scalars at the fields of the key.
pub fn rows_example()
    ensures key { key_of (1 ∷ 0 ∷ []) (pair 0 5 6) ≡ an_integer (pos 6) ∷ an_integer (pos 5) ∷ [] }
    ensures there { has_key (0 ∷ []) (an_integer (pos 5) ∷ []) (two (pair 0 4 6) (pair 3 5 6)) ≡ true }
    ensures not_there { has_key (0 ∷ []) (an_integer (pos 6) ∷ []) (two (pair 0 4 6) (pair 3 5 6)) ≡ false }
    ensures place { place_of_key (0 ∷ []) (an_integer (pos 5) ∷ []) (two (pair 0 4 6) (pair 3 5 6)) ≡ Some 1 }
    ensures distinct { map (has_distinct_keys (0 ∷ [])) (two (pair 0 4 6) (pair 3 5 6) ∷ two (pair 0 4 6) (pair 3 4 7) ∷ []) ≡ true ∷ false ∷ [] }
    ensures removed { without_part 0 (two (pair 0 4 6) (pair 3 5 6)) ≡ one (pair 3 5 6) }
{}

/// Which values are full: with each field, without what a callmessage gives back, with different keys.
pub fn full_values_example()
    ensures whole { IsFull example_types 16 a_whole }
    ensures call { IsFull example_types 11 a_call }
    ensures part { HasType example_types 16 without_first }
    ensures missing { IsFull example_types 16 without_first → ⊥ }
    ensures answered { IsFull example_types 11 (answered a_call) → ⊥ }
    ensures rows { IsFull example_types 10 (cell 0 a_table (two (pair 1 4 6) (pair 4 5 6))) }
    ensures one_key { IsFull example_types 10 (cell 0 a_table (two (pair 1 4 6) (pair 4 4 6))) → ⊥ }
    ensures tag { IsFull example_types 15 (colour 2) }
    ensures no_tag { IsFull example_types 15 (colour 3) → ⊥ }
{}
