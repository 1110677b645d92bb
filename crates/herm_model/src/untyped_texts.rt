// Laws of the text of a value whose type is not known.

ghost use Rattle.std.specs.Prelude.{◌≡◌, [], ◌∷◌, ◌++◌, map, true, false, pos, negsuc, codes};
ghost use Rattle.std.specs.Bool.{⊤};
ghost use Rattle.herm_model.specs.Values.{Name, Parts, a_scalar, a_boolean, an_integer, a_text, a_record, a_variant, a_table, a_polymorph, a_callmessage, an_inport, an_outport, cell, gap, no_parts, part};
ghost use Rattle.herm_model.specs.ValueTexts.{text_of};
ghost use Rattle.herm_model.specs.WellMade.{is_well_made, may_go_on};
ghost use Rattle.herm_model.specs.examples.ExampleTypes.{bare, one, two, pair, leaf, a_whole, a_call, answered, colour, with_part, without_first};
ghost use Rattle.herm_model.specs.laws.UntypedTexts.{TellsWellMade, TellsWellMadeLists, TypedAreWellMade, ForgetsWellMade};

/// The text of a well made value determines it without its type, also where more text follows that begins neither with a
/// digit nor with `!`. So the texts of a list of such values determine the list.
pub fn a_text_tells_a_well_made_value()
    ensures values { TellsWellMade }
    ensures lists { TellsWellMadeLists }
{}

/// A value that has a type, with all of its parts or some, is well made; the names of cells make no difference.
pub fn typed_values_are_well_made()
    ensures values { TypedAreWellMade ⊤ }
    ensures cells { TypedAreWellMade Name }
    ensures names { ForgetsWellMade }
{}

/// What is well made: scalars and ports without parts; records and callmessages, also with empty places; variants and
/// polymorphs with their content; tables without empty places.
pub fn well_made_example()
    ensures scalars { map is_well_made (bare (a_scalar (a_boolean true)) ∷ bare (a_scalar (an_integer (negsuc 4))) ∷ bare (a_scalar (a_text (codes "!"))) ∷ colour 2 ∷ []) ≡ true ∷ true ∷ true ∷ true ∷ [] }
    ensures ports { map is_well_made (bare (an_inport 12) ∷ bare (an_outport 0) ∷ []) ≡ true ∷ true ∷ [] }
    ensures records { map is_well_made (bare a_record ∷ a_whole ∷ without_first ∷ cell 0 a_record (part (colour 0) (gap no_parts)) ∷ []) ≡ true ∷ true ∷ true ∷ true ∷ [] }
    ensures callmessages { map is_well_made (bare (a_callmessage 1 12) ∷ a_call ∷ answered a_call ∷ []) ≡ true ∷ true ∷ true ∷ [] }
    ensures variants { map is_well_made (with_part (a_variant 1) (colour 2) ∷ bare (a_variant 1) ∷ cell 0 (a_variant 1) (gap no_parts) ∷ cell 0 (a_variant 1) (two (colour 2) (colour 2)) ∷ []) ≡ true ∷ false ∷ false ∷ false ∷ [] }
    ensures tables { map is_well_made (bare a_table ∷ cell 0 a_table (two (pair 1 4 6) (pair 4 5 6)) ∷ cell 0 a_table (gap (one (pair 4 5 6))) ∷ []) ≡ true ∷ true ∷ false ∷ [] }
    ensures polymorphs { map is_well_made (with_part (a_polymorph 8) (pair 1 2 3) ∷ with_part (a_polymorph 0) (with_part (a_polymorph 8) (pair 1 2 3)) ∷ bare (a_polymorph 8) ∷ []) ≡ true ∷ true ∷ false ∷ [] }
    ensures part { is_well_made (cell 0 a_record (one (bare (a_variant 1)))) ≡ false }
{}

/// Cells with the text of another value that are not well made: an inport and an integer that have a part. Where a `!`
/// follows, the text of an integer goes on as that of a variant.
pub fn second_readings_example()
    ensures inport { text_of (with_part (an_inport 1) (bare (a_scalar (an_integer (pos 2))))) ≡ text_of (bare (an_inport 12)) }
    ensures not_inport { is_well_made (with_part (an_inport 1) (bare (a_scalar (an_integer (pos 2))))) ≡ false }
    ensures integer { text_of (with_part (a_scalar (an_integer (pos 5))) (bare (a_scalar (an_integer (pos 5))))) ≡ text_of (bare (a_scalar (an_integer (pos 55)))) }
    ensures not_integer { is_well_made (with_part (a_scalar (an_integer (pos 5))) (bare (a_scalar (an_integer (pos 5))))) ≡ false }
    ensures variant { text_of (bare (a_scalar (an_integer (pos 1)))) ++ codes "!2" ≡ text_of (with_part (a_variant 1) (bare (a_scalar (an_integer (pos 2))))) }
    ensures mark { map may_go_on (codes "!2" ∷ codes "2" ∷ codes ",2" ∷ codes "}" ∷ codes " 2" ∷ [] ∷ []) ≡ true ∷ true ∷ false ∷ false ∷ false ∷ false ∷ [] }
{}
