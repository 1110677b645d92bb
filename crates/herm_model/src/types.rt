// Laws of types and facts.

ghost use Rattle.std.specs.Prelude.{◌≡◌, [], ◌∷◌, map, true, false, Some, None};
ghost use Rattle.herm_model.specs.Paths.{init, case, same_path, same_fact};
ghost use Rattle.herm_model.specs.Types.{predefined, is_within_depth, type_at, passes_component, part_paths, full_parts, held_parts, all_parts};
ghost use Rattle.herm_model.specs.Copyable.{is_copyable_within};
ghost use Rattle.herm_model.specs.Facts.{facts_to, prefixes, full_facts, declared_facts, without_repeats};
ghost use Rattle.herm_model.specs.examples.ExampleTypes.{example_types};
ghost use Rattle.herm_model.specs.laws.TypeLaws.{ListsWhatLeads, IsSameWithin, ListsNoneTwice, GreaterDepthHolds, TestsCopyable, PrefixesAreClosed, FactsToAreClosed, FullFactsAreClosed, MessageFactsAreClosed, MeetsAreClosed, TestsEquality};

/// The listed paths of a type that full asks for, those that hold values of their own, and all of them are the ones that
/// lead through such parts, where they are listed with a bound on the type's depth.
pub fn paths_are_those_that_lead()
    ensures full { ListsWhatLeads full_parts }
    ensures held { ListsWhatLeads held_parts }
    ensures all { ListsWhatLeads all_parts }
{}

/// Which bound on the type's depth paths are listed with changes neither the paths nor their order. A greater number
/// than a bound is one.
pub fn depth_bound_is_free()
    ensures full { IsSameWithin full_parts }
    ensures held { IsSameWithin held_parts }
    ensures all { IsSameWithin all_parts }
    ensures greater { GreaterDepthHolds }
{}

/// No path of a type is listed twice.
pub fn no_path_is_listed_twice()
    ensures full { ListsNoneTwice full_parts }
    ensures held { ListsNoneTwice held_parts }
    ensures all { ListsNoneTwice all_parts }
{}

/// With a bound on the type's depth, the test of copyable types holds exactly of the smallest set with the scalars and
/// the outports that has a record, variant or table type where it has all its parts.
pub fn copyable_is_the_smallest_set()
    ensures test { TestsCopyable }
{}

/// Closed are: a fact with the facts before it, the facts to a path, the meet of two closed sets, and, where the type is
/// within the limit of depth, the facts of a message, and those of a full value with those to its path, where that passes
/// no component.
pub fn sets_of_facts_are_closed()
    ensures prefixes { PrefixesAreClosed }
    ensures paths { FactsToAreClosed }
    ensures full { FullFactsAreClosed }
    ensures messages { MessageFactsAreClosed }
    ensures meets { MeetsAreClosed }
{}

/// Paths and facts are compared by tests.
pub fn facts_are_compared()
    ensures paths { TestsEquality same_path }
    ensures facts { TestsEquality same_fact }
{}

/// Depths, paths and copyable types among those of the examples, and a bound on the depth of the predefined `start`.
pub fn paths_of_types_example()
    ensures depths { map (λ n. is_within_depth n example_types 9) (2 ∷ 3 ∷ []) ≡ false ∷ true ∷ [] }
    ensures empty_call { map (λ n. is_within_depth n example_types 18) (0 ∷ 1 ∷ []) ≡ false ∷ true ∷ [] }
    ensures endless { is_within_depth 32 example_types 17 ≡ false }
    ensures start { is_within_depth 5 predefined 7 ≡ true }
    ensures full { part_paths full_parts example_types 11 ≡ [] ∷ (0 ∷ []) ∷ (1 ∷ []) ∷ (1 ∷ 0 ∷ []) ∷ (1 ∷ 1 ∷ []) ∷ [] }
    ensures held { part_paths held_parts example_types 11 ≡ [] ∷ (0 ∷ []) ∷ (1 ∷ []) ∷ (1 ∷ 0 ∷ []) ∷ (1 ∷ 1 ∷ []) ∷ (2 ∷ []) ∷ (2 ∷ 0 ∷ []) ∷ (2 ∷ 1 ∷ []) ∷ [] }
    ensures all { part_paths all_parts example_types 9 ≡ [] ∷ (0 ∷ []) ∷ (1 ∷ []) ∷ (1 ∷ 0 ∷ []) ∷ (1 ∷ 1 ∷ []) ∷ [] }
    ensures copyable { map (is_copyable_within 32 example_types) (0 ∷ 3 ∷ 4 ∷ 5 ∷ 6 ∷ 8 ∷ 9 ∷ 10 ∷ 11 ∷ 15 ∷ 16 ∷ []) ≡ true ∷ false ∷ false ∷ true ∷ true ∷ true ∷ true ∷ true ∷ false ∷ true ∷ false ∷ [] }
{}

/// What a fact needs before it: values down to the first variant, and then components.
pub fn prefixes_example()
    ensures types { map (type_at example_types (16 ∷ [])) ((0 ∷ 1 ∷ 1 ∷ 0 ∷ []) ∷ (0 ∷ 3 ∷ []) ∷ (1 ∷ []) ∷ []) ≡ Some 1 ∷ None ∷ None ∷ [] }
    ensures components { map (passes_component example_types (16 ∷ [])) ((0 ∷ 1 ∷ []) ∷ (0 ∷ 1 ∷ 1 ∷ []) ∷ (0 ∷ 0 ∷ 1 ∷ []) ∷ []) ≡ false ∷ true ∷ false ∷ [] }
    ensures value { prefixes example_types (16 ∷ []) (init (0 ∷ 0 ∷ 1 ∷ [])) ≡ init (0 ∷ []) ∷ init (0 ∷ 0 ∷ []) ∷ [] }
    ensures component { prefixes example_types (16 ∷ []) (case (0 ∷ 1 ∷ []) 1) ≡ init (0 ∷ []) ∷ init (0 ∷ 1 ∷ []) ∷ [] }
    ensures through { facts_to example_types (16 ∷ []) (0 ∷ 1 ∷ 1 ∷ 0 ∷ []) ≡ init (0 ∷ []) ∷ init (0 ∷ 1 ∷ []) ∷ case (0 ∷ 1 ∷ []) 1 ∷ [] }
{}

/// Full facts go through fields and the parameters that a caller fills; declared facts are those listed with those
/// before them, or full where none is listed.
pub fn full_and_declared_example()
    ensures whole { full_facts example_types 16 (2 ∷ []) ≡ init (2 ∷ []) ∷ init (2 ∷ 0 ∷ []) ∷ init (2 ∷ 0 ∷ 0 ∷ []) ∷ init (2 ∷ 0 ∷ 1 ∷ []) ∷ init (2 ∷ 1 ∷ []) ∷ init (2 ∷ 2 ∷ []) ∷ [] }
    ensures call { full_facts example_types 11 (0 ∷ []) ≡ init (0 ∷ []) ∷ init (0 ∷ 0 ∷ []) ∷ init (0 ∷ 1 ∷ []) ∷ init (0 ∷ 1 ∷ 0 ∷ []) ∷ init (0 ∷ 1 ∷ 1 ∷ []) ∷ [] }
    ensures listed { declared_facts example_types 14 (2 ∷ 0 ∷ []) ≡ init (2 ∷ 0 ∷ []) ∷ init (2 ∷ 0 ∷ 0 ∷ []) ∷ [] }
    ensures console { declared_facts predefined 4 (1 ∷ []) ≡ init (1 ∷ []) ∷ [] }
    ensures start { declared_facts predefined 7 (1 ∷ []) ≡ init (1 ∷ []) ∷ init (1 ∷ 0 ∷ []) ∷ init (1 ∷ 1 ∷ []) ∷ [] }
    ensures none { declared_facts predefined 6 (1 ∷ []) ≡ [] }
    ensures repeats { without_repeats (init (0 ∷ []) ∷ case (0 ∷ []) 1 ∷ init (0 ∷ []) ∷ case (0 ∷ []) 0 ∷ case (0 ∷ []) 1 ∷ []) ≡ init (0 ∷ []) ∷ case (0 ∷ []) 1 ∷ case (0 ∷ []) 0 ∷ [] }
{}
