// Examples of programs that are checked, and of some that are not.

ghost use Rattle.std.specs.Prelude.{◌≡◌, [], ◌∷◌, Some, pos, true, false};
ghost use Rattle.herm_model.specs.Statements.{block, no_blocks, no_statements};
ghost use Rattle.herm_model.specs.Values.{a_scalar, an_integer, a_variant, an_inport};
ghost use Rattle.herm_source.specs.examples.CheckedExamples.{CanBeChecked, choosing_code, component_target, is_stuck_behind, IsTypedAt, nested_loops, other_port, other_port_types, port_to_component, port_variant_types, stands_behind, would_stand_behind, Stand};
ghost use Rattle.herm_source.specs.examples.ComponentPrograms.{taken_apart};
ghost use Rattle.herm_source.specs.examples.CallPrograms.{kept_parameter};
ghost use Rattle.herm_source.specs.examples.Programs.{two_senders};

/// The two senders, a call with a parameter that an exception keeps, nested loops that are left, and a program that takes values apart
/// are typed and accepted: so their processes stay sound in every state.
pub fn examples_are_checked()
    ensures senders { CanBeChecked 7 (two_senders 3) }
    ensures calls { CanBeChecked 8 kept_parameter }
    ensures loops { CanBeChecked 7 nested_loops }
    ensures apart { CanBeChecked 7 taken_apart }
{}

/// Where an arm of a `case` is missing, the statement is not typed, and a process is stuck at it; with both arms it is not.
pub fn missing_arms_are_stuck()
    ensures missing { is_stuck_behind 2 (choosing_code (1 ∷ []) (block no_statements no_blocks)) ≡ Some true }
    ensures untyped { IsTypedAt (choosing_code (1 ∷ []) (block no_statements no_blocks)) 2 → ⊥ }
    ensures complete { is_stuck_behind 2 (choosing_code (0 ∷ 1 ∷ []) (block no_statements (block no_statements no_blocks))) ≡ Some false }
{}

/// A target that passes through a component has no place: its statement is not typed, and a process is stuck at it.
pub fn targets_in_components_are_stuck()
    ensures before { is_stuck_behind 2 component_target ≡ Some false }
    ensures stuck { is_stuck_behind 3 component_target ≡ Some true }
    ensures untyped { IsTypedAt component_target 3 → ⊥ }
{}

/// A target that passes through a component would break typed places: a port that is moved to the other component than the one that
/// is there would stand at a place of that one's type, were a component's place like a field's. So the statement is not
/// typed, and there is no such place.
pub fn targets_in_components_break_places()
    ensures stuck { is_stuck_behind 2 port_to_component ≡ Some true }
    ensures untyped { IsTypedAt port_to_component 2 → ⊥ }
    ensures before { stands_behind 2 port_to_component ≡ Some ((7, an_inport 1) ∷ (8, a_variant 1) ∷ (1, a_scalar (an_integer (pos 1))) ∷ []) }
    ensures stood { Stand port_variant_types ((7, an_inport 1) ∷ (8, a_variant 1) ∷ (1, a_scalar (an_integer (pos 1))) ∷ []) }
    ensures behind { would_stand_behind 2 port_to_component ≡ Some ((8, a_variant 1) ∷ (1, an_inport 1) ∷ []) }
    ensures broken { Stand port_variant_types ((8, a_variant 1) ∷ (1, an_inport 1) ∷ []) → ⊥ }
{}

/// Where a port is moved to a place of another type, which the rules on types forbid, it stands there no more as it should.
pub fn untyped_moves_break_places()
    ensures before { stands_behind 0 other_port ≡ Some ((7, an_inport 1) ∷ []) }
    ensures stood { Stand other_port_types ((7, an_inport 1) ∷ []) }
    ensures behind { stands_behind 1 other_port ≡ Some ((8, an_inport 1) ∷ []) }
    ensures untyped { IsTypedAt other_port 0 → ⊥ }
    ensures broken { Stand other_port_types ((8, an_inport 1) ∷ []) → ⊥ }
{}
