// Laws of how many inports and callmessages a process has that are not finalised.

ghost use Rattle.std.specs.Prelude.{◌≡◌, [], ◌∷◌, Some};
ghost use Rattle.herm_source.specs.examples.CheckedExamples.{nested_loops};
ghost use Rattle.herm_source.specs.examples.CountExamples.{closed_with, counted_behind, no_call, open_with, with_callmessage, with_reply};
ghost use Rattle.herm_source.specs.examples.CallPrograms.{kept_parameter};
ghost use Rattle.herm_source.specs.examples.Programs.{left_loop, two_senders};
ghost use Rattle.herm_source.specs.laws.CountLaws.{TypedProgramsKeepCounts};

/// Of a typed and accepted program a process keeps its inports and callmessages accounted for, of each port and each call:
/// those that it had, with what came in and what it made, are those that it has then, with what went out and what it closed or
/// answered.
pub fn counts_are_kept()
    ensures counts { TypedProgramsKeepCounts }
{}

/// Two senders in the middle of their run, behind 12 rounds and behind 30: each open port has one inport that is not finalised,
/// and a closed one has none.
pub fn senders_ports_are_counted()
    ensures both_send { counted_behind 12 (two_senders 2) ≡ Some (record {
      ports = open_with 1 ∷ open_with 1 ∷ open_with 1 ∷ open_with 1 ∷ open_with 1 ∷ [];
      calls = no_call ∷ no_call ∷ no_call ∷ [];
    }) }
    ensures both_ended { counted_behind 30 (two_senders 2) ≡ Some (record {
      ports = open_with 1 ∷ open_with 1 ∷ open_with 1 ∷ closed_with 0 ∷ closed_with 0 ∷ [];
      calls = no_call ∷ no_call ∷ no_call ∷ [];
    }) }
{}

/// A call whose exception keeps a parameter: while it is open, either its callmessage is not finalised, or its reply waits; and
/// then neither.
pub fn kept_call_is_counted()
    ensures called { counted_behind 5 kept_parameter ≡ Some (record {
      ports = open_with 1 ∷ open_with 1 ∷ open_with 1 ∷ [];
      calls = with_callmessage ∷ no_call ∷ [];
    }) }
    ensures replied { counted_behind 6 kept_parameter ≡ Some (record {
      ports = open_with 1 ∷ open_with 1 ∷ open_with 1 ∷ [];
      calls = with_reply ∷ no_call ∷ [];
    }) }
    ensures heard { counted_behind 9 kept_parameter ≡ Some (record {
      ports = open_with 1 ∷ closed_with 0 ∷ closed_with 0 ∷ [];
      calls = no_call ∷ no_call ∷ [];
    }) }
{}

/// A loop that is left finalises its rows, and no inport.
pub fn left_loop_is_counted()
    ensures in_the_loop { counted_behind 9 left_loop ≡ Some (record { ports = open_with 1 ∷ open_with 1 ∷ []; calls = no_call ∷ [] }) }
    ensures ended { counted_behind 14 left_loop ≡ Some (record { ports = open_with 1 ∷ closed_with 0 ∷ []; calls = no_call ∷ [] }) }
{}

/// So it is where both of two nested loops are left.
pub fn nested_loops_are_counted()
    ensures in_the_loops { counted_behind 10 nested_loops ≡ Some (record { ports = open_with 1 ∷ open_with 1 ∷ []; calls = no_call ∷ [] }) }
    ensures ended { counted_behind 13 nested_loops ≡ Some (record { ports = open_with 1 ∷ closed_with 0 ∷ []; calls = no_call ∷ [] }) }
{}
