// Programs in the middle of their runs: the laws of checked programs, applied to states that are computed.

ghost use Rattle.std.specs.Prelude.{◌≡◌, [], ◌∷◌, true, false};
ghost use Rattle.herm_model.specs.Statements.{block, no_blocks, no_statements};
ghost use Rattle.herm_checked.specs.examples.RunningPrograms.{choosing_program, IsDescribedWithin, IsFreeAt, IsReady, IsSoundBehind, IsStuckBehind, makes_rounds, past_a_raise, raises_alone, ring_of_three};
ghost use Rattle.herm_source.specs.examples.CallPrograms.{calls_both_ways, kept_parameter};
ghost use Rattle.herm_source.specs.examples.Programs.{two_senders};
ghost use Rattle.herm_source.specs.examples.RunExamples.{limited};

/// A ring of three processes, two senders with three items, two processes that call each other, and an exception with a parameter that
/// it keeps, and one statement that raises, are typed and accepted, with the labels that three rounds find: these are exact.
pub fn programs_are_ready()
    ensures ring { IsReady 7 ring_of_three }
    ensures senders { IsReady 7 (two_senders 3) }
    ensures both { IsReady 7 calls_both_ways }
    ensures kept { IsReady 8 kept_parameter }
    ensures raises { IsReady 7 raises_alone }
{}

/// A run by rounds whose process 1 ends by an exception has status 6, and is described by its report, for any names of exceptions and whatever
/// is asked for; so is the run of two processes in which an exception is answered.
pub fn runs_by_exception_are_described()
    ensures raises { IsDescribedWithin raises_alone (limited 1000 4 4) 4 1 6 }
    ensures kept { IsDescribedWithin kept_parameter (limited 1000 4 4) 40 9 0 }
{}

/// In the middle of the run of each, where some process can step, the state is sound.
pub fn states_in_the_middle_are_sound()
    ensures ring { IsSoundBehind ring_of_three (limited 1000 4 8) 24 16 }
    ensures senders { IsSoundBehind (two_senders 3) (limited 1000 4 4) 24 13 }
    ensures both { IsSoundBehind calls_both_ways (limited 1000 4 8) 8 5 }
    ensures kept { IsSoundBehind kept_parameter (limited 1000 4 4) 5 4 }
{}

/// Where an arm of a `case` is missing, the program is not typed, and its run is stuck at the third round, though its modules are accepted; with
/// both arms it goes on.
pub fn missing_arms_stop_a_run()
    ensures before { makes_rounds 2 (choosing_program (1 ∷ []) (block no_statements no_blocks)) ≡ true }
    ensures missing { makes_rounds 3 (choosing_program (1 ∷ []) (block no_statements no_blocks)) ≡ false }
    ensures stuck { IsStuckBehind (choosing_program (1 ∷ []) (block no_statements no_blocks)) (limited 1000 4 4) 2 }
    ensures complete { makes_rounds 3 (choosing_program (0 ∷ 1 ∷ []) (block no_statements (block no_statements no_blocks))) ≡ true }
{}

/// Where no control path leads, labels are free: exact ones may say every fact there, or none.
pub fn labels_past_a_raise_are_free()
    ensures free { IsFreeAt past_a_raise 1 }
{}
