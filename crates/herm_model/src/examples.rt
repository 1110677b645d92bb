// Laws on small processes: what is missing in each of them, with a control path, or that nothing is.

ghost use Rattle.std.specs.Prelude.{[], ◌∷◌};
ghost use Rattle.herm_model.specs.Types.{predefined};
ghost use Rattle.herm_model.specs.Statements.{handler, no_handlers};
ghost use Rattle.herm_model.specs.Outcomes.{disconnected};
ghost use Rattle.herm_model.specs.MissingFacts.{IsMissing, IsAccepted};
ghost use Rattle.herm_model.specs.examples.ControlExamples.{ArmsInLoop, EmptyBody, EmptyBranch, EmptyLoop, EmptyTriesInLoop, EmptyTry, LeaveInTry, LeaveInner, LoopInHandler, NearestHandler, OutOfReach, OuterHandler, SecondHandler};
ghost use Rattle.herm_model.specs.examples.RefusedProcesses.{busy, calls, denies, discard_w, discards_its_call, inserted_twice, keeps_nothing, keeps_w, missing_after_call, missing_after_insert, missing_after_one_branch, missing_at_return, missing_in_a_loop, on_busy, send_q, send_w, sent_twice, set_in_one_branch, used_after_insert, with_ask, with_rows};
ghost use Rattle.herm_model.specs.examples.RefusedVariants.{dissolve_a, missing_after_move, moves_variant, reveal_a, with_variant};

/// A variable that one branch sets is missing behind the other one, and a variable that a loop sends is missing in its
/// second turn.
pub fn joins_are_refused()
    ensures one_branch { IsMissing predefined set_in_one_branch missing_after_one_branch }
    ensures second_turn { IsMissing predefined sent_twice missing_in_a_loop }
{}

/// A refused insert leaves its row where it was, and one that is done takes the row and its fields away.
pub fn inserts_take_rows()
    ensures kept { IsAccepted with_rows inserted_twice }
    ensures taken { IsMissing with_rows used_after_insert missing_after_insert }
{}

/// A callee may discard its callmessage. Its caller then has its `in` arguments, and no longer the others.
pub fn discarded_calls_take_arguments()
    ensures callee { IsAccepted (with_ask []) discards_its_call }
    ensures caller { IsAccepted (with_ask []) (calls (handler disconnected send_q no_handlers)) }
    ensures argument { IsMissing (with_ask []) (calls (handler disconnected send_w no_handlers)) (missing_after_call disconnected) }
{}

/// An exception brings back the parameters that its callmessage keeps for it, which the callee has to have.
pub fn kept_parameters_come_back()
    ensures kept { IsAccepted (with_ask keeps_w) (calls on_busy) }
    ensures lost { IsMissing (with_ask keeps_nothing) (calls on_busy) (missing_after_call busy) }
    ensures given { IsAccepted (with_ask keeps_w) (denies []) }
    ensures not_given { IsMissing (with_ask keeps_w) (denies (discard_w ∷ [])) missing_at_return }
{}

/// A move loses which component a variant holds; `reveal` finds it again.
pub fn moves_lose_components()
    ensures lost { IsMissing with_variant (moves_variant (dissolve_a ∷ [])) missing_after_move }
    ensures revealed { IsAccepted with_variant (moves_variant (reveal_a ∷ dissolve_a ∷ [])) }
{}

/// Behind the last statement of a block, and in place of an empty block, comes what is behind the statement around it,
/// or the loop whose block it is.
pub fn blocks_lead_on()
    ensures empty_body { EmptyBody }
    ensures empty_try { EmptyTry }
    ensures empty_loop { EmptyLoop }
    ensures empty_branch { EmptyBranch }
    ensures arms_in_loop { ArmsInLoop }
    ensures empty_tries_in_loop { EmptyTriesInLoop }
{}

/// An exception goes to the nearest handler for it around its statement. A handler reaches the block of its `try`, and
/// neither the handlers beside it nor what is behind.
pub fn exceptions_find_the_nearest_handler()
    ensures outer_handler { OuterHandler }
    ensures nearest_handler { NearestHandler }
    ensures out_of_reach { OutOfReach }
    ensures second_handler { SecondHandler }
{}

/// `leave` goes behind the nearest loop around it, out of the trys in between.
pub fn leave_goes_behind_the_loop()
    ensures leave_in_try { LeaveInTry }
    ensures loop_in_handler { LoopInHandler }
    ensures leave_inner { LeaveInner }
{}
