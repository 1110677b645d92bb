// Where processes of code stand, what landings leave, and the order of the stack.

ghost use Rattle.herm_code_machine.specs.laws.EndLaws.{EndsAreTold, ExceptionsAreTold, RunsGoOn};
ghost use Rattle.herm_code_machine.specs.laws.PieceLaws.{ProcessesStandAtPieces};
ghost use Rattle.herm_code_machine.specs.laws.StackLaws.{ExceptionsLand, PoppedAsPushed, RunsAreOne};
ghost use Rattle.herm_code_machine.specs.laws.StandingLaws.{ProcessesStandSo};

/// A process stands at the beginning of a piece, or at an end, as it begins, behind each local step and behind each answer.
pub fn processes_stand_at_pieces()
    ensures stands { ProcessesStandAtPieces }
{}

/// A process that is sound within itself has ended exactly where nothing waits to be finalised, no call is open and its position is an end.
/// It is out of steps exactly where what comes next begins with a step and its steps have reached the limit, also where an action comes behind
/// it; and out of actions exactly where an action is next and its actions have reached theirs.
pub fn processes_stand_by_limits()
    ensures stands { ProcessesStandSo }
{}

/// A run to the next piece does instructions one after the other. `End` alone leads to the end by no exception, and `EndBy` alone to the end by the
/// exception that it names, which the process then tells.
pub fn ends_are_told()
    ensures runs { RunsGoOn }
    ensures ends { EndsAreTold }
    ensures exceptions { ExceptionsAreTold }
{}

/// An exception leads to the landing of its instruction, with an empty stack and the frame that it leaves.
pub fn exceptions_land()
    ensures lands { ExceptionsLand }
{}

/// Operands are taken in the order in which they were pushed.
pub fn values_are_popped_as_pushed()
    ensures popped { PoppedAsPushed }
{}

/// A run to the next piece is the same where more instructions are allowed.
pub fn runs_are_one()
    ensures one { RunsAreOne }
{}
