// Processes of images whose code is good.

ghost use Rattle.herm_code_machine.specs.laws.OperandLaws.{RunsFindOperands, StepsAreRuns};
ghost use Rattle.herm_code_machine.specs.laws.GoodImageLaws.{AnswersAreSound, InstructionsFindOperands, LocalStepsAreSound, OutcomesLead};

/// The index that good code names for an outcome is the one to which the machine goes.
pub fn outcomes_lead_along_ways()
    ensures leads { OutcomesLead }
{}

/// In good code each instruction between actions finds its operands: on the stack, in variables and in slots. It goes along one of its
/// ways, and leaves what the label behind it says, each exception at a landing with an empty stack.
pub fn instructions_find_operands()
    ensures found { InstructionsFindOperands }
{}

/// A process of a good image begins sound within itself, with any inport; behind each local step it is so again; and no local step that
/// is next is stuck.
pub fn local_steps_are_sound()
    ensures steps { LocalStepsAreSound }
{}

/// Where an action is next in such a process it wants something: also a call, whose values are on its stack, the reply to one, and something
/// that waits to be finalised. Each answer with which what suits comes in is taken, and behind it the process is sound within itself again; a
/// call is open from where its callmessage is placed to where its reply is heard.
pub fn answers_are_sound()
    ensures answers { AnswersAreSound }
{}

/// A local step is the run of instructions behind the step at which the process is; and an answer, but for what is finalised, is the run behind
/// what the action, or the call that is open, comes to with it. An action finds on the stack what the run behind its step has pushed.
pub fn steps_are_runs()
    ensures runs { StepsAreRuns }
{}

/// In a good image no such run is stuck, as a process begins or from any process that is sound within itself: each instruction that is done on the
/// way finds its operands, with variables, stack and slots as the label there says.
pub fn runs_find_operands()
    ensures found { RunsFindOperands }
{}
