// Instructions do what the forms of statements do.

ghost use Rattle.herm_code_machine.specs.laws.ExpressionLaws.{CodeGivesValues};
ghost use Rattle.herm_code_machine.specs.laws.InstructionLaws.{InstructionsDoForms};
ghost use Rattle.herm_code_machine.specs.laws.SoundLaws.{InstructionsKeepSound};

/// An instruction of a statement's name does what the form of the statement does, with its operands on the stack: the same
/// outcomes, exceptions and frames, whatever the frame.
pub fn instructions_do_forms()
    ensures forms { InstructionsDoForms }
{}

/// Among sound values an instruction that does a form leaves values sound, with what the statement table says is held behind
/// its outcome, where the form does.
pub fn instructions_keep_sound()
    ensures sound { InstructionsKeepSound }
{}

/// The code of an expression leaves on the stack what the expression gives, and raises what it raises, the left operand's exception
/// first.
pub fn code_gives_values()
    ensures values { CodeGivesValues }
{}
