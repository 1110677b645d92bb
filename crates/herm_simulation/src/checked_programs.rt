// Checked programs and their code.

ghost use Rattle.herm_simulation.specs.laws.CheckedCode.{CheckedCodeDoesAsSource, CheckedModulesAreTranslated, CheckedProgramsHaveCode};

/// The checked modules of a program, whatever lists of facts and paths a compiler has of them, are all that the laws of its code ask: the lists are right, and the image is good.
pub fn checked_programs_are_translated()
    ensures translated { CheckedModulesAreTranslated }
{}

/// So the code of each checked program does what its source does: the image is good, the machine of its code is joined to the source machine, and events, rounds and diaries
/// lead to the same in both, either way. No checked program is without such code.
pub fn checked_programs_have_code()
    ensures each { CheckedCodeDoesAsSource }
    ensures there { CheckedProgramsHaveCode }
{}
