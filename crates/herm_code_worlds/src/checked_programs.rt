// Worlds of the code of checked programs.

ghost use Rattle.herm_code_worlds.specs.laws.CheckedWorlds.{CheckedCodeWorksAsProgram, CheckedProgramsHaveWorlds};

/// The code of each checked program does as its source and works as a world; and where a world that holds it without names keeps nobody, its report describes
/// a run of the program. No checked program is without such code.
pub fn checked_code_works_as_program()
    ensures each { CheckedCodeWorksAsProgram }
    ensures there { CheckedProgramsHaveWorlds }
{}
