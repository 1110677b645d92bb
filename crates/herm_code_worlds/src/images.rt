// Worlds of images: laws of the machine of code.

ghost use Rattle.herm_code_machine.specs.CodeInstance.{code_machine, nameless_code};
ghost use Rattle.herm_code_machine.specs.CodeRenaming.{forget_code};
ghost use Rattle.herm_code_machine.specs.ReadyCode.{ReadyImage};
ghost use Rattle.herm_waking.specs.UnnamedReport.{CountsWithoutNames};
ghost use Rattle.herm_code_worlds.specs.laws.BareLaws.{ReportsForgetNames};
ghost use Rattle.herm_code_worlds.specs.laws.CodeLaws.{RecordsRuns, StaysAtDiary, WorksWithoutNames};
ghost use Rattle.herm_code_worlds.specs.laws.WorldOfCode.{ImagesGoRounds, ImagesWakeFew, ImagesWorkAsWorlds, OfEveryImage};

/// A process of code counts the same without the names of its cells, and ends the same: exception, steps, actions, next serial, cells held and cells finalised.
pub fn code_counts_without_names()
    ensures counts { (image : ReadyImage) → CountsWithoutNames (code_machine image) (nameless_code image) forget_code }
{}

/// Of every image, good or not: without names processes, systems, worlds and reports are the same; a process without names stays in the state behind its
/// diary; and clocks, parts of the journal and numbers of runs are recorded as they are to be.
pub fn images_work_without_names()
    ensures names { OfEveryImage WorksWithoutNames }
    ensures reports { OfEveryImage ReportsForgetNames }
    ensures diaries { OfEveryImage StaysAtDiary }
    ensures records { OfEveryImage RecordsRuns }
{}

/// Of every good image, whichever module is main: in a sound state an event wakes few, what is kept stays right, and rounds and schedules over who is kept are
/// those of the language, with no step stuck.
pub fn good_images_go_rounds()
    ensures waking { ImagesWakeFew }
    ensures rounds { ImagesGoRounds }
{}

/// A good image whose main has a port of the type main_start works as a world: it begins, its runs end and are reported, and a world that holds it without
/// names shows a run of it, from its opening along each step, schedule and all rounds to its report.
pub fn images_work_as_worlds()
    ensures works { ImagesWorkAsWorlds }
{}
