// The source machine meets the laws of one process that the laws of runs ask for.

ghost use Rattle.herm_runs.specs.laws.ProcessLaws.{ForgetsNames, KeepsLedger, KeepsNumbers, KnowsPlaces, cells_alone};
ghost use Rattle.herm_runs.specs.laws.SuitsLaws.{LooksAtHeld};
ghost use Rattle.herm_source.specs.Instance.{IsSoundIn, nameless, source};
ghost use Rattle.herm_source.specs.laws.NumberLaws.{AnswersStay, LocalStepsStay};
ghost use Rattle.herm_source.specs.Modules.{Modules};
ghost use Rattle.herm_source.specs.Renaming.{forget_state};
ghost use Rattle.herm_source.specs.Sharing.{AcceptedShareTypes, ShareTypes};

/// A process keeps its number and its module.
pub fn processes_stay()
    ensures local_steps { LocalStepsStay }
    ensures answers { AnswersStay }
{}

/// A process begins with the number and the module that it is given, and keeps them.
pub fn numbers_are_kept()
    ensures numbers { (modules : Modules) → KeepsNumbers (source modules) }
{}

/// What a process makes, holds, finalises, gives and gets keeps the ledger's equation.
pub fn the_ledger_is_kept()
    ensures ledger { (modules : Modules) → KeepsLedger (source modules) }
{}

/// A process that knows only ports and callers that the book has counted wants nothing of others, and learns only what
/// comes to it.
pub fn places_are_known()
    ensures places { (modules : Modules) → KnowsPlaces (source modules) cells_alone }
{}

/// A process does the same without the names of its cells.
pub fn names_are_forgotten()
    ensures names { (modules : Modules) → ForgetsNames (source modules) (nameless modules) forget_state }
{}

/// All codes of accepted modules have the modules' table of types.
pub fn accepted_modules_share_types()
    ensures types { AcceptedShareTypes }
{}

/// The port at which a process that is sound within itself wants to take has the type of an inport that the process holds.
pub fn ports_are_held()
    ensures held { (modules : Modules) → ShareTypes modules → LooksAtHeld (source modules) (IsSoundIn modules) }
{}
