// Laws of rounds, runs and journals. Runs are those of machines with a main.

ghost use Rattle.herm_model.specs.Values.{Kind, Name};
ghost use Rattle.std.specs.Prelude.{List};
ghost use Rattle.herm_system.specs.Machines.{Machine};
ghost use Rattle.herm_runs.specs.laws.ProcessLaws.{KeepsLedger, KeepsNumbers, KnowsPlaces};
ghost use Rattle.herm_runs.specs.laws.OrderLaws.{OrderedJournalsAreRuns};
ghost use Rattle.herm_runs.specs.laws.RunLaws.{RoundsAreRuns, RoundsAreFinal, RunsAreStamped, RunsAreJournals, RunsKeepLedger, LedgerAlong, RunsAreNumbered, NamesAreMadeOnce, OnlyTakesAndHearsWait, HistoriesTell};

/// The schedule of one worker is one of the schedules: what rounds lead to is led to by a list of events.
pub fn rounds_are_runs<P>()
    ensures runs { (machine : Machine Name P) → RoundsAreRuns machine }
{}

/// Where a number of rounds suffices, and at least one process may be made, rounds end where no process can step.
pub fn rounds_are_final<P>()
    ensures final_ { (machine : Machine Name P) → KeepsNumbers machine → RoundsAreFinal machine }
{}

/// Each entry of a run's journal has the stamp that the entries before it give, by the clocks of its process and of
/// its place.
pub fn runs_are_stamped<P>()
    ensures stamped { (machine : Machine Name P) → RunsAreStamped machine }
{}

/// Whatever the schedule, the entries of a run in order are a journal that fits the run's diaries and histories.
pub fn runs_are_journals<P>()
    ensures fits { (machine : Machine Name P) → KeepsNumbers machine → RunsAreJournals machine }
{}

/// Whatever the schedule, the entries in order are themselves the journal of a run, from the same opening state to the
/// same state: two actions that stand in the wrong order are of different processes and at different places, and could
/// as well have been done the other way round.
pub fn ordered_journals_are_runs<P>()
    ensures runs { (machine : Machine Name P) (beside : P → List Kind) → KeepsNumbers machine → KnowsPlaces machine beside → OrderedJournalsAreRuns machine }
{}

/// Whatever the schedule, every state of a run has the ledger: what was made is what is held, queued and finalised, by
/// every weight of names. So no cell is lost, and none has two holders.
pub fn runs_keep_ledger<P>()
    ensures ledger { (machine : Machine Name P) → KeepsLedger machine → RunsKeepLedger machine }
{}

/// Whatever the schedule, the numbers of a run agree: each process has its number and its module, and a reply cell;
/// the book has counted what was made.
pub fn runs_are_numbered<P>()
    ensures numbered { (machine : Machine Name P) → KeepsNumbers machine → RunsAreNumbered machine }
{}

/// Where numbers agree no name was made twice: so by the ledger's equation each cell that was made is held, queued or
/// finalised exactly once.
pub fn names_are_made_once<P>()
    ensures once { (machine : Machine Name P) → NamesAreMadeOnce machine }
{}

/// So along every journal each cell that was made is held, queued or finalised exactly once.
pub fn ledger_along_journals<P>()
    ensures ledger { (machine : Machine Name P) → KeepsNumbers machine → KeepsLedger machine → LedgerAlong machine }
{}

/// Whatever the schedule, in every state of a run the entries at a place are a legal history and tell what it holds: a
/// port's messages, a reply cell's replies, the book's counts.
pub fn histories_tell<P>()
    ensures told { (machine : Machine Name P) → HistoriesTell machine }
{}

/// Whatever the schedule, a process waits for a message or for a reply alone: whatever else it wants is wanted of a place
/// that is there, and can be done.
pub fn only_takes_and_hears_wait<P>()
    ensures wait { (machine : Machine Name P) (beside : P → List Kind) → KeepsNumbers machine → KnowsPlaces machine beside → OnlyTakesAndHearsWait machine }
{}
