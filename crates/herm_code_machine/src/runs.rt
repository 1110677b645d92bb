// Laws of runs of the machine of code, for any image with a main: each is the law over any machine (herm_runs), which the
// machine of code meets.

ghost use Rattle.herm_runs.specs.laws.OrderLaws.{OrderedJournalsAreRuns};
ghost use Rattle.herm_runs.specs.laws.RunLaws.{HistoriesTell, LedgerAlong, NamesAreMadeOnce, OnlyTakesAndHearsWait, RoundsAreFinal, RoundsAreRuns, RunsAreJournals, RunsAreNumbered, RunsAreStamped, RunsKeepLedger};
ghost use Rattle.herm_code_machine.specs.CodeInstance.{code_machine, nameless_code};
ghost use Rattle.herm_code_machine.specs.CodeRenaming.{forget_code};
ghost use Rattle.herm_code_machine.specs.ReadyCode.{ReadyImage};
ghost use Rattle.herm_runs.specs.laws.DiaryLaws.{DiariesTell};

/// The schedule of one worker is one of the schedules: what rounds lead to is led to by a list of events.
pub fn rounds_are_runs()
    ensures runs { (image : ReadyImage) → RoundsAreRuns (code_machine image) }
{}

/// Where a number of rounds suffices, and at least one process may be made, rounds end where no process can step.
pub fn rounds_are_final()
    ensures final_ { (image : ReadyImage) → RoundsAreFinal (code_machine image) }
{}

/// Each entry of a run's journal has the stamp that the entries before it give, by the clocks of its process and of
/// its place.
pub fn runs_are_stamped()
    ensures stamped { (image : ReadyImage) → RunsAreStamped (code_machine image) }
{}

/// Whatever the schedule, the entries of a run in order are a journal that fits the run's diaries and histories.
pub fn runs_are_journals()
    ensures fits { (image : ReadyImage) → RunsAreJournals (code_machine image) }
{}

/// Whatever the schedule, the entries in order are themselves the journal of a run, from the same opening state to the
/// same state.
pub fn ordered_journals_are_runs()
    ensures runs { (image : ReadyImage) → OrderedJournalsAreRuns (code_machine image) }
{}

/// Whatever the schedule, every state of a run has the ledger: what was made is what is held, queued and finalised, by
/// every weight of names. So no cell is lost, and none has two holders.
pub fn runs_keep_ledger()
    ensures ledger { (image : ReadyImage) → RunsKeepLedger (code_machine image) }
{}

/// Whatever the schedule, the numbers of a run agree: each process has its number and its module, and a reply cell;
/// the book has counted what was made.
pub fn runs_are_numbered()
    ensures numbered { (image : ReadyImage) → RunsAreNumbered (code_machine image) }
{}

/// Where numbers agree no name was made twice: so by the ledger's equation each cell that was made is held, queued or
/// finalised exactly once.
pub fn names_are_made_once()
    ensures once { (image : ReadyImage) → NamesAreMadeOnce (code_machine image) }
{}

/// So along every journal each cell that was made is held, queued or finalised exactly once.
pub fn ledger_along_journals()
    ensures ledger { (image : ReadyImage) → LedgerAlong (code_machine image) }
{}

/// Whatever the schedule, in every state of a run the entries at a place are a legal history and tell what it holds: a
/// port's messages, a reply cell's replies, the book's counts.
pub fn histories_tell()
    ensures told { (image : ReadyImage) → HistoriesTell (code_machine image) }
{}

/// Whatever the schedule, a process waits for a message or for a reply alone: whatever else it wants can be done.
pub fn only_takes_and_hears_wait()
    ensures wait { (image : ReadyImage) → OnlyTakesAndHearsWait (code_machine image) }
{}

/// Whatever the schedule, where what comes in with each action suits its process, every process of a run is what its
/// diary says, but for the names of its cells.
pub fn diaries_tell()
    ensures told { (image : ReadyImage) → DiariesTell (code_machine image) (nameless_code image) forget_code }
{}
