// Laws of runs of the source machine, for any modules with a main: each is the law over any machine (herm_runs), which the
// source machine meets.

ghost use Rattle.herm_runs.specs.laws.OrderLaws.{OrderedJournalsAreRuns};
ghost use Rattle.herm_runs.specs.laws.RunLaws.{HistoriesTell, LedgerAlong, NamesAreMadeOnce, OnlyTakesAndHearsWait, RoundsAreFinal, RoundsAreRuns, RunsAreJournals, RunsAreNumbered, RunsAreStamped, RunsKeepLedger};
ghost use Rattle.herm_source.specs.Instance.{source};
ghost use Rattle.herm_source.specs.Modules.{Modules};
ghost use Rattle.herm_source.specs.laws.RunLaws.{SourceDescribedDiariesTell, SourceDiariesTell, SourceRunsSuit, SourceSoundDiariesTell, SourceStatesSuit, SourceStatesWouldSuit};

/// The schedule of one worker is one of the schedules: what rounds lead to is led to by a list of events.
pub fn rounds_are_runs()
    ensures runs { (modules : Modules) → RoundsAreRuns (source modules) }
{}

/// Where a number of rounds suffices, and at least one process may be made, rounds end where no process can step.
pub fn rounds_are_final()
    ensures final_ { (modules : Modules) → RoundsAreFinal (source modules) }
{}

/// Each entry of a run's journal has the stamp that the entries before it give, by the clocks of its process and of
/// its place.
pub fn runs_are_stamped()
    ensures stamped { (modules : Modules) → RunsAreStamped (source modules) }
{}

/// Whatever the schedule, the entries of a run in order are a journal that fits the run's diaries and histories.
pub fn runs_are_journals()
    ensures fits { (modules : Modules) → RunsAreJournals (source modules) }
{}

/// Whatever the schedule, the entries in order are themselves the journal of a run, from the same opening state to the
/// same state.
pub fn ordered_journals_are_runs()
    ensures runs { (modules : Modules) → OrderedJournalsAreRuns (source modules) }
{}

/// Whatever the schedule, every state of a run has the ledger: what was made is what is held, queued and finalised, by
/// every weight of names. So no cell is lost, and none has two holders.
pub fn runs_keep_ledger()
    ensures ledger { (modules : Modules) → RunsKeepLedger (source modules) }
{}

/// Whatever the schedule, the numbers of a run agree: each process has its number and its module, and a reply cell;
/// the book has counted what was made.
pub fn runs_are_numbered()
    ensures numbered { (modules : Modules) → RunsAreNumbered (source modules) }
{}

/// Where numbers agree no name was made twice: so by the ledger's equation each cell that was made is held, queued or
/// finalised exactly once.
pub fn names_are_made_once()
    ensures once { (modules : Modules) → NamesAreMadeOnce (source modules) }
{}

/// So along every journal each cell that was made is held, queued or finalised exactly once.
pub fn ledger_along_journals()
    ensures ledger { (modules : Modules) → LedgerAlong (source modules) }
{}

/// Whatever the schedule, in every state of a run the entries at a place are a legal history and tell what it holds: a
/// port's messages, a reply cell's replies, the book's counts.
pub fn histories_tell()
    ensures told { (modules : Modules) → HistoriesTell (source modules) }
{}

/// Whatever the schedule, a process waits for a message or for a reply alone: whatever else it wants can be done.
pub fn only_takes_and_hears_wait()
    ensures wait { (modules : Modules) → OnlyTakesAndHearsWait (source modules) }
{}

/// Whatever the schedule, where what comes in with each action suits its process, every process of a run is what its
/// diary says, but for the names of its cells.
pub fn diaries_tell()
    ensures told { SourceDiariesTell }
{}

/// In a sound state what comes in suits its process, where all codes have the modules' table of types: a message is
/// one of the port's type with exactly the declared facts, a reply is one that the open call waits for, and messages
/// that are left with a close are well made. So would all that can be done in it, whether or not
/// the process goes on from there.
pub fn sound_states_suit()
    ensures suits { SourceStatesSuit }
    ensures would { SourceStatesWouldSuit }
{}

/// So what comes in suits along every run through sound states.
pub fn sound_runs_suit()
    ensures suits { SourceRunsSuit }
{}

/// Whatever the schedule, along a run through sound states every process is what its diary says, but for the names of
/// its cells.
pub fn sound_diaries_tell()
    ensures told { SourceSoundDiariesTell }
{}

/// So where a report describes a run of accepted modules, every process of its final state is what its diary in the
/// reported journal says, but for the names of its cells.
pub fn described_diaries_tell()
    ensures told { SourceDescribedDiariesTell }
{}
