// Laws of what a world reports: clocks, the journal and the numbers.

ghost use Rattle.std.specs.Prelude.{List};
ghost use Rattle.herm_model.specs.Values.{Kind, Name};
ghost use Rattle.herm_runs.specs.laws.ProcessLaws.{KeepsNumbers, KnowsPlaces};
ghost use Rattle.herm_system.specs.Machines.{Machine};
ghost use Rattle.herm_sound.specs.SoundMachines.{BeginsSound, KeepsLimits, KeepsSound};
ghost use Rattle.herm_sound.specs.laws.SoundLaws.{IsAmong};
ghost use Rattle.herm_waking.specs.laws.ClockLaws.{RunClocksAreWithin, RunClocksFit, StampedClocksAreWithin};
ghost use Rattle.herm_waking.specs.laws.EntryLaws.{JournalsGrow, NothingIsRecordedYet};
ghost use Rattle.herm_waking.specs.laws.WorldLaws.{WorldsAreReported};
ghost use Rattle.herm_waking.specs.laws.ReportLaws.{CountsAreAdded, RunsHaveOneJournal, SumsAreCut};

/// No stamp and no clock of a run is above the number of its entries, and these are no more than its events. So where the limits are in their
/// ranges all clocks are below 2^63.
pub fn clocks_are_within<P, J>()
    ensures stamped { StampedClocksAreWithin }
    ensures runs { (machine : Machine Name P) → RunClocksAreWithin machine }
    ensures fit { (machine : Machine Name P) → (state : J → P) → (keeps : KeepsSound machine (IsAmong state)) → BeginsSound machine keeps.first_type → KeepsLimits machine → RunClocksFit machine }
{}

/// With one entry more the diary of its process and the history of its place have it at their end, and the clocks of its process, of a
/// process that it made and of its place are its stamp; all else of diaries, histories and clocks is as before. Along a run who is not there
/// yet has no diary, and where nothing is yet there is no history, and its clock is 0.
pub fn entries_grow_parts<P>()
    ensures grow { JournalsGrow }
    ensures nothing_yet { (machine : Machine Name P) → NothingIsRecordedYet machine }
{}

/// The journal of a run in order fits its diaries and histories, and no other rising list of entries has its diaries.
pub fn runs_have_one_journal<P>()
    ensures journal { (machine : Machine Name P) → KeepsNumbers machine → RunsHaveOneJournal machine }
{}

/// The numbers of the summary are those that processes, ports and reply cells count, added up; and each count and each sum may be cut at 2^63
/// where it is taken.
pub fn counts_are_added<P>()
    ensures counts { (machine : Machine Name P) → CountsAreAdded machine }
    ensures sums { SumsAreCut }
{}

/// Where a world that events have led to keeps none, its report describes its run: the ordered journal is that of a run from the opening state
/// to a final one, with the stamps of the two clocks; each state along it is sound, has the ledger, and its processes find what those that are
/// sound within themselves find; and ends, queues, numbers, status and text are those of the final state.
pub fn worlds_are_reported<P, J, K>()
    ensures report { (machine : Machine Name P) → (state : J → P) → (needs : K → P) → (keeps : KeepsSound machine (IsAmong state)) → BeginsSound machine keeps.first_type → (known : P → List Kind) → KnowsPlaces machine known → ((x : P) → IsAmong state x → IsAmong needs x) → WorldsAreReported machine (IsAmong state) (IsAmong needs) keeps.beside }
{}
