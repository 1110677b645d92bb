// Laws of rounds over the processes that are kept, and of runs along a schedule.

ghost use Rattle.herm_model.specs.Values.{Name};
ghost use Rattle.herm_runs.specs.laws.ProcessLaws.{ForgetsNames};
ghost use Rattle.herm_system.specs.Machines.{Machine};
ghost use Rattle.herm_sound.specs.SoundMachines.{BeginsSound, GoesOn, KeepsLimits, KeepsSound};
ghost use Rattle.herm_sound.specs.laws.SoundLaws.{IsAmong};
ghost use Rattle.herm_waking.specs.laws.RoundLaws.{EventsAreWorked, KeptRoundsAreRounds, KeptRoundsEnd, KeptRoundsSuffice, NothingKeptIsFinal, SchedulesAreGoneAlong, SchedulesAreThere, StartIsWorked, StepsCanBeMade, WorldDiariesTell, WorldsWouldSuit};
ghost use Rattle.std.specs.Prelude.{⊤};

/// The state of a world is sound, what is kept beside it is right, and no more processes were made than may be: so at the start, with any
/// text as the argument, and behind each event. Where nothing is kept no process can step.
pub fn worlds_are_worked<P, J>()
    ensures start { (machine : Machine Name P) → (state : J → P) → (keeps : KeepsSound machine (IsAmong state)) → BeginsSound machine keeps.first_type → StartIsWorked machine (IsAmong state) keeps.beside }
    ensures events { (machine : Machine Name P) → (state : J → P) → (keeps : KeepsSound machine (IsAmong state)) → EventsAreWorked machine (IsAmong state) keeps.beside }
    ensures final_ { (machine : Machine Name P) → NothingKeptIsFinal machine }
{}

/// Rounds over the processes that are kept are the rounds of one worker: the same run, whatever their number; and where they lead to a
/// state, none is kept there, and no process can step. So many rounds as there can be events, and one more, suffice from each state that
/// events lead to.
pub fn kept_rounds_are_rounds<P, J>()
    ensures rounds { (machine : Machine Name P) → (state : J → P) → (keeps : KeepsSound machine (IsAmong state)) → KeptRoundsAreRounds machine (IsAmong state) keeps.beside }
    ensures end_ { (machine : Machine Name P) → (state : J → P) → (keeps : KeepsSound machine (IsAmong state)) → KeptRoundsEnd machine (IsAmong state) keeps.beside }
    ensures suffice { (machine : Machine Name P) → (state : J → P) → (keeps : KeepsSound machine (IsAmong state)) → BeginsSound machine keeps.first_type → KeepsLimits machine → GoesOn machine (IsAmong state) → KeptRoundsSuffice machine (IsAmong state) keeps.beside }
{}

/// A run along a schedule makes an event of each number in order whose process is there and can step then, and nothing else, for every
/// schedule: no step that is next is stuck.
pub fn schedules_are_gone_along<P, J>()
    ensures along { (machine : Machine Name P) → (state : J → P) → (keeps : KeepsSound machine (IsAmong state)) → SchedulesAreGoneAlong machine (IsAmong state) keeps.beside }
    ensures steps { (machine : Machine Name P) → (state : J → P) → (keeps : KeepsSound machine (IsAmong state)) → GoesOn machine (IsAmong state) → StepsCanBeMade machine (IsAmong state) keeps.beside }
    ensures there { (machine : Machine Name P) → (state : J → P) → (keeps : KeepsSound machine (IsAmong state)) → GoesOn machine (IsAmong state) → SchedulesAreThere machine (IsAmong state) keeps.beside }
{}

/// Whatever can be done in the state of a world suits the process that does it; so no entry is put aside, and each process of a run, with any
/// text as the argument, is what its diary says, but for the names of its cells.
pub fn worlds_suit<P, Q, J>()
    ensures suits { (machine : Machine Name P) → (state : J → P) → (keeps : KeepsSound machine (IsAmong state)) → WorldsWouldSuit machine (IsAmong state) keeps.beside }
    ensures told { (machine : Machine Name P) → (nameless : Machine ⊤ Q) → (without : P → Q) → (state : J → P) → (keeps : KeepsSound machine (IsAmong state)) → BeginsSound machine keeps.first_type → ForgetsNames machine nameless without → WorldDiariesTell machine nameless without }
{}
