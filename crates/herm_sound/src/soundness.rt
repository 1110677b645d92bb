// Laws of sound states: each event keeps them, each run is through them, and in them ports are closed and calls answered once.

ghost use Rattle.herm_model.specs.Values.{Name};
ghost use Rattle.herm_system.specs.Machines.{Machine};
ghost use Rattle.herm_runs.specs.Throughout.{StaysSo};
ghost use Rattle.herm_runs.specs.laws.ProcessLaws.{KeepsLedger, KeepsNumbers};
ghost use Rattle.herm_sound.specs.SoundMachines.{BeginsSound, KeepsSound, NumbersCalls};
ghost use Rattle.herm_sound.specs.laws.SoundLaws.{AnswersOpenCalls, CallsAreAnsweredOnce, CellsAreAll, ClosesOpenPorts, EventsKeepAll, EventsKeepLedger, EventsKeepNumbers, EventsKeepStamps, IsAmong, OpeningIsSound, PortsCloseOnce, RunsAreSound, RunsKeepSound, StatesAlongAreSound, StepsKeepSound, StepsKeepTypes};

/// What an event leaves of a sound state is a sound state, whatever the event: a local step, or an action of any kind at any place
/// where it can be done; and the types of the ports stay. So is what a list of events leaves. Outports among the values that processes have
/// beside their cells stand at places of their types too; where there are no such values that says nothing more.
pub fn events_keep_sound<P, J>()
    ensures steps { (machine : Machine Name P) → (state : J → P) → (keeps : KeepsSound machine (IsAmong state)) → StepsKeepSound machine (IsAmong state) keeps.beside }
    ensures types { (machine : Machine Name P) → (state : J → P) → (keeps : KeepsSound machine (IsAmong state)) → StepsKeepTypes machine (IsAmong state) keeps.beside }
    ensures runs { (machine : Machine Name P) → (state : J → P) → (keeps : KeepsSound machine (IsAmong state)) → RunsKeepSound machine (IsAmong state) keeps.beside }
    ensures alone { (machine : Machine Name P) → (state : J → P) → CellsAreAll machine (IsAmong state) }
{}

/// Behind an event of any state whose numbers agree they agree; behind one of any state with a ledger there is one; and what is so of each
/// process and stays so is so of each behind an event.
pub fn events_keep_books<P, J>()
    ensures numbers { (machine : Machine Name P) → KeepsNumbers machine → EventsKeepNumbers machine }
    ensures ledger { (machine : Machine Name P) → KeepsLedger machine → EventsKeepLedger machine }
    ensures all { (machine : Machine Name P) → (state : J → P) → StaysSo machine (IsAmong state) → EventsKeepAll machine (IsAmong state) }
{}

/// What an event adds to a journal has the stamp of the two clocks.
pub fn events_keep_stamps<P>()
    ensures stamps { (machine : Machine Name P) → EventsKeepStamps machine }
{}

/// The state at the start is sound, with any text as the argument. So is each state that events lead to from there, whatever the
/// schedule, and each along a journal.
pub fn runs_are_sound<P, J>()
    ensures opening { (machine : Machine Name P) → (state : J → P) → (keeps : KeepsSound machine (IsAmong state)) → BeginsSound machine keeps.first_type → OpeningIsSound machine (IsAmong state) keeps.beside }
    ensures runs { (machine : Machine Name P) → (state : J → P) → (keeps : KeepsSound machine (IsAmong state)) → BeginsSound machine keeps.first_type → RunsAreSound machine (IsAmong state) keeps.beside }
    ensures along { (machine : Machine Name P) → (state : J → P) → (keeps : KeepsSound machine (IsAmong state)) → BeginsSound machine keeps.first_type → StatesAlongAreSound machine (IsAmong state) keeps.beside }
{}

/// In a sound state a port that is closed was open, and a call that is answered is open and has no answer so far, and behind it one
/// answer and no callmessage. So along a run no port is closed twice, and no call is answered twice; and one that is open was
/// answered, or has its callmessage; and each answer was heard once, or waits.
pub fn actions_are_done_once<P, J>()
    ensures closes { (machine : Machine Name P) → (state : J → P) → KeepsSound machine (IsAmong state) → ClosesOpenPorts machine (IsAmong state) }
    ensures answers { (machine : Machine Name P) → (state : J → P) → KeepsSound machine (IsAmong state) → AnswersOpenCalls machine (IsAmong state) }
    ensures ports { (machine : Machine Name P) → (state : J → P) → (keeps : KeepsSound machine (IsAmong state)) → BeginsSound machine keeps.first_type → PortsCloseOnce machine }
    ensures calls { (machine : Machine Name P) → (state : J → P) → (keeps : KeepsSound machine (IsAmong state)) → BeginsSound machine keeps.first_type → NumbersCalls machine → CallsAreAnsweredOnce machine }
{}
