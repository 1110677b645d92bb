// Laws of waking: whom an event may wake, and that looking at those again suffices.

ghost use Rattle.herm_model.specs.Values.{Name};
ghost use Rattle.herm_system.specs.Machines.{Machine};
ghost use Rattle.herm_sound.specs.SoundMachines.{BeginsSound, KeepsSound};
ghost use Rattle.herm_sound.specs.laws.SoundLaws.{IsAmong};
ghost use Rattle.herm_waking.specs.laws.WakingLaws.{EventsKeepReady, FirstIsKept, LocalStepsWakeNobody, OneLooksAtAPort, OthersStandAsBefore, WaitsEnd};

/// In a sound state at most one process looks at a port for a message. Behind an event each process stands as before, but the one of the
/// event and those whom an action may wake: the one that looks at the port where a message was placed, the caller whose call was answered,
/// and the process that was made. Of these, one that waited for the message or the reply can act behind it.
pub fn events_wake_few<P, J>()
    ensures one { (machine : Machine Name P) → (state : J → P) → (keeps : KeepsSound machine (IsAmong state)) → OneLooksAtAPort machine (IsAmong state) keeps.beside }
    ensures local_ { (machine : Machine Name P) → (state : J → P) → (keeps : KeepsSound machine (IsAmong state)) → LocalStepsWakeNobody machine (IsAmong state) keeps.beside }
    ensures ended { (machine : Machine Name P) → (state : J → P) → (keeps : KeepsSound machine (IsAmong state)) → WaitsEnd machine (IsAmong state) keeps.beside }
    ensures others { (machine : Machine Name P) → (state : J → P) → (keeps : KeepsSound machine (IsAmong state)) → OthersStandAsBefore machine (IsAmong state) keeps.beside }
{}

/// What is kept beside a system, the processes that can step by rising number and who waits at which port, is right at the start, with any
/// text as the argument, and stays right behind every event where the process of the event is looked at again, and whom it wakes: who was
/// noted last at the port where a message was placed, a caller, and a process that was made.
pub fn events_keep_ready<P, J>()
    ensures first { (machine : Machine Name P) → (state : J → P) → (keeps : KeepsSound machine (IsAmong state)) → BeginsSound machine keeps.first_type → FirstIsKept machine (IsAmong state) keeps.beside }
    ensures events { (machine : Machine Name P) → (state : J → P) → (keeps : KeepsSound machine (IsAmong state)) → EventsKeepReady machine (IsAmong state) keeps.beside }
{}
