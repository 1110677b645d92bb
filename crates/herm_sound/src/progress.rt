// Laws of going on: in sound states no process is stuck, limits bound the events of a run, and rounds reach its end.

ghost use Rattle.herm_model.specs.Values.{Name};
ghost use Rattle.herm_system.specs.Machines.{Machine};
ghost use Rattle.herm_sound.specs.SoundMachines.{BeginsSound, GoesOn, KeepsLimits, KeepsSound};
ghost use Rattle.herm_sound.specs.laws.SoundLaws.{EventsAreBounded, IsAmong, NoneIsStuck, RoundsSuffice};

/// In a sound state each process that stands local has its local step, and each that stands acting can act at some place, and at each
/// where something of what it wants can be done; and each that can do nothing of what it wants waits for a message at open ports, or for
/// the reply to a call whose callmessage is not finalised.
pub fn no_process_is_stuck<P, J>()
    ensures none { (machine : Machine Name P) → (state : J → P) → KeepsSound machine (IsAmong state) → GoesOn machine (IsAmong state) → NoneIsStuck machine (IsAmong state) }
{}

/// The limits bound the events of any run.
pub fn limits_bound_events<P, J>()
    ensures events { (machine : Machine Name P) → (state : J → P) → (keeps : KeepsSound machine (IsAmong state)) → BeginsSound machine keeps.first_type → KeepsLimits machine → EventsAreBounded machine }
{}

/// So many rounds, and one more, suffice: they lead to a state in which no process can step.
pub fn rounds_suffice<P, J>()
    ensures rounds { (machine : Machine Name P) → (state : J → P) → (keeps : KeepsSound machine (IsAmong state)) → BeginsSound machine keeps.first_type → KeepsLimits machine → GoesOn machine (IsAmong state) → RoundsSuffice machine }
{}
