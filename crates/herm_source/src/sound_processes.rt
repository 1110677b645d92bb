// Laws of one process of a checked program: it is sound within itself throughout.

ghost use Rattle.herm_source.specs.laws.SoundProcesses.{CheckedProcessesStaySound, LocalStepsAreThere};
ghost use Rattle.herm_source.specs.laws.Wants.{CheckedProcessesGoOn};

/// A process of a typed and accepted program begins sound within itself, at a point where a control path leads, and stays so:
/// along each local step, and along each answer to what it wants where what comes in suits.
pub fn checked_processes_stay_sound()
    ensures processes { CheckedProcessesStaySound }
{}

/// Where a local step is next in such a process, it is there.
pub fn local_steps_are_there()
    ensures steps { LocalStepsAreThere }
{}

/// It has ended exactly at an end with nothing left to finalise, and stands at a limit, a local step or an action as its work list, its
/// call, its point and its counts say. Where an action is next in it, a want is there, for what the process has: it puts a message of the port to which an outport of
/// its leads, looks at ports whose inports it has, and answers a call whose callmessage it has. Each answer to a want is taken where
/// what comes in suits.
pub fn processes_go_on()
    ensures actions { CheckedProcessesGoOn }
{}
