// Laws of the runs of typed programs and their accepted modules, with a text as argument, whatever the schedule.

ghost use Rattle.herm_checked.specs.laws.CheckedRuns.{AcceptedStepsReach, CheckedActionsAreDoneOnce, CheckedEventsSuit, CheckedNoneIsStuck, CheckedOpeningIsSound, CheckedReportsDescribe, CheckedRunsAreDescribed, CheckedRunsAreSound, CheckedRunsEnd, CheckedRunsSuit, CheckedStatesAlong, CheckedStepsKeepSound, CheckedStepsKeepTypes, SoundWithReach};

/// A sound state in which each process stands where a control path leads is one in which each process is sound within itself and stands so.
pub fn sound_states_stand_reached()
    ensures reach { SoundWithReach }
{}

/// What an event leaves of such a state is such a state, whatever the event and whatever the statement: statements of all forms, what is
/// finalised, messages, replies, ports and processes that are made; and the types of its ports stay. Where control paths lead, processes of
/// accepted modules stay behind an event of any state. The state at the start is a sound one, with any text as argument.
pub fn events_keep_sound()
    ensures steps { CheckedStepsKeepSound }
    ensures types { CheckedStepsKeepTypes }
    ensures reached { AcceptedStepsReach }
    ensures opening { CheckedOpeningIsSound }
{}

/// So each state of each run is sound. Along every journal each state is sound, and every statement finds the facts that it needs: what a
/// report claims of it.
pub fn runs_are_sound()
    ensures runs { CheckedRunsAreSound }
    ensures along { CheckedStatesAlong }
{}

/// In a sound state what comes in with an event suits its process; so along any events from the start no entry would be put aside.
pub fn what_comes_in_suits()
    ensures events { CheckedEventsSuit }
    ensures runs { CheckedRunsSuit }
{}

/// So each such run to a final state, with its journal in order, has a report that says of it what is claimed, at each status and whatever
/// is asked for; and a report whose text is the same by all names of exceptions says so of its run.
pub fn reports_describe_runs()
    ensures runs { CheckedRunsAreDescribed }
    ensures reports { CheckedReportsDescribe }
{}

/// No process is stuck: each that is to make a local step makes it, and each that can act can do so at some place, and at each place where
/// something of what it wants can be done; and each that can do nothing of what it wants waits for a message at open ports, or for the reply to
/// its open call.
pub fn no_process_is_stuck()
    ensures none { CheckedNoneIsStuck }
{}

/// Ports that are closed were open, calls that are answered are open and have no answer yet; along a run no port is closed twice, and no call is
/// answered twice; and one that is open was answered, or has its callmessage.
pub fn actions_are_done_once()
    ensures once { CheckedActionsAreDoneOnce }
{}

/// The limits bound the events of a run, and so many rounds, and one more, reach a state in which no process can step.
pub fn runs_end()
    ensures end { CheckedRunsEnd }
{}
