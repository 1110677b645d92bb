// Laws of where processes stand, and of what their statements find there.

ghost use Rattle.herm_source.specs.laws.NeedsLaws.{RunsReach, SoundStatesFindNeeds, SoundStatesAlongFindNeeds};

/// Whatever the schedule, in every state of a run of accepted modules each process stands where a control path leads.
pub fn runs_reach()
    ensures reach { RunsReach }
{}

/// Where the processes of accepted modules stand so and are sound within themselves, every statement that is next finds
/// the facts that it needs, whatever its form.
pub fn sound_states_find_needs()
    ensures needs { SoundStatesFindNeeds }
{}

/// So along every journal of accepted modules the statements of a sound state find the facts that they need.
pub fn sound_states_along_find_needs()
    ensures needs { SoundStatesAlongFindNeeds }
{}
