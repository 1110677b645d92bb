// Laws of the cells that a process holds at places with types.

ghost use Rattle.herm_source.specs.laws.PlaceLaws.{LocalStepsKeepStanding, LocalStepsKeepTests};
ghost use Rattle.herm_source.specs.laws.Standing.{CheckedProcessesKeepStanding};

/// Behind a local step of a typed and accepted program each cell that a sound process holds at a place with a type passes a test of
/// its kind and that type, if each did before: any test that cells without the number of a port or a call pass at places of their
/// types, and that an outport passes where it leads to an inport that does.
pub fn local_steps_keep_places()
    ensures places { LocalStepsKeepTests }
{}

/// Behind a local step of a typed and accepted program each inport, outport and callmessage that a sound process holds at a
/// place with a type stands at a place of its own type, if each did before: whatever types the ports and the calls have.
pub fn local_steps_keep_standing()
    ensures standing { LocalStepsKeepStanding }
{}

/// So it is of each process of a checked program: as it begins with a port of its module's type; along local steps; and along each
/// answer to what it wants, where what comes in suits and stands so, as do the inport or callmessage that it makes. What it then
/// sends, by the type of the port or of the call, stands so too.
pub fn processes_keep_standing()
    ensures standing { CheckedProcessesKeepStanding }
{}
