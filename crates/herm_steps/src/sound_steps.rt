//! What sound processes do.
ghost use Rattle.herm_steps.specs.KeysThere.{RunsAreKeyed};
ghost use Rattle.herm_steps.specs.SoundSteps.{SoundStepsAreMade};

/// Where a piece without an action comes next in a sound state, its local step is there.
pub fn sound_steps_are_made()
    ensures made { SoundStepsAreMade }
{}

/// Each table to which a row goes, or of which one is taken or copied, can have the fields of its type as its key, and each row
/// that goes there has them: at each instruction to which the run of a sound process comes. So no `Insert`, `Remove` or `Get` of
/// such a process is refused its key.
pub fn runs_are_keyed()
    ensures keyed { RunsAreKeyed }
{}
