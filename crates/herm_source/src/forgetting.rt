// Laws of names: a process does the same without them.

ghost use Rattle.herm_source.specs.ForgettingNames.{BeginningsForget, WantsForget, LocalStepsForget, AnswersForget};

/// A process begins with values as it does with cells.
pub fn beginnings_forget_names()
    ensures beginnings { BeginningsForget }
{}

/// What a process wants of a place does not depend on the names of its cells.
pub fn wants_forget_names()
    ensures wants { WantsForget }
{}

/// Forgetting the names before a local step is forgetting them behind it, for every form.
pub fn local_steps_forget_names()
    ensures local_steps { LocalStepsForget }
{}

/// Forgetting the names before an answer is forgetting them behind it, for every action.
pub fn answers_forget_names()
    ensures answers { AnswersForget }
{}
