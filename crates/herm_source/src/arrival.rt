// Laws of edges and beginnings: what they leave is what the facts of their target say.

ghost use Rattle.herm_source.specs.Arriving.{BeginningsAreSound, OutcomesArrive};

/// With exact labels, and types within the limit of depth, a process begins with sound values, where its port is of
/// the type of its first variable, and is no record or callmessage.
pub fn beginnings_are_sound()
    ensures begin { BeginningsAreSound }
{}

/// With them, in a well formed body, at a point that a control path reaches: a statement whose values are sound with
/// what the statement table says is held behind its outcome leads to a point that a path reaches, where they are
/// sound with the facts there. So it is whatever the form, for local steps and answers alike.
pub fn outcomes_arrive_soundly()
    ensures arrive { OutcomesArrive }
{}
