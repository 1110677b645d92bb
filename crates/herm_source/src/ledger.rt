// Laws of the ledger for one process.

ghost use Rattle.herm_source.specs.laws.LedgerLaws.{BeginningsKeep, LocalStepsKeep, AnswersKeep};

/// A process that begins holds or has finalised nothing but its port.
pub fn beginnings_keep_the_ledger()
    ensures beginnings { BeginningsKeep }
{}

/// A local step of every form keeps, for each name, made = held + finalised, as far as the process has part in it.
pub fn local_steps_keep_the_ledger()
    ensures local_steps { LocalStepsKeep }
{}

/// What the answer of every action leaves keeps it, with what went out to the place and what came in from there.
pub fn answers_keep_the_ledger()
    ensures answers { AnswersKeep }
{}
