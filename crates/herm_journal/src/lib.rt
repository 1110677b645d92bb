//! What is done at ports, reply cells and the book, and how it is recorded: actions and their answers, what places hold,
//! entries with their texts, and journals with stamps. The definitions stand in specs/; the function here is a law.
#![tactic(auto)]

ghost use Rattle.herm_journal.specs.laws.JournalLaws.{JournalsAreKnown};

/// A rising list of entries is known by its parts by process: there is at most one journal of the same diaries.
pub fn journals_are_known()
    ensures one { JournalsAreKnown }
{}
