//! Laws of readers of lists of symbols. A reader is built of combinators, and each combinator keeps
//! the laws that tie a reader to a rule of a grammar, for any type of symbols. No function here does
//! any work: each states a law, which the check proves.
#![tactic(auto)]

ghost use Rattle.herm_readers.specs.BracketBalance.{FindsTooDeep, FindsWithin};
ghost use Rattle.herm_readers.specs.laws.ReaderLaws.{NothingIsRead, OneIsRead, ChangedIsRead, DependingIsRead, SequenceIsRead, LeadingIsRead, ClosingIsRead, ChoiceIsRead, ManyIsRead, ManyUnrolls, SeparatedIsRead, HasOneTree, HasFaultAt, HasNoTree};

/// The reader that reads nothing reads the empty spelling.
pub fn nothing_is_read<S>()
    ensures read { NothingIsRead S }
{}

/// A reader of one symbol reads the symbols that it has a value for.
pub fn one_is_read<S, A>()
    ensures read { OneIsRead S A }
{}

/// A reader whose values are changed reads a rule with the same spellings.
pub fn changed_is_read<S, A, B>()
    ensures read { ChangedIsRead S A B }
{}

/// One reader after the other, where the value of the first says which comes second.
pub fn depending_is_read<S, A, B>()
    ensures read { DependingIsRead S A B }
{}

/// One reader after the other reads the spellings of pairs.
pub fn sequence_is_read<S, A, B>()
    ensures read { SequenceIsRead S A B }
{}

/// A symbol, and then what a reader reads.
pub fn leading_is_read<S, A>()
    ensures read { LeadingIsRead S A }
{}

/// What a reader reads, and then a symbol.
pub fn closing_is_read<S, A>()
    ensures read { ClosingIsRead S A }
{}

/// A choice by the symbol ahead reads the spellings of both rules.
pub fn choice_is_read<S, A, B>()
    ensures read { ChoiceIsRead S A B }
{}

/// A list of items, each of which begins with a symbol that passes a test.
pub fn many_is_read<S, A>()
    ensures read { ManyIsRead S A }
    ensures unrolls { ManyUnrolls S A }
{}

/// A list of at least one item, with a separator between two.
pub fn separated_is_read<S, A>()
    ensures read { SeparatedIsRead S A }
{}

/// Where a reader reads a rule, a spelling has one tree.
pub fn has_one_tree<S, A>()
    ensures one { HasOneTree S A }
{}

/// Where a reader reads a rule, the symbols up to a fault's, with it, begin no tree, and where the
/// fault stands behind the last symbol, or anywhere, no tree has exactly these symbols.
pub fn has_fault_at<S, A>()
    ensures at { HasFaultAt S A }
    ensures none { HasNoTree S A }
{}

/// The fault of the bound on open brackets comes exactly where the openings less the closings of some
/// prefix reach the bound and one, at the end of the first such prefix.
pub fn finds_too_deep<S>()
    ensures deep { FindsTooDeep S }
    ensures within { FindsWithin S }
{}
