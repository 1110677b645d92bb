//! Laws of the grammar. No function here does any work: each states a law, which the check proves.
ghost use Rattle.herm_syntax.specs.examples.ExampleTrees.{Expressions, Plain, Compound, Files, Fitting, Words};
ghost use Rattle.herm_syntax.specs.examples.ExampleItems.{Items};
ghost use Rattle.herm_syntax.specs.laws.GrammarLaws.{ExpressionsAreRead, StatementsAreRead, FilesAreRead, FileIsFound, FileIsAgain, FaultBegins, FaultBeginsSource, FaultIsFirst, FaultHasNoFile, HasOneFile, HasOneProgram};

/// The readers of expressions read the rules of expressions, all seven levels, however deep they
/// stand in one another: what is read is spelled so, what is spelled so is read, and a fault stands
/// where it belongs.
pub fn expressions_are_read()
    ensures read { ExpressionsAreRead }
{}

/// The readers of statements read the rules of statements.
pub fn statements_are_read()
    ensures read { StatementsAreRead }
{}

/// The readers of files read the rules of files.
pub fn files_are_read()
    ensures read { FilesAreRead }
{}

/// With room for some number of open brackets: what is read is a file with exactly these symbols, and
/// every file whose symbols have room is read.
pub fn files_within_room_are_read()
    ensures found { FileIsFound }
    ensures again { FileIsAgain }
{}

/// The place of a fault, where the symbols have room: the symbols before it begin a file, those up to
/// it, with it, begin none, and no file has exactly these symbols. Where the symbols are ones that tokens
/// of a source file can be, those before the fault begin a file that has such symbols alone.
pub fn faults_have_their_place()
    ensures begins { FaultBegins }
    ensures source { FaultBeginsSource }
    ensures first { FaultIsFirst }
    ensures none { FaultHasNoFile }
{}

/// Two lists of modules that the grammar can spell, with the same symbols, have one tree.
pub fn has_one_file()
    ensures one { HasOneFile }
{}

/// Two lists of modules with the same symbols, both of which the grammar can spell and in both of
/// which the statements are numbered in the order of the text, are equal but for their spans.
pub fn has_one_program()
    ensures one { HasOneProgram }
{}

/// Computed examples: expressions, statements, definitions and modules beside their symbols.
pub fn examples_are_spelled()
    ensures expressions { Expressions }
    ensures plain { Plain }
    ensures compound { Compound }
    ensures items { Items }
    ensures files { Files }
    ensures fitting { Fitting }
    ensures words { Words }
{}
