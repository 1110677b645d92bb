//! What the command is, and what some lists of words ask for, computed.
ghost use Rattle.std.specs.Prelude.{◌≡◌, true};
ghost use Rattle.clap.specs.Words.{is_simple, is_simple_and_free};
ghost use Rattle.herm_commands.specs.Examples.{Examples};
ghost use Rattle.herm_commands.specs.Program.{program};
ghost use Rattle.herm_commands.specs.Within.{AreWithin};

/// The command as which the words are read is simple, and no argument of it has a rule on another: so clap's definitions say each of its matches
/// and each of its refusals.
pub fn command_is_simple()
    ensures simple { is_simple program ≡ true }
    ensures free { is_simple_and_free program ≡ true }
{}

/// Lists of words that show each rule ask for what is written beside them, or are refused.
pub fn examples()
    ensures examples { Examples }
{}

/// Whatever words ask for is within its bounds: each number, the text for the main process, and the files, of which there are 1 to 64, all
/// different.
pub fn asked_is_within()
    ensures within { AreWithin }
{}
