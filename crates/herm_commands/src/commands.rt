//! The commands, and which of them the words ask for.
ghost use Rattle.std.specs.Prelude.{◌≡◌, map, option_and_then, string_bytes};
ghost use Rattle.clap.specs.Words.{found_of, rows_of, subcommand_rows_of};
ghost use Rattle.herm_commands.specs.Words.{Answers, asked, asked_by, check_asked, fault_by, make_asked, ring_asked, run_asked};

use crate::numbers::number_to;
use crate::options::options_of;
use crate::program::program;
use crate::subjects::{files_of, source_of};
use clap::ArgMatches;
use clap::error::ErrorKind;
use herm_base::Limits;
use std::alloc::{AllocError, Global};

/// What a run shows beside what it prints.
#[derive(Clone, Copy, Debug, PartialEq, Eq)]
pub enum Shows {
    Nothing,
    Summary,
    Journal,
}

/// What is run: the files of these names, or the ring of so many nodes.
#[derive(Drop)]
pub enum Source<'a> {
    Files(Vec<&'a str>),
    Ring(u32),
}

/// The options of a run, each with its default where it was not given.
#[derive(Drop)]
pub struct RunOptions<'a> {
    pub limits: Limits,
    pub arg: &'a str,
    pub shows: Shows,
}

/// What the words ask for.
#[derive(Drop)]
pub enum Command<'a> {
    Check {
        files: Vec<&'a str>,
    },
    Run {
        options: RunOptions<'a>,
        what: Source<'a>,
    },
    Make(u32),
}

/// The words are refused, or memory is wanting.
#[derive(Clone, Copy, Debug, PartialEq, Eq)]
pub enum WordsFault {
    Refused,
    Memory,
}

impl From<AllocError> for WordsFault {
    ghost use Rattle.herm_commands.specs.declared.commands.WordsFault.TheVariants.{Memory};
    ghost use Rattle.std.specs.Prelude.{◌≡◌};

    ghost from_gives = { λ _ fault. fault ≡ Memory };

    fn from(_: AllocError) -> WordsFault {
        WordsFault::Memory
    }
}

/// The command that the words after the program's name ask for. They are refused exactly where they ask for none.
pub fn command_of<'a>(alloc: Global, words: &'a [String]) -> Result<Command<'a>, WordsFault>
    ensures answers { Answers (asked (map string_bytes words.now)) result }
{
    let program = program(alloc)?;
    match program.try_get_matches_from(words) {
        Ok(matches) => command_met(alloc, &matches),
        Err(error) => Err(fault_by(error.kind())),
    }
}

// The fault of words of which the parse failed.
fn fault_by(kind: ErrorKind) -> WordsFault
    ensures fault { result ≡ fault_by kind }
{
    match kind {
        ErrorKind::OutOfMemory => WordsFault::Memory,
        _ => WordsFault::Refused,
    }
}

// The command that the parse met.
fn command_met<'a>(alloc: Global, matches: &ArgMatches<'a>) -> Result<Command<'a>, WordsFault>
    ensures met { Answers (option_and_then asked_by (subcommand_rows_of matches.now)) result }
{
    match matches.subcommand() {
        Some((name, found)) => command_by(alloc, name, found),
        None => Err(WordsFault::Refused),
    }
}

// The command of this name, of the matches of its own arguments.
fn command_by<'a>(
    alloc: Global,
    name: &str,
    found: &ArgMatches<'a>,
) -> Result<Command<'a>, WordsFault>
    ensures answers { Answers (asked_by (name.now, rows_of (found_of found.now))) result }
{
    match name {
        "check" => check_of(alloc, found),
        "run" => run_of(alloc, found),
        "make" => make_of(found),
        _ => Err(WordsFault::Refused),
    }
}

fn check_of<'a>(alloc: Global, found: &ArgMatches<'a>) -> Result<Command<'a>, WordsFault>
    ensures answers { Answers (check_asked (rows_of (found_of found.now))) result }
{
    let files = files_of(alloc, found)?;
    Ok(Command::Check { files })
}

fn run_of<'a>(alloc: Global, found: &ArgMatches<'a>) -> Result<Command<'a>, WordsFault>
    ensures answers { Answers (run_asked (rows_of (found_of found.now))) result }
{
    let options = match options_of(found) {
        Some(options) => options,
        None => return Err(WordsFault::Refused),
    };
    let what = source_of(alloc, found)?;
    Ok(Command::Run { options, what })
}

fn make_of<'a>(found: &ArgMatches<'a>) -> Result<Command<'a>, WordsFault>
    ensures answers { Answers (make_asked (rows_of (found_of found.now))) result }
{
    match found.get_str("nodes") {
        Some(nodes) => ring_of(nodes),
        None => Err(WordsFault::Refused),
    }
}

// `make` of so many nodes.
fn ring_of<'a>(nodes: &str) -> Result<Command<'a>, WordsFault>
    ensures answers { Answers (ring_asked nodes.now) result }
{
    match number_to(1000, nodes) {
        Some(nodes) => Ok(Command::Make(nodes)),
        None => Err(WordsFault::Refused),
    }
}
