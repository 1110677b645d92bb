//! The program `hermes`: reads files by their names, writes to standard output, and ends with the call's status.
#![tactic(auto)]

ghost use Rattle.std.specs.Prelude.{◌≡◌, ◌≢◌, IfOk, OnOk, IfErr, OnErr, map, string_bytes};
ghost use Rattle.std.specs.IoError.{error_kind};
ghost use Rattle.std.specs.Process.{exit_status};
ghost use Rattle.herm_commands.specs.Words.{asked};
ghost use Rattle.herm_driver.specs.Due.{EndsWith};
ghost use Rattle.herm_driver.specs.Loads.{FirstAreLoaded};
ghost use Rattle.herm_driver.specs.Words.{names_of, work_of};
ghost use Rattle.hermes.specs.Words.{behind_name};

use herm_driver::hermes;
use herm_edge::{DirShelf, FreeGate, Gate, Shelf, Sink, WriteSink};
use std::alloc::{AllocError, Global};
use std::env::{self, Args};
use std::io::{self, ErrorKind};
use std::process::ExitCode;

/// The words after the program's name, of all that the system has. Words that are not text are none that the program takes: any error but want of memory gives none.
fn words(alloc: Global, all: io::Result<Args>) -> Result<Vec<String>, AllocError>
    ensures words { IfOk result (λ words. words.items ≡ behind_name all) }
    ensures memory { IfErr all (λ error. error_kind error ≡ ErrorKind.OutOfMemory → OnOk result ⊥) }
    ensures refused { IfErr all (λ error. error_kind error ≢ ErrorKind.OutOfMemory → OnErr result ⊥) }
{
    match all {
        Ok(all) => all.skip(1).collect(alloc),
        Err(error) if error.kind() == ErrorKind::OutOfMemory => Err(AllocError),
        Err(_) => Ok(Vec::new(alloc)),
    }
}

/// Calls the program with these words, over any outside, and ends with the status of the call.
fn call<F: Shelf, S: Sink, G: Gate + Sync>(
    alloc: Global,
    words: &[String],
    shelf: &mut F,
    sink: &mut S,
    gate: &G,
) -> ExitCode
    ensures answered { EndsWith F.loads F.faults (F.contents shelf.old) shelf.old shelf.new (map string_bytes words.now)
        (S.faults sink.old) (S.faults sink.new) (S.written sink.old) (S.written sink.new) (exit_status result) }
    ensures asked { exit_status result ≡ 5 → FirstAreLoaded F.loads (names_of (work_of (asked (map string_bytes words.now)))) shelf.old shelf.new }
    ensures memory { exit_status result ≡ 5 → sink.new ≡ sink.old }
{
    let outcome = hermes(alloc, words, shelf, sink, gate);
    ExitCode::from(outcome.into_status())
}

/// Calls the program with these words, or ends with status 5, and leaves all as it was, where they took too much memory.
fn run<F: Shelf, S: Sink>(
    alloc: Global,
    words: Result<Vec<String>, AllocError>,
    shelf: &mut F,
    sink: &mut S,
) -> ExitCode
    ensures memory { OnErr words ((exit_status result ≡ 5) × (shelf.new ≡ shelf.old) × (sink.new ≡ sink.old)) }
    ensures ends { IfOk words (λ words. EndsWith F.loads F.faults (F.contents shelf.old) shelf.old shelf.new (map string_bytes words.items)
        (S.faults sink.old) (S.faults sink.new) (S.written sink.old) (S.written sink.new) (exit_status result)) }
    ensures asked { IfOk words (λ words. exit_status result ≡ 5 → FirstAreLoaded F.loads (names_of (work_of (asked (map string_bytes words.items)))) shelf.old shelf.new) }
    ensures unwritten { exit_status result ≡ 5 → sink.new ≡ sink.old }
{
    let words = match words {
        Ok(words) => words,
        Err(_) => return ExitCode::from(5),
    };
    call(alloc, &words, shelf, sink, &FreeGate)
}

fn main(rt: HostRuntime) -> ExitCode {
    let mut shelf = DirShelf::new(&rt);
    let mut sink = WriteSink::new(io::writer(&rt));
    run(
        rt.alloc(),
        words(rt.alloc(), env::args(&rt)),
        &mut shelf,
        &mut sink,
    )
}

#[cfg(test)]
mod tests;
