//! The files, and what is run.
ghost use Rattle.std.specs.Prelude.{◌≡◌, IfOk, List, None, Some, codes, map, ℕ};
ghost use Rattle.std.specs.List.{list_any};
ghost use Rattle.std.specs.Str.{bytes_eq};
ghost use Rattle.clap.specs.Walk.{is_empty};
ghost use Rattle.clap.specs.Words.{first_of, found_of, rows_of};
ghost use Rattle.herm_commands.specs.Words.{AnswersFiles, AnswersSource, has_twin};
ghost use Rattle.herm_commands.specs.Words.{files_of as wanted_files};

use crate::commands::{Source, WordsFault};
use crate::numbers::number_to;
use clap::ArgMatches;
use std::alloc::{AllocError, Global};

// The files, in the order of the words.
pub(crate) fn files_of<'a>(
    alloc: Global,
    matches: &ArgMatches<'a>,
) -> Result<Vec<&'a str>, WordsFault>
    ensures files { AnswersFiles (wanted_files (rows_of (found_of matches.now))) result }
{
    let words = words_of(alloc, matches)?;
    accepted(words)
}

// What is run: the files, or the ring.
pub(crate) fn source_of<'a>(
    alloc: Global,
    matches: &ArgMatches<'a>,
) -> Result<Source<'a>, WordsFault>
    ensures source { AnswersSource (first_of (codes "make") (rows_of (found_of matches.now))) (wanted_files (rows_of (found_of matches.now))) result }
{
    match matches.get_str("make") {
        Some(nodes) => ring_of(has_no_file(matches), nodes),
        None => files_alone(alloc, matches),
    }
}

// The files, of which there is one or more.
fn files_alone<'a>(alloc: Global, matches: &ArgMatches<'a>) -> Result<Source<'a>, WordsFault>
    ensures files { AnswersSource None (wanted_files (rows_of (found_of matches.now))) result }
{
    if has_no_file(matches) {
        return Err(WordsFault::Refused);
    }
    let files = files_of(alloc, matches)?;
    Ok(Source::Files(files))
}

fn has_no_file(matches: &ArgMatches<'_>) -> bool
    ensures none { result ≡ is_empty (wanted_files (rows_of (found_of matches.now))) }
{
    match matches.get_strs("file") {
        Some(files) => files.is_empty(),
        None => true,
    }
}

// The ring of so many nodes, beside which no file is named.
fn ring_of<'a>(is_alone: bool, nodes: &str) -> Result<Source<'a>, WordsFault>
    ensures ring { (words : List (List ℕ)) → is_alone ≡ is_empty words → AnswersSource (Some nodes.now) words result }
{
    if !is_alone {
        return Err(WordsFault::Refused);
    }
    match number_to(1000, nodes) {
        Some(nodes) => Ok(Source::Ring(nodes)),
        None => Err(WordsFault::Refused),
    }
}

// The words that are files.
fn words_of<'a>(alloc: Global, matches: &ArgMatches<'a>) -> Result<Vec<&'a str>, AllocError>
    ensures words { IfOk result (λ words. map (λ w. w.now) words.items ≡ wanted_files (rows_of (found_of matches.now))) }
{
    let mut words = Vec::new(alloc);
    match matches.get_strs("file") {
        Some(found) => {
            words.extend_from_slice(found)?;
            Ok(words)
        }
        None => Ok(words),
    }
}

// The same files, where they are few enough and none is named twice.
fn accepted<'a>(words: Vec<&'a str>) -> Result<Vec<&'a str>, WordsFault>
    ensures accepted { AnswersFiles (map (λ w. w.now) words.entry.items) result }
{
    if words.len() <= 64 && !has_twin(words.as_slice()) {
        Ok(words)
    } else {
        Err(WordsFault::Refused)
    }
}

// Whether some word stands twice.
fn has_twin(words: &[&str]) -> bool
    ensures twin { result ≡ has_twin (map (λ w. w.now) words.now) }
{
    let Some((first, rest)) = words.split_first() else {
        return false;
    };
    is_among(rest, first) || has_twin(rest)
}

fn is_among(words: &[&str], word: &str) -> bool
    ensures among { result ≡ list_any (λ other. bytes_eq other word.now) (map (λ w. w.now) words.now) }
{
    is_one_of(words, word)
}

fn is_one_of(words: &[&str], word: &str) -> bool
    ensures among { result ≡ list_any (λ other. bytes_eq other.now word.now) words.now }
{
    words.iter().any(|other| *other == word)
}
