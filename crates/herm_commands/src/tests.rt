//! What lists of words ask for.
mod table;

use crate::{Command, RunOptions, Shows, Source, WordsFault, command_of};
use std::alloc::{AllocError, Global};
use std::test::Fail;
use table::TABLE;

fn push_files(out: &mut String, files: &[&str]) -> Result<(), AllocError> {
    for file in files {
        out.push_str(" ")?;
        out.push_str(file)?;
    }
    Ok(())
}

fn push_number(
    alloc: Global,
    out: &mut String,
    name: &str,
    number: u64,
    default: u64,
) -> Result<(), AllocError> {
    if number != default {
        let text = format!(in alloc; " {name}={number}")?;
        out.push_str(text.as_str())?;
    }
    Ok(())
}

// The options that are not the default.
fn push_options(
    alloc: Global,
    out: &mut String,
    options: &RunOptions<'_>,
) -> Result<(), AllocError> {
    push_number(alloc, out, "processes", options.limits.processes(), 64)?;
    push_number(alloc, out, "ports", options.limits.ports(), 1024)?;
    push_number(alloc, out, "steps", options.limits.steps(), 100_000)?;
    push_number(alloc, out, "workers", options.limits.workers(), 1)?;
    if !options.arg.is_empty() {
        out.push_str(" arg=[")?;
        out.push_str(options.arg)?;
        out.push_str("]")?;
    }
    match options.shows {
        Shows::Nothing => Ok(()),
        Shows::Summary => out.push_str(" summary"),
        Shows::Journal => out.push_str(" journal"),
    }
}

fn shown(alloc: Global, command: &Command<'_>) -> Result<String, AllocError> {
    let mut out = String::new(alloc);
    match command {
        Command::Check { files } => {
            out.push_str("check")?;
            push_files(&mut out, files.as_slice())?;
        }
        Command::Run { options, what } => match what {
            Source::Files(files) => {
                out.push_str("run")?;
                push_options(alloc, &mut out, options)?;
                push_files(&mut out, files.as_slice())?;
            }
            Source::Ring(nodes) => {
                let text = format!(in alloc; " {nodes}")?;
                out.push_str("ring")?;
                push_options(alloc, &mut out, options)?;
                out.push_str(text.as_str())?;
            }
        },
        Command::Make(nodes) => {
            let text = format!(in alloc; "make {nodes}")?;
            out.push_str(text.as_str())?;
        }
    }
    Ok(out)
}

// What the words ask for, as text.
fn answer(alloc: Global, words: &[String]) -> Result<String, AllocError> {
    match command_of(alloc, words) {
        Ok(command) => shown(alloc, &command),
        Err(WordsFault::Refused) => String::from_str(alloc, "refused"),
        Err(WordsFault::Memory) => String::from_str(alloc, "memory"),
    }
}

// The words of a text, with one space between two of them.
fn words_of(alloc: Global, text: &str) -> Result<Vec<String>, AllocError> {
    let mut words = Vec::new(alloc);
    for word in text.split(' ') {
        words.push(String::from_str(alloc, word)?)?;
    }
    Ok(words)
}

#[test]
fn words_ask_for_what_the_table_says(rt: HostRuntime) -> Result<(), Fail> {
    let alloc = rt.alloc();
    let mut count: u32 = 0;
    for line in TABLE.lines() {
        let Some((text, due)) = line.split_once(" => ") else {
            break;
        };
        let words = words_of(alloc, text)?;
        let found = answer(alloc, words.as_slice())?;
        assert_eq!(rt; found.as_str(), due, "{text}");
        count = count.saturating_add(1);
    }
    assert_eq!(rt; count, 345);
    let none = Vec::new(alloc);
    let found = answer(alloc, none.as_slice())?;
    assert_eq!(rt; found.as_str(), "refused");
    Ok(())
}

// What `command` of so many files answers, and the text that is due where it takes them.
fn with_files(alloc: Global, command: &str, count: u32) -> Result<(String, String), AllocError> {
    let mut words = Vec::new(alloc);
    words.push(String::from_str(alloc, command)?)?;
    let mut due = String::from_str(alloc, command)?;
    for i in 0..count {
        let name = format!(in alloc; "{i}.hm")?;
        due.push_str(" ")?;
        due.push_str(name.as_str())?;
        words.push(name)?;
    }
    Ok((answer(alloc, words.as_slice())?, due))
}

#[test]
fn files_are_64_at_most(rt: HostRuntime) -> Result<(), Fail> {
    let alloc = rt.alloc();
    for command in ["check", "run"] {
        let (found, due) = with_files(alloc, command, 64)?;
        assert_eq!(rt; found.as_str(), due.as_str());
        let (found, _) = with_files(alloc, command, 65)?;
        assert_eq!(rt; found.as_str(), "refused");
    }
    Ok(())
}

// What `run a.hm` with this text answers.
fn with_arg(alloc: Global, arg: &str) -> Result<String, AllocError> {
    let mut words = words_of(alloc, "run a.hm --arg")?;
    words.push(String::from_str(alloc, arg)?)?;
    answer(alloc, words.as_slice())
}

#[test]
fn texts_for_the_main_process_are_short_and_printable(rt: HostRuntime) -> Result<(), Fail> {
    let alloc = rt.alloc();
    for (arg, due) in [
        ("two words", "run arg=[two words] a.hm"),
        ("\n", "run arg=[\n] a.hm"),
        ("a\nb ~", "run arg=[a\nb ~] a.hm"),
        ("\t", "refused"),
        ("a\u{7f}", "refused"),
        ("\u{1f}a", "refused"),
        ("\r\n", "refused"),
        ("\0", "refused"),
        ("\u{b}", "refused"),
        ("\u{80}", "refused"),
    ] {
        let found = with_arg(alloc, arg)?;
        assert_eq!(rt; found.as_str(), due);
    }
    let mut long = String::new(alloc);
    for _ in 0..4096_u32 {
        long.push_str("x")?;
    }
    let found = with_arg(alloc, long.as_str())?;
    assert_eq!(rt; found.len(), 4096 + 15);
    long.push_str("x")?;
    let found = with_arg(alloc, long.as_str())?;
    assert_eq!(rt; found.as_str(), "refused");
    Ok(())
}
