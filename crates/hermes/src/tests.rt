//! The program over the system's files: its text and its status.
use super::{run, words};
use herm_edge::{DirShelf, WriteSink};
use std::alloc::{AllocError, Global};
use std::io::{self, Write};
use std::process::{Abort, ExitCode};
use std::rt::Files;
use std::test::Fail;
use std::{env, fs};

const GREETING: &str = "process main(start: main_start) {
  var m: main_message, s: string;
  receive m from start;
  s := \"hi\";
  send s to m.out;
}
";

const USAGE: &str = "usage: hermes check FILE.. | hermes run OPTIONS FILE.. | hermes make N\n";

/// The words of a command and a file's name.
fn words_of(alloc: Global, command: &str, name: &str) -> Result<Vec<String>, AllocError> {
    let mut words = Vec::new(alloc);
    words.push(String::from_str(alloc, command)?)?;
    words.push(String::from_str(alloc, name)?)?;
    Ok(words)
}

/// Runs the program over the system's files and a writer.
fn run_over<R: Files + AllocGlobal, W: Write + Drop>(
    rt: &R,
    words: Result<Vec<String>, AllocError>,
    writer: W,
) -> ExitCode {
    let mut shelf = DirShelf::new(rt);
    let mut sink = WriteSink::new(writer);
    run(rt.alloc(), words, &mut shelf, &mut sink)
}

/// Runs a command over a file, and compares the status and the text.
fn ends<R: Files + AllocGlobal + Abort>(
    rt: &R,
    command: &str,
    name: &str,
    status: u8,
    text: &str,
) -> Result<(), AllocError> {
    let mut written = Vec::new(rt.alloc());
    let code = run_over(rt, words_of(rt.alloc(), command, name), &mut written);
    assert!(rt; code == ExitCode::from(status), "status {status}");
    assert_eq!(rt; written.as_slice(), text.as_bytes(), "status {status}");
    Ok(())
}

// A name with a blank, a file that is refused, words that are not taken, a folder, and a file that is not there.
#[test]
fn the_program_ends_with_the_status_of_its_call(rt: HostRuntime) -> Result<(), Fail> {
    let alloc = rt.alloc();
    let folder = env::temp_dir(&rt)?;
    let folder = folder.to_string_lossy();
    let name = format!(in alloc; "{folder}/hermes a greeting.hm")?;
    let gone = format!(in alloc; "{folder}/hermes_gone.hm")?;
    fs::write(&rt, &name, GREETING.as_bytes())?;
    ends(&rt, "run", &name, 0, "hi\n")?;
    ends(&rt, "ran", &name, 2, USAGE)?;
    ends(&rt, "run", "--", 2, USAGE)?;
    let unread = format!(in alloc; "hermes: {folder}: read fault\n")?;
    ends(&rt, "run", folder, 3, &unread)?;
    let missing = format!(in alloc; "hermes: {gone}: not found\n")?;
    ends(&rt, "run", &gone, 10, &missing)?;
    fs::write(&rt, &name, b"process 00")?;
    let token = format!(in alloc; "{name}:1:9: F2 token\n")?;
    ends(&rt, "run", &name, 1, &token)?;
    fs::remove_file(&rt, &name)?;
    Ok(())
}

// A writer without room, and words that took too much memory.
#[test]
fn the_program_ends_with_a_fault_of_its_writer(rt: HostRuntime) -> Result<(), Fail> {
    let mut room = [0u8; 2];
    let code = run_over(&rt, words_of(rt.alloc(), "run", "--"), room.as_mut_slice());
    assert!(rt; code == ExitCode::from(4));
    assert_eq!(rt; room, *b"us");
    let code = run_over(&rt, Err(AllocError), room.as_mut_slice());
    assert!(rt; code == ExitCode::from(5));
    Ok(())
}

// The program's name is none of its words; of words that are no text there are none; want of memory is told.
#[test]
fn the_words_stand_behind_the_name(rt: HostRuntime) -> Result<(), Fail> {
    let alloc = rt.alloc();
    let all = words_of(alloc, "hermes", "check")?;
    let taken = words(alloc, Ok(all.into_iter()))?;
    assert!(rt; taken.len() == 1);
    assert_eq!(rt; taken[0].as_bytes(), b"check".as_slice());
    let none = words(alloc, Err(io::Error::from(io::ErrorKind::InvalidData)))?;
    assert!(rt; none.is_empty());
    let wanting = words(alloc, Err(io::Error::from(io::ErrorKind::OutOfMemory)));
    assert!(rt; wanting.is_err());
    Ok(())
}
