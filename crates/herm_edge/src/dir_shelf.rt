// A shelf over the system's files.
ghost use Rattle.std.specs.Prelude.{◌≡◌, ◌≢◌, ℕ, ◌+◌, ◌<◌, ◌≤◌, Some, None, option_map, List, ◌++◌, length, take, vec_len, IfOk, OnOk, IfErr, IsOkAnd, IsErrAnd, IfSome};
ghost use Rattle.std.specs.Io.KnownBytes.{Consumes, IsAtEnd};
ghost use Rattle.std.specs.IoError.{error_kind};
ghost use Rattle.herm_edge.specs.Faults.{Rose};
ghost use Rattle.herm_edge.specs.Reader.{FailsToLoad};
ghost use Rattle.herm_edge.specs.Shelf.{file_at, faults_after, IfHere, OnMissing, OnFailed, UnlessFailed};
ghost use Rattle.herm_edge.specs.View.{loaded_view};

use crate::calls::next_count;
use crate::counted::Counted;
use crate::{Loaded, Shelf};
use std::alloc::Global;
use std::fs;
use std::io::{self, ErrorKind, Read};
use std::marker::Model;
use std::rt::Files;

/// A shelf over the system's files, by their names. It tells nothing of what they hold.
///
/// A clause sees its count of faults, which stays at its type's end. A directory, and any file
/// that cannot be read, is a fault; a file that is not there is not.
#[derive(Debug, Drop)]
pub struct DirShelf<'a, R> {
    rt: &'a R,
    faults: u64,
}

impl<'a, R> Model for DirShelf<'a, R> {
    ghost Value = { ℕ };

    ghost view = { λ s. s.faults };
}

impl<'a, R> DirShelf<'a, R> {
    /// A shelf over the files of this runtime, with no fault.
    pub fn new(rt: &'a R) -> DirShelf<'a, R>
        ensures { result ≡ 0 }
    {
        DirShelf { rt, faults: 0 }
    }
}

// Why reading stopped early.
#[derive(Clone, Copy)]
enum Stop {
    Fault,
    Memory,
}

// Reads some of the bytes that are left, up to the limit, and answers how many.
fn read_some<F: Read>(
    file: &mut Counted<F>,
    limit: usize,
    bytes: &mut Vec<u8>,
) -> Result<usize, Stop>
    requires { vec_len bytes.old < limit }
    ensures within { vec_len bytes.new ≤ limit }
    ensures grows { IfOk result (λ n. vec_len bytes.new ≡ vec_len bytes.old + n) }
    ensures read { OnOk result ((more : List ℕ) × (bytes.new.items ≡ bytes.old.items ++ more)
        × Consumes (F.remaining file.old.reader) (F.remaining file.new.reader) more) }
    ensures end { IfOk result (λ n. n ≡ 0 → IsAtEnd (F.remaining file.new.reader)) }
    ensures failed { IfErr result (λ stop. stop ≡ Stop.Fault → Rose file.old.faults file.new.faults) }
    ensures kept { OnOk result (file.new.faults ≡ file.old.faults) }
    ensures unread { IfErr result (λ stop. stop ≡ Stop.Memory → file.new.faults ≡ file.old.faults) }
{
    let mut part = [0u8; 4096];
    let room = part.len().min(limit - bytes.len());
    match file.read(&mut part[..room]) {
        Some(n) => match bytes.extend_from_slice(&part[..n]) {
            Ok(()) => Ok(n),
            Err(_) => Err(Stop::Memory),
        },
        None => Err(Stop::Fault),
    }
}

// The first bytes that a reader has left, up to the limit.
fn read_up_to<F: Read>(alloc: Global, file: &mut Counted<F>, limit: usize) -> Loaded
    ensures within { IfHere result (λ bytes. length bytes ≤ limit) }
    ensures start { IfHere result (λ bytes. IfSome (F.remaining file.old.reader) (λ all. bytes ≡ take limit all)) }
    ensures there { OnMissing result ⊥ }
    ensures failed { OnFailed result (Rose file.old.faults file.new.faults) }
    ensures kept { UnlessFailed result (file.new.faults ≡ file.old.faults) }
{
    let mut bytes = Vec::new(alloc);
    while bytes.len() < limit {
        match read_some(file, limit, &mut bytes) {
            Ok(0) => return Loaded::Here(bytes),
            Ok(_) => {}
            Err(Stop::Fault) => return Loaded::Failed,
            Err(Stop::Memory) => return Loaded::Memory,
        }
    }
    Loaded::Here(bytes)
}

// Loads a file that was opened, or says why it was not. It fails only where a read does, or where opening failed otherwise
// than by a name that is not there.
fn load_opened<F: Read>(alloc: Global, opened: &mut io::Result<Counted<F>>, limit: usize) -> Loaded
    ensures within { IfHere result (λ bytes. length bytes ≤ limit) }
    ensures start { IfHere result (λ bytes. IsOkAnd opened.old (λ file. IfSome (F.remaining file.reader) (λ all. bytes ≡ take limit all))) }
    ensures missing { OnMissing result (IsErrAnd opened.old (λ e. error_kind e ≡ ErrorKind.NotFound)) }
    ensures absent { IfErr opened.old (λ e. error_kind e ≡ ErrorKind.NotFound → result ≡ Loaded.Missing) }
    ensures unopened { IfErr opened.old (λ e. error_kind e ≢ ErrorKind.NotFound → result ≡ Loaded.Failed) }
    ensures failed { OnFailed result (FailsToLoad opened.old opened.new) }
{
    match opened {
        Ok(file) => read_up_to(alloc, file, limit),
        Err(e) if e.kind() == ErrorKind::NotFound => Loaded::Missing,
        Err(_) => Loaded::Failed,
    }
}

// Loads a file, and counts no fault.
fn load_file<R: Files + AllocGlobal>(rt: &R, name: &str, limit: usize) -> Loaded
    ensures { IfHere result (λ bytes. length bytes ≤ limit) }
{
    let mut opened = fs::open(rt, name).map(Counted::new);
    load_opened(rt.alloc(), &mut opened, limit)
}

impl<'a, R: Files + AllocGlobal> Shelf for DirShelf<'a, R> {
    ghost contents = { λ _. None };

    ghost faults = { λ s. s };

    ghost loads = { λ before load after. after ≡ faults_after load.answer before };

    fn load(&mut self, name: &str, limit: usize) -> Loaded
        ensures within { IfHere result (λ bytes. length bytes ≤ limit) }
        ensures here { IfHere result (λ bytes. IfSome None
            (λ files. option_map (take limit) (file_at files name.now) ≡ Some bytes)) }
        ensures missing { OnMissing result (IfSome None (λ files. file_at files name.now ≡ None)) }
        ensures failed { OnFailed result (Rose self.old self.new) }
        ensures kept { UnlessFailed result (self.new ≡ self.old) }
        ensures loaded { self.new ≡ faults_after (loaded_view result) self.old }
        ensures never_falls { self.old ≤ self.new }
    {
        let answer = load_file(self.rt, name, limit);
        if let Loaded::Failed = answer {
            self.faults = next_count(self.faults);
        }
        answer
    }
}
