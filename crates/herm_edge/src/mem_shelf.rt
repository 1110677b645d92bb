// A shelf in memory.
ghost use Rattle.std.specs.Prelude.{◌≡◌, ◌≤◌, Some, None, map, length, take, option_map, IfSome, MatchOption, IsTrue, IsFalse};
ghost use Rattle.herm_edge.specs.declared.shelf.Loaded.TheVariants.{Failed};
ghost use Rattle.herm_edge.specs.Faults.{Rose, is_next_failing};
ghost use Rattle.herm_edge.specs.Shelf.{file_at, IfHere, OnMissing, OnFailed, UnlessFailed};
ghost use Rattle.herm_edge.specs.MemShelf.{ShelfState, file_of, after_load, AnswersFiles};

use crate::calls::{begin_call, next_count};
use crate::{Loaded, Shelf};
use std::marker::Model;

/// A shelf in memory, whose calls fail at will. It tells its files.
///
/// A clause sees its files, the numbers of the calls that fail, and how many calls and faults
/// there were. Each of the two counts stays at its type's end.
#[derive(Debug, Drop)]
pub struct MemShelf {
    files: Vec<(String, Vec<u8>)>,
    failing: Vec<u64>,
    calls: u64,
    faults: u64,
}

impl Model for MemShelf {
    ghost Value = { ShelfState };

    ghost view = { λ s. record { files = map file_of s.files.items; failing = s.failing.items; calls = s.calls; faults = s.faults } };
}

impl MemShelf {
    /// A shelf with these files, each a name and its bytes. `failing` has the numbers, from 1 on,
    /// of the calls that fail. Where a name comes twice, its first file counts.
    pub fn new(files: Vec<(String, Vec<u8>)>, failing: Vec<u64>) -> MemShelf
        ensures files { result.files ≡ map file_of files.items }
        ensures failing { result.failing ≡ failing.items }
        ensures calls { result.calls ≡ 0 }
        ensures faults { result.faults ≡ 0 }
    {
        MemShelf {
            files,
            failing,
            calls: 0,
            faults: 0,
        }
    }
}

// The bytes of the first file with this name.
fn bytes_at<'a>(files: &'a [(String, Vec<u8>)], name: &str) -> Option<&'a [u8]>
    ensures { MatchOption result (file_at (map file_of files.now) name.now ≡ None)
        (λ bytes. file_at (map file_of files.now) name.now ≡ Some bytes.now) }
{
    for file in files {
        if file.0.as_str() == name {
            return Some(file.1.as_slice());
        }
    }
    None
}

// What these files say of a name.
fn loaded_from(files: &Vec<(String, Vec<u8>)>, name: &str, limit: usize) -> Loaded
    ensures { AnswersFiles (map file_of files.now.items) name.now limit result }
{
    let bytes = match bytes_at(files, name) {
        Some(bytes) => bytes,
        None => return Loaded::Missing,
    };
    match bytes[..bytes.len().min(limit)].to_vec(*files.allocator()) {
        Ok(copy) => Loaded::Here(copy),
        Err(_) => Loaded::Memory,
    }
}

impl Shelf for MemShelf {
    ghost contents = { λ s. Some s.files };

    ghost faults = { λ s. s.faults };

    ghost loads = { λ before load after. after ≡ after_load before };

    fn load(&mut self, name: &str, limit: usize) -> Loaded
        ensures fails { IsTrue (is_next_failing self.old.failing self.old.calls) → result ≡ Failed }
        ensures answer { IsFalse (is_next_failing self.old.failing self.old.calls) → AnswersFiles self.old.files name.now limit result }
        ensures within { IfHere result (λ bytes. length bytes ≤ limit) }
        ensures here { IfHere result (λ bytes. IfSome (Some self.old.files)
            (λ files. option_map (take limit) (file_at files name.now) ≡ Some bytes)) }
        ensures missing { OnMissing result (IfSome (Some self.old.files)
            (λ files. file_at files name.now ≡ None)) }
        ensures failed { OnFailed result (Rose self.old.faults self.new.faults) }
        ensures kept { UnlessFailed result (self.new.faults ≡ self.old.faults) }
        ensures never_falls { self.old.faults ≤ self.new.faults }
        ensures loaded { self.new ≡ after_load self.old }
        ensures same { Some self.new.files ≡ Some self.old.files }
    {
        if begin_call(&self.failing, &mut self.calls) {
            self.faults = next_count(self.faults);
            return Loaded::Failed;
        }
        loaded_from(&self.files, name, limit)
    }
}
