//! Faults at places of modules, in the file of each module.
ghost use Rattle.std.specs.Prelude.{◌≡◌, ◌≤◌, ℕ, List, [], map, length, get_or};
ghost use Rattle.herm_compile.specs.Places.{IsPlace, line_number_at, column_at};
ghost use Rattle.herm_compile.specs.View.{fault_view};
ghost use Rattle.herm_compile.specs.Spots.{AreShort, IsCursor, IsLocation, bytes_of, spot_fault};

use crate::places::{Place, file_start, place_at};
use herm_base::Word;
use herm_refusals::Fault;
use herm_words::Reason;

/// A code at a place in bytes of the file of a module. Modules count from 0 over all files.
#[derive(Clone, Copy)]
pub struct Spot {
    pub block: usize,
    pub start: u32,
    pub code: u8,
}

/// The place that was looked up last, and the number of its file. Lines are counted on from it, so that places in the order of
/// the text cost one pass over each file.
#[derive(Clone, Copy)]
pub struct Cursor {
    pub file: u32,
    pub place: Place,
}

/// The beginning of the first file.
pub fn first_cursor() -> Cursor
    ensures { (files : List (List ℕ)) → IsCursor files result }
{
    Cursor {
        file: 0,
        place: file_start(),
    }
}

fn owner_of(owners: &[u32], block: usize) -> u32
    ensures { result ≡ get_or owners.now block 0 }
{
    match owners.get(block) {
        Some(number) => *number,
        None => 0,
    }
}

fn bytes_of(files: &[(Word, Vec<u8>)], number: u32) -> &[u8]
    ensures { result.now ≡ get_or (map (λ file. file.1.items) files.now) number [] }
{
    match files.get(number as usize) {
        Some(file) => file.1.as_slice(),
        None => &[],
    }
}

/// The last place where it is in this file, and else the beginning of the file.
fn last_in(cursor: Cursor, file: u32) -> Place
    ensures { (files : List (List ℕ)) → IsCursor files cursor → IsPlace (bytes_of files file) result }
{
    if cursor.file == file {
        return cursor.place;
    }
    file_start()
}

fn place_in(bytes: &[u8], last: Place, start: u32) -> Place
    requires short { length bytes.now ≤ 1048576 }
    requires last { IsPlace bytes.now last }
    ensures place { IsPlace bytes.now result }
    ensures line { result.line ≡ line_number_at bytes.now start }
    ensures column { result.column ≡ column_at bytes.now start }
{
    place_at(bytes, last, (start as usize).min(bytes.len()))
}

/// A place in a file. Files count from 0, lines and columns from 1.
#[derive(Clone, Copy)]
pub struct Location {
    pub file: u32,
    pub line: u32,
    pub column: u32,
}

/// The place of a byte in the file of a module.
pub fn locate(
    files: &[(Word, Vec<u8>)],
    owners: &[u32],
    cursor: &mut Cursor,
    block: usize,
    start: u32,
) -> Location
    requires short { AreShort (map (λ file. file.1.items) files.now) }
    requires cursor { IsCursor (map (λ file. file.1.items) files.now) cursor.old }
    ensures cursor { IsCursor (map (λ file. file.1.items) files.now) cursor.new }
    ensures location { IsLocation (map (λ file. file.1.items) files.now) owners.now block start result }
{
    let file = owner_of(owners, block);
    let place = place_in(bytes_of(files, file), last_in(*cursor, file), start);
    *cursor = Cursor { file, place };
    Location {
        file,
        line: place.line,
        column: place.column,
    }
}

/// The fault at its line and column in the file of its module.
pub fn spot_fault(
    files: &[(Word, Vec<u8>)],
    owners: &[u32],
    cursor: &mut Cursor,
    spot: Spot,
    words: Word,
) -> Fault
    requires short { AreShort (map (λ file. file.1.items) files.now) }
    requires cursor { IsCursor (map (λ file. file.1.items) files.now) cursor.old }
    ensures cursor { IsCursor (map (λ file. file.1.items) files.now) cursor.new }
    ensures fault { fault_view result ≡ spot_fault (map (λ file. file.1.items) files.now) owners.now spot.block spot.start spot.code words }
{
    let at = locate(files, owners, cursor, spot.block, spot.start);
    Fault {
        file: at.file,
        line: at.line,
        column: at.column,
        code: spot.code,
        reason: Reason::Said(words),
    }
}
