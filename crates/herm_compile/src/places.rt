//! Lines and columns of a file.
ghost use Rattle.std.specs.Prelude.{◌≡◌, ◌<◌, ◌≤◌, ℕ, suc, List, length};
ghost use Rattle.herm_compile.specs.Places.{IsPlace, place_behind};

/// A place in a file: how many bytes stand before it, and its line and column, counted from 1.
#[derive(Clone, Copy)]
pub struct Place {
    pub offset: usize,
    pub line: u32,
    pub column: u32,
}

fn place_behind(place: Place, byte: u8) -> Place
    requires offset { place.offset < 1048576 }
    requires line { place.line ≤ suc place.offset }
    requires column { place.column ≤ suc place.offset }
    ensures { result ≡ place_behind place byte }
{
    let offset = place.offset + 1;
    if byte == b'\n' {
        return Place {
            offset,
            line: place.line + 1,
            column: 1,
        };
    }
    Place {
        offset,
        line: place.line,
        column: place.column + 1,
    }
}

/// The beginning of each file.
pub fn file_start() -> Place
    ensures place { (bytes : List ℕ) → IsPlace bytes result }
    ensures offset { result.offset ≡ 0 }
{
    Place {
        offset: 0,
        line: 1,
        column: 1,
    }
}

/// The place at this offset. It goes on from the last place where that lies before.
pub fn place_at(bytes: &[u8], last: Place, offset: usize) -> Place
    requires short { offset ≤ 1048576 }
    requires within { offset ≤ length bytes.now }
    requires last { IsPlace bytes.now last }
    ensures place { IsPlace bytes.now result }
    ensures offset { result.offset ≡ offset }
{
    if last.offset <= offset {
        return place_from(bytes, last, offset);
    }
    place_from(bytes, file_start(), offset)
}

fn place_from(bytes: &[u8], start: Place, offset: usize) -> Place
    requires short { offset ≤ 1048576 }
    requires within { offset ≤ length bytes.now }
    requires start { IsPlace bytes.now start }
    requires before { start.offset ≤ offset }
    ensures place { IsPlace bytes.now result }
    ensures offset { result.offset ≡ offset }
{
    let mut place = start;
    'bytes: while place.offset < offset {
        place = place_behind(place, bytes[place.offset]);
    }
    place
}
