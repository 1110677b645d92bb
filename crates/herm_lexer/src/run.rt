//! Runs of bytes that are read together: of a name, of digits, of a line, or inside a string.
ghost use Rattle.std.specs.Prelude.{◌≡◌, ◌≤◌, false, length};
ghost use Rattle.herm_lexer.specs.Runs.{goes_on, escapes, run_length};

use crate::bytes::{is_line_byte, is_name_byte};

/// What a run is of.
#[derive(Clone, Copy)]
pub enum Run {
    Name,
    Digits,
    Line,
    Inside,
}

/// How many bytes from the front on belong to the run.
pub fn run_length(run: Run, bytes: &[u8]) -> usize
    ensures exact { result ≡ run_length run false bytes.now }
    ensures within { result ≤ length bytes.now }
{
    let mut escaped = false;
    for (i, b) in bytes.iter().enumerate() {
        if !goes_on(run, escaped, *b) {
            return i;
        }
        escaped = escapes(run, escaped, *b);
    }
    bytes.len()
}

fn goes_on(run: Run, escaped: bool, b: u8) -> bool
    ensures { result ≡ goes_on run escaped b }
{
    match run {
        Run::Name => is_name_byte(b),
        Run::Digits => b.is_ascii_digit(),
        Run::Line => is_line_byte(b),
        Run::Inside => is_line_byte(b) && (escaped || b != b'"'),
    }
}

fn escapes(run: Run, escaped: bool, b: u8) -> bool
    ensures { result ≡ escapes run escaped b }
{
    match run {
        Run::Name | Run::Digits | Run::Line => false,
        Run::Inside => b == b'\\' && !escaped,
    }
}
