//! The lines of refusals, written piece by piece.
ghost use Rattle.std.specs.Prelude.{◌≡◌, ◌∷◌, ◌++◌, [], codes, decimal, get_or};
ghost use Rattle.herm_edge.specs.Buffered.{held_bytes, IsSound, IsPut};
ghost use Rattle.herm_words.specs.ToldWords.{trail_text, reason_words};
ghost use Rattle.herm_refusals.specs.RefusalLines.{place_text, refusal_text, refusals_text};

use crate::fault::Fault;
use herm_base::Word;
use herm_edge::{Sink, Unwritten, WriteBuffer, put};
use herm_words::{Paths, Reason};
use itoa::Buffer;

/// Puts a number in decimal.
fn put_number<S: Sink>(sink: &mut S, buffer: &mut WriteBuffer, number: u32) -> Result<(), Unwritten>
    requires sound { IsSound buffer.old }
    ensures sound { IsSound buffer.new }
    ensures put { IsPut (decimal number) (S.written sink.old) (S.written sink.new) (S.faults sink.old) (S.faults sink.new) (held_bytes buffer.old) (held_bytes buffer.new) result }
{
    let mut digits = Buffer::new();
    put(sink, buffer, digits.format(number).as_bytes())
}

/// The name of the file with this number, or nothing where there is none.
fn name_of(names: &[Word], number: usize) -> &[u8]
    ensures { result.now ≡ get_or names.now number [] }
{
    match names.get(number) {
        Some(name) => name.bytes(),
        None => b"",
    }
}

/// Puts a line and a column, each behind a colon.
fn put_spot<S: Sink>(sink: &mut S, buffer: &mut WriteBuffer, fault: &Fault) -> Result<(), Unwritten>
    requires sound { IsSound buffer.old }
    ensures sound { IsSound buffer.new }
    ensures put { IsPut (58 ∷ (decimal fault.now.line ++ (58 ∷ decimal fault.now.column))) (S.written sink.old) (S.written sink.new) (S.faults sink.old) (S.faults sink.new) (held_bytes buffer.old) (held_bytes buffer.new) result }
{
    put(sink, buffer, b":")?;
    put_number(sink, buffer, fault.line)?;
    put(sink, buffer, b":")?;
    put_number(sink, buffer, fault.column)
}

/// Puts the place of a refusal. A fault of no file is the program's.
fn put_place<S: Sink>(
    sink: &mut S,
    buffer: &mut WriteBuffer,
    names: &[Word],
    fault: &Fault,
) -> Result<(), Unwritten>
    requires sound { IsSound buffer.old }
    ensures sound { IsSound buffer.new }
    ensures put { IsPut (place_text names.now fault.now) (S.written sink.old) (S.written sink.new) (S.faults sink.old) (S.faults sink.new) (held_bytes buffer.old) (held_bytes buffer.new) result }
{
    if fault.line == 0 {
        return put(sink, buffer, b"hermes");
    }
    put(sink, buffer, name_of(names, fault.file as usize))?;
    put_spot(sink, buffer, fault)
}

/// Puts the text of the path to a place, stretch by stretch.
fn put_trail<S: Sink>(
    sink: &mut S,
    buffer: &mut WriteBuffer,
    paths: &Paths,
    place: usize,
) -> Result<(), Unwritten>
    requires sound { IsSound buffer.old }
    ensures sound { IsSound buffer.new }
    ensures put { IsPut (trail_text paths.now place) (S.written sink.old) (S.written sink.new) (S.faults sink.old) (S.faults sink.new) (held_bytes buffer.old) (held_bytes buffer.new) result }
{
    match paths.last_stretch(place) {
        (None, text) => put(sink, buffer, text),
        (Some(before), text) => {
            put_trail(sink, buffer, paths, before)?;
            put(sink, buffer, text)
        }
    }
}

/// Puts the words behind a code.
fn put_words<S: Sink>(
    sink: &mut S,
    buffer: &mut WriteBuffer,
    reason: &Reason,
) -> Result<(), Unwritten>
    requires sound { IsSound buffer.old }
    ensures sound { IsSound buffer.new }
    ensures put { IsPut (reason_words reason.now) (S.written sink.old) (S.written sink.new) (S.faults sink.old) (S.faults sink.new) (held_bytes buffer.old) (held_bytes buffer.new) result }
{
    match reason {
        Reason::Said(words) => put(sink, buffer, words.bytes()),
        Reason::Missing(missing) => {
            put(sink, buffer, missing.lost.head())?;
            put_trail(sink, buffer, &missing.paths, missing.place)
        }
    }
}

/// Puts a code in decimal.
fn put_code<S: Sink>(sink: &mut S, buffer: &mut WriteBuffer, code: u8) -> Result<(), Unwritten>
    requires sound { IsSound buffer.old }
    ensures sound { IsSound buffer.new }
    ensures put { IsPut (decimal code) (S.written sink.old) (S.written sink.new) (S.faults sink.old) (S.faults sink.new) (held_bytes buffer.old) (held_bytes buffer.new) result }
{
    let mut digits = Buffer::new();
    put(sink, buffer, digits.format(code).as_bytes())
}

/// Puts the rest of a refusal's line behind its place: its code and its words.
fn put_reason<S: Sink>(
    sink: &mut S,
    buffer: &mut WriteBuffer,
    fault: &Fault,
) -> Result<(), Unwritten>
    requires sound { IsSound buffer.old }
    ensures sound { IsSound buffer.new }
    ensures put { IsPut (codes ": F" ++ (decimal fault.now.code ++ (32 ∷ (reason_words fault.now.reason ++ (10 ∷ []))))) (S.written sink.old) (S.written sink.new) (S.faults sink.old) (S.faults sink.new) (held_bytes buffer.old) (held_bytes buffer.new) result }
{
    put(sink, buffer, b": F")?;
    put_code(sink, buffer, fault.code)?;
    put(sink, buffer, b" ")?;
    put_words(sink, buffer, &fault.reason)?;
    put(sink, buffer, b"\n")
}

/// Puts the line of a refusal.
fn put_refusal<S: Sink>(
    sink: &mut S,
    buffer: &mut WriteBuffer,
    names: &[Word],
    fault: &Fault,
) -> Result<(), Unwritten>
    requires sound { IsSound buffer.old }
    ensures sound { IsSound buffer.new }
    ensures put { IsPut (refusal_text names.now fault.now) (S.written sink.old) (S.written sink.new) (S.faults sink.old) (S.faults sink.new) (held_bytes buffer.old) (held_bytes buffer.new) result }
{
    put_place(sink, buffer, names, fault)?;
    put_reason(sink, buffer, fault)
}

/// Puts the lines of refusals, in order, with the files' names. It takes no memory.
///
/// # Errors
///
/// A write that failed: then some of the first bytes of all that were put were written, and not all.
pub fn put_refusals<S: Sink>(
    sink: &mut S,
    buffer: &mut WriteBuffer,
    names: &[Word],
    faults: &[Fault],
) -> Result<(), Unwritten>
    requires sound { IsSound buffer.old }
    ensures sound { IsSound buffer.new }
    ensures put { IsPut (refusals_text names.now faults.now) (S.written sink.old) (S.written sink.new) (S.faults sink.old) (S.faults sink.new) (held_bytes buffer.old) (held_bytes buffer.new) result }
{
    for fault in faults {
        put_refusal(sink, buffer, names, fault)?;
    }
    Ok(())
}
