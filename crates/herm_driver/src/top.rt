//! The program's top call.
ghost use Rattle.std.specs.Prelude.{◌≡◌, ◌≢◌, ◌≤◌, ◌⊎◌, IfSome, None, map, string_bytes};
ghost use Rattle.herm_edge.specs.Faults.{Rose};
ghost use Rattle.herm_commands.specs.Words.{asked};
ghost use Rattle.herm_driver.specs.Loads.{FirstAreLoaded};
ghost use Rattle.herm_driver.specs.Due.{IsAnswered, IsDue, IsChosen, IsWritten, IsUnwritten};
ghost use Rattle.herm_driver.specs.Words.{names_of, work_of};
ghost use Rattle.herm_driver.specs.Texts.{usage_text, text_view};
ghost use Rattle.herm_edge.specs.Buffered.{IsFlushed};
ghost use Rattle.herm_refusals.specs.RefusalLines.{refusals_text};

use crate::Outcome;
use crate::answer::answer_to;
use crate::outcome::{Answer, Text};
use herm_base::Word;
use herm_edge::{Gate, Shelf, Sink, Unwritten, WriteBuffer, flush, write_whole};
use herm_refusals::{Fault, put_refusals};
use std::alloc::Global;

/// Writes the lines of refusals by way of a buffer.
fn write_lines<S: Sink>(
    sink: &mut S,
    names: &[Word],
    faults: &[Fault],
    room: Vec<u8>,
) -> Result<(), Unwritten>
    ensures flushed { IsFlushed (S.written sink.old) (S.written sink.new) (S.faults sink.old) (S.faults sink.new) (refusals_text names.now faults.now) result }
{
    let mut buffer = WriteBuffer::over(room);
    put_refusals(sink, &mut buffer, names, faults)?;
    flush(sink, &mut buffer)
}

/// Writes a text, whole unless the sink fails.
fn write_text<S: Sink>(sink: &mut S, text: Text) -> Result<(), Unwritten>
    ensures flushed { IsFlushed (S.written sink.old) (S.written sink.new) (S.faults sink.old) (S.faults sink.new) (text_view text) result }
{
    match text {
        Text::Whole(bytes) => match write_whole(sink, &bytes) {
            Ok(()) => Ok(()),
            Err(_) => Err(Unwritten),
        },
        Text::Lines {
            names,
            faults,
            room,
        } => write_lines(sink, &names, &faults, room),
    }
}

/// Writes the text of an answer, whole unless the sink fails.
fn write<S: Sink>(sink: &mut S, answer: Answer) -> Outcome
    ensures written { IsWritten (S.faults sink.old) (S.faults sink.new) (S.written sink.old) (S.written sink.new)
        result.status answer.status (text_view answer.text) }
    ensures report { result.report ≡ answer.report }
    ensures aside { result.aside ≡ None }
    ensures counted { S.faults sink.old ≤ S.faults sink.new }
{
    let status = match write_text(sink, answer.text) {
        Ok(()) => answer.status,
        Err(_) => 4,
    };
    Outcome {
        status,
        report: answer.report,
        aside: None,
    }
}

/// Runs a call of the program: takes the words after the program's name, loads and compiles the named files or a ring, checks or runs them, and writes the text.
///
/// At status 5 the sink is as before. At status 4 a prefix of the text was written. The text that is due and its status
/// are those of the language reference, "Statuses and texts". Neither count of faults falls, and the shelf's contents stay.
pub fn hermes<F: Shelf, S: Sink, G: Gate + Sync>(
    alloc: Global,
    words: &[String],
    shelf: &mut F,
    sink: &mut S,
    _gate: &G,
) -> Outcome
    ensures answered { IsAnswered (λ status text. IsDue F.loads F.faults (F.contents shelf.old) shelf.old shelf.new (work_of (asked (map string_bytes words.now))) status text result.report)
        (S.faults sink.old) (S.faults sink.new) (S.written sink.old) (S.written sink.new) result.status result.report }
    ensures told { IfSome (F.contents shelf.old) (λ files.
        IsAnswered (λ status text. IsChosen (work_of (asked (map string_bytes words.now))) files (Rose (F.faults shelf.old) (F.faults shelf.new)) status text result.report)
        (S.faults sink.old) (S.faults sink.new) (S.written sink.old) (S.written sink.new) result.status result.report) }
    ensures usage { asked (map string_bytes words.now) ≡ None →
        (IsUnwritten (S.faults sink.old) (S.faults sink.new) (S.written sink.old) (S.written sink.new) result.status result.report
        ⊎ IsWritten (S.faults sink.old) (S.faults sink.new) (S.written sink.old) (S.written sink.new)
        result.status 2 usage_text) }
    ensures usage_only { result.status ≡ 2 → asked (map string_bytes words.now) ≡ None }
    ensures read_fault { result.status ≡ 3 → Rose (F.faults shelf.old) (F.faults shelf.new) }
    ensures write_fault { result.status ≡ 4 → Rose (S.faults sink.old) (S.faults sink.new) }
    ensures shelf_kept { result.status ≢ 3 → result.status ≢ 4 → result.status ≢ 5 → F.faults shelf.new ≡ F.faults shelf.old }
    ensures sink_kept { result.status ≢ 4 → S.faults sink.new ≡ S.faults sink.old }
    ensures asked { result.status ≡ 5 → FirstAreLoaded F.loads (names_of (work_of (asked (map string_bytes words.now)))) shelf.old shelf.new }
    ensures memory { result.status ≡ 5 → sink.new ≡ sink.old }
    ensures shelf_counted { F.faults shelf.old ≤ F.faults shelf.new }
    ensures sink_counted { S.faults sink.old ≤ S.faults sink.new }
    ensures same { F.contents shelf.new ≡ F.contents shelf.old }
    ensures aside { result.aside ≡ None }
{
    match answer_to(alloc, words, shelf) {
        Ok(answer) => write(sink, answer),
        Err(_) => Outcome {
            status: 5,
            report: None,
            aside: None,
        },
    }
}
