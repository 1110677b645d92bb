// A sink over a writer of the standard library.
ghost use Rattle.std.specs.Prelude.{◌≡◌, ◌<◌, ◌≤◌, None, length, take};
ghost use Rattle.herm_edge.specs.Faults.{Rose};
ghost use Rattle.std.specs.Io.KnownBytes.{Appends, Keeps};
ghost use Rattle.herm_edge.specs.Sink.{WriterState, faults_after_write, IfTook, OnWriteFailed};

use crate::calls::next_count;
use crate::{Sink, Wrote};
use std::io::Write;
use std::marker::Model;

/// A sink over a writer of the standard library. It tells nothing of what was written.
///
/// A clause sees the writer and the count of faults, which stays at its type's end. What the writer
/// itself tells of its bytes grows by those that it took.
#[derive(Debug, Drop)]
pub struct WriteSink<W> {
    writer: W,
    faults: u64,
}

impl<W> Model for WriteSink<W> {
    ghost Value = { WriterState W };

    ghost view = { λ s. record { writer = s.writer; faults = s.faults } };
}

impl<W> WriteSink<W> {
    /// A sink over this writer, with no fault.
    pub fn new(writer: W) -> WriteSink<W>
        ensures writer { result.writer ≡ writer }
        ensures faults { result.faults ≡ 0 }
    {
        WriteSink { writer, faults: 0 }
    }
}

impl<W: Write> Sink for WriteSink<W> {
    ghost written = { λ _. None };

    ghost faults = { λ s. s.faults };

    fn write(&mut self, bytes: &[u8]) -> Wrote
        requires { 0 < length bytes.now }
        ensures passed { IfTook result (λ n. Appends (W.contents self.old.writer) (W.contents self.new.writer) (take n bytes.now)) }
        ensures left { OnWriteFailed result (Keeps (W.contents self.old.writer) (W.contents self.new.writer)) }
        ensures count { self.new.faults ≡ faults_after_write result self.old.faults }
        ensures some { IfTook result (λ n. 1 ≤ n) }
        ensures within { IfTook result (λ n. n ≤ length bytes.now) }
        ensures failed { OnWriteFailed result (Rose self.old.faults self.new.faults) }
        ensures kept { IfTook result (λ _. self.new.faults ≡ self.old.faults) }
        ensures never_falls { self.old.faults ≤ self.new.faults }
    {
        match self.writer.write(bytes) {
            Ok(n) if n != 0 => Wrote::Took(n),
            Ok(_) | Err(_) => {
                self.faults = next_count(self.faults);
                Wrote::Failed
            }
        }
    }
}
