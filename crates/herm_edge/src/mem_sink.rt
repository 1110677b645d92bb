// A sink in memory.
ghost use Rattle.std.specs.Prelude.{◌≡◌, ◌<◌, ◌≤◌, ◌^◌, [], Some, IfOk, length, take, vec_len, vec_capacity};
ghost use Rattle.herm_edge.specs.Faults.{Rose};
ghost use Rattle.herm_edge.specs.Sink.{written_after, IfTook, OnWriteFailed};
ghost use Rattle.herm_edge.specs.MemSink.{SinkState, taken_count, write_answer, after_write};

use crate::calls::{begin_call, next_count};
use crate::{Sink, Wrote};
use std::alloc::{AllocError, Global};
use std::marker::Model;

// How many bytes it holds: one MiB.
const ROOM: usize = 1 << 20;

/// A sink in memory with a fixed room of 1 MiB, whose calls fail at will. It tells its bytes.
///
/// A clause sees its bytes, the most that a call takes, the numbers of the calls that fail, and
/// how many calls and faults there were. Each of the two counts stays at its type's end.
#[derive(Debug, Drop)]
pub struct MemSink {
    bytes: Vec<u8>,
    piece: usize,
    failing: Vec<u64>,
    calls: u64,
    faults: u64,
}

impl Model for MemSink {
    ghost Value = { SinkState };

    ghost view = { λ s. record { written = s.bytes.items; piece = s.piece; failing = s.failing.items; calls = s.calls; faults = s.faults } };

    ghost invariant = { λ s. (1 ≤ s.piece) × (vec_len s.bytes ≤ 2 ^ 20) × (2 ^ 20 ≤ vec_capacity s.bytes) };
}

impl MemSink {
    /// A sink that takes at most `piece` bytes at each call. `failing` has the numbers, from 1 on,
    /// of the calls that fail. It takes the memory of its room at once.
    pub fn new(alloc: Global, piece: usize, failing: Vec<u64>) -> Result<MemSink, AllocError>
        requires { 1 ≤ piece }
        ensures written { IfOk result (λ sink. sink.written ≡ []) }
        ensures piece { IfOk result (λ sink. sink.piece ≡ piece) }
        ensures failing { IfOk result (λ sink. sink.failing ≡ failing.items) }
        ensures calls { IfOk result (λ sink. sink.calls ≡ 0) }
        ensures faults { IfOk result (λ sink. sink.faults ≡ 0) }
    {
        let bytes = Vec::with_capacity(alloc, ROOM)?;
        Ok(MemSink {
            bytes,
            piece,
            failing,
            calls: 0,
            faults: 0,
        })
    }

    /// The bytes written so far.
    pub fn written(&self) -> &[u8]
        ensures { result.now ≡ self.now.written }
    {
        &self.bytes
    }
}

impl Sink for MemSink {
    ghost written = { λ s. Some s.written };

    ghost faults = { λ s. s.faults };

    fn write(&mut self, bytes: &[u8]) -> Wrote
        requires { 0 < length bytes.now }
        ensures state { self.new ≡ after_write self.old bytes.now }
        ensures answer { result ≡ write_answer (taken_count self.old (length bytes.now)) }
        ensures some { IfTook result (λ n. 1 ≤ n) }
        ensures within { IfTook result (λ n. n ≤ length bytes.now) }
        ensures grows { IfTook result (λ n. Some self.new.written ≡ written_after (Some self.old.written) (take n bytes.now)) }
        ensures stays { OnWriteFailed result (Some self.new.written ≡ Some self.old.written) }
        ensures failed { OnWriteFailed result (Rose self.old.faults self.new.faults) }
        ensures kept { IfTook result (λ _. self.new.faults ≡ self.old.faults) }
        ensures never_falls { self.old.faults ≤ self.new.faults }
    {
        if begin_call(&self.failing, &mut self.calls) {
            self.faults = next_count(self.faults);
            return Wrote::Failed;
        }
        let taken = self.piece.min(bytes.len()).min(ROOM - self.bytes.len());
        if taken == 0 {
            self.faults = next_count(self.faults);
            return Wrote::Failed;
        }
        self.bytes.extend_from_slice(&bytes[..taken]).unwrap();
        Wrote::Took(taken)
    }
}
