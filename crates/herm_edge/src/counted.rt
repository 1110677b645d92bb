// A reader whose failures are counted.
ghost use Rattle.std.specs.Prelude.{◌≡◌, ◌<◌, ◌≤◌, None, IfSome, length, take};
ghost use Rattle.std.specs.Io.KnownBytes.{Consumes, IsAtEnd};
ghost use Rattle.herm_edge.specs.Faults.{Rose};
ghost use Rattle.herm_edge.specs.Reader.{ReaderState};

use crate::calls::next_count;
use std::io::Read;
use std::marker::Model;

// A clause sees the reader and how many of its reads failed. Only a read that fails raises the count.
#[derive(Drop)]
pub(crate) struct Counted<F> {
    reader: F,
    faults: u64,
}

impl<F> Model for Counted<F> {
    ghost Value = { ReaderState F };

    ghost view = { λ s. record { reader = s.reader; faults = s.faults } };
}

impl<F> Counted<F> {
    // No read has failed yet.
    pub(crate) fn new(reader: F) -> Counted<F>
        ensures reader { result.reader ≡ reader }
        ensures faults { result.faults ≡ 0 }
    {
        Counted { reader, faults: 0 }
    }
}

impl<F: Read> Counted<F> {
    // Reads some of the bytes that are left into the part, and answers how many, if the read did not fail.
    pub(crate) fn read(&mut self, part: &mut [u8]) -> Option<usize>
        ensures within { IfSome result (λ n. n ≤ length part.new) }
        ensures consumes { IfSome result (λ n. Consumes (F.remaining self.old.reader) (F.remaining self.new.reader) (take n part.new)) }
        ensures end { IfSome result (λ n. n ≡ 0 → 0 < length part.new → IsAtEnd (F.remaining self.new.reader)) }
        ensures failed { result ≡ None → Rose self.old.faults self.new.faults }
        ensures kept { IfSome result (λ _. self.new.faults ≡ self.old.faults) }
    {
        match self.reader.read(part) {
            Ok(n) => Some(n),
            Err(_) => {
                self.faults = next_count(self.faults);
                None
            }
        }
    }
}
