// Where text is written to.
ghost use Rattle.std.specs.Prelude.{◌≡◌, ℕ, ◌<◌, ◌≤◌, List, Option, length, take};
ghost use Rattle.herm_edge.specs.Faults.{Rose};
ghost use Rattle.herm_edge.specs.Sink.{written_after, IfTook, OnWriteFailed};

/// What a sink answers when it is handed bytes.
#[derive(Clone, Copy, Debug, PartialEq, Eq)]
pub enum Wrote {
    /// It took this many of the first bytes, at least one.
    Took(usize),
    /// It took none.
    Failed,
}

/// Takes bytes, in order.
///
/// A sink means the bytes written, which may be told or not, and a count of faults that never
/// falls. (Language reference, "The outside".)
pub trait Sink {
    /// The bytes written, where they are told.
    ghost written: { Self → Option (List ℕ) };

    /// How many faults there were.
    ghost faults: { Self → ℕ };

    /// Hands over bytes, of which the sink takes some of the first. It takes no memory.
    ///
    /// `Failed` comes only where the count of faults rose in this call, and leaves the bytes; `Took` leaves the count.
    fn write(&mut self, bytes: &[u8]) -> Wrote
        requires { 0 < length bytes.now }
        ensures some { IfTook result (λ n. 1 ≤ n) }
        ensures within { IfTook result (λ n. n ≤ length bytes.now) }
        ensures grows { IfTook result (λ n. written self.new ≡ written_after (written self.old) (take n bytes.now)) }
        ensures stays { OnWriteFailed result (written self.new ≡ written self.old) }
        ensures failed { OnWriteFailed result (Rose (faults self.old) (faults self.new)) }
        ensures kept { IfTook result (λ _. faults self.new ≡ faults self.old) }
        ensures never_falls { faults self.old ≤ faults self.new };
}
