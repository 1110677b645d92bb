// Writing a whole text.
ghost use Rattle.std.specs.Prelude.{◌≡◌, ◌<◌, ◌≤◌, length, take, OnOk, IfErr, OnErr};
ghost use Rattle.herm_edge.specs.Faults.{Rose};
ghost use Rattle.herm_edge.specs.Sink.{written_after};

use crate::{Sink, Wrote};

/// A write that failed before all bytes were taken.
#[derive(Clone, Copy, Debug, PartialEq, Eq)]
pub struct WriteFault {
    /// How many of the first bytes were taken.
    pub taken: usize,
}

/// Writes all the bytes, and hands over all that are left at each call. It takes no memory.
///
/// An empty text calls nothing. `Err` comes only where the sink's count of faults rose in this call; then
/// the first `taken` bytes were appended. `Ok` leaves the count. (Language reference, "The outside".)
#[tactic(auto, using(crate::proofs::SinkLemmas::writes))]
pub fn write_whole<S: Sink>(sink: &mut S, bytes: &[u8]) -> Result<(), WriteFault>
    ensures all { OnOk result (S.written sink.new ≡ written_after (S.written sink.old) bytes.now) }
    ensures some { IfErr result (λ fault. S.written sink.new ≡ written_after (S.written sink.old) (take fault.taken bytes.now)) }
    ensures short { IfErr result (λ fault. fault.taken < length bytes.now) }
    ensures cause { OnErr result (Rose (S.faults sink.old) (S.faults sink.new)) }
    ensures kept { OnOk result (S.faults sink.new ≡ S.faults sink.old) }
    ensures untouched { length bytes.now ≡ 0 → sink.new ≡ sink.old }
    ensures never_falls { S.faults sink.old ≤ S.faults sink.new }
{
    let mut taken = 0;
    while taken < bytes.len() {
        match sink.write(&bytes[taken..]) {
            Wrote::Took(n) => taken += n,
            Wrote::Failed => return Err(WriteFault { taken }),
        }
    }
    Ok(())
}
