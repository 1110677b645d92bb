// Many small pieces are written by way of a buffer.
ghost use Rattle.std.specs.Prelude.{◌≡◌, ◌≤◌, ◌+◌, ◌++◌, [], length};
ghost use Rattle.herm_edge.specs.Buffered.{held_bytes, IsSound, IsPut, IsFlushed};

use crate::{Sink, write_whole};

/// A sink that failed before all bytes were taken.
#[derive(Clone, Copy, Debug, PartialEq, Eq)]
pub struct Unwritten;

/// Bytes that are held back until the room is full.
#[derive(Drop)]
pub struct WriteBuffer {
    bytes: Vec<u8>,
    used: usize,
}

impl WriteBuffer {
    /// A buffer that holds nothing, with this room. Where the room is empty, each piece is written at once.
    pub fn over(room: Vec<u8>) -> WriteBuffer
        ensures sound { IsSound result }
        ensures empty { held_bytes result ≡ [] }
    {
        WriteBuffer {
            bytes: room,
            used: 0,
        }
    }
}

/// Writes what is held. It takes no memory.
///
/// `Err` comes only where the sink's count of faults rose in this call; then some of the first bytes were appended, and not all.
pub fn flush<S: Sink>(sink: &mut S, buffer: &mut WriteBuffer) -> Result<(), Unwritten>
    requires sound { IsSound buffer.old }
    ensures sound { IsSound buffer.new }
    ensures empty { buffer.new.used ≡ 0 }
    ensures flushed { IsFlushed (S.written sink.old) (S.written sink.new) (S.faults sink.old) (S.faults sink.new) (held_bytes buffer.old) result }
{
    let used = buffer.used;
    buffer.used = 0;
    match write_whole(sink, &buffer.bytes[..used]) {
        Ok(()) => Ok(()),
        Err(_) => Err(Unwritten),
    }
}

/// Holds bytes for which there is room.
fn hold(buffer: &mut WriteBuffer, bytes: &[u8])
    requires room { buffer.old.used + length bytes.now ≤ length buffer.old.bytes.items }
    ensures sound { IsSound buffer.new }
    ensures held { held_bytes buffer.new ≡ held_bytes buffer.old ++ bytes.now }
{
    let end = buffer.used + bytes.len();
    buffer.bytes[buffer.used..end].copy_from_slice(bytes);
    buffer.used = end;
}

/// Writes bytes at once.
fn write_now<S: Sink>(sink: &mut S, bytes: &[u8]) -> Result<(), Unwritten>
    ensures flushed { IsFlushed (S.written sink.old) (S.written sink.new) (S.faults sink.old) (S.faults sink.new) bytes.now result }
{
    match write_whole(sink, bytes) {
        Ok(()) => Ok(()),
        Err(_) => Err(Unwritten),
    }
}

/// Writes bytes, or holds them, where nothing is held.
fn put_first<S: Sink>(sink: &mut S, buffer: &mut WriteBuffer, bytes: &[u8]) -> Result<(), Unwritten>
    requires empty { buffer.old.used ≡ 0 }
    ensures sound { IsSound buffer.new }
    ensures put { IsPut bytes.now (S.written sink.old) (S.written sink.new) (S.faults sink.old) (S.faults sink.new) [] (held_bytes buffer.new) result }
{
    if bytes.len() > buffer.bytes.len() {
        return write_now(sink, bytes);
    }
    hold(buffer, bytes);
    Ok(())
}

/// Writes bytes, or holds them: what was held is written where they have no room beside it, and they themselves where the whole room is too small. It takes
/// no memory.
///
/// `Err` comes only where the sink's count of faults rose in this call; then some of the first bytes of all that were put were appended, and not all.
pub fn put<S: Sink>(sink: &mut S, buffer: &mut WriteBuffer, bytes: &[u8]) -> Result<(), Unwritten>
    requires sound { IsSound buffer.old }
    ensures sound { IsSound buffer.new }
    ensures put { IsPut bytes.now (S.written sink.old) (S.written sink.new) (S.faults sink.old) (S.faults sink.new) (held_bytes buffer.old) (held_bytes buffer.new) result }
{
    if bytes.len() <= buffer.bytes.len() - buffer.used {
        hold(buffer, bytes);
        return Ok(());
    }
    flush(sink, buffer)?;
    put_first(sink, buffer, bytes)
}
