//! The outside of the program: where files are read from, where text is written to, and what a worker calls before a turn.
//!
//! Each is a trait with a written meaning. The types in memory meet their meaning exactly; those over the system
//! count their faults and tell nothing of what they read and write.
#![tactic(auto)]

mod buffered;
mod calls;
mod counted;
mod dir_shelf;
mod gate;
mod mem_shelf;
mod mem_sink;
mod shelf;
mod sink;
mod whole;
mod write_sink;

pub use buffered::{Unwritten, WriteBuffer, flush, put};
pub use dir_shelf::DirShelf;
pub use gate::{FreeGate, Gate};
pub use mem_shelf::MemShelf;
pub use mem_sink::MemSink;
pub use shelf::{Loaded, Shelf};
pub use sink::{Sink, Wrote};
pub use whole::{WriteFault, write_whole};
pub use write_sink::WriteSink;
