//! The outside world as traits, with counts of faults, in memory and for real.
#![tactic(auto)]

mod fault;
mod mem;
mod mem_stream;
mod sink;
mod source;
mod spawner;
mod standard;
mod stream;
#[cfg(test)]
mod tests;

pub use fault::Failed;
pub use mem::{MemSink, MemSource, Turn};
pub use mem_stream::{MemStream, StreamTurn};
pub use sink::{Sink, write_all};
pub use source::{Read, Source, read_whole};
pub use spawner::{Job, NotStarted, Refusing, Spawner, Threads, run_all};
pub use standard::{StdSink, StdSource};
pub use stream::{Got, Put, Stream, read_behind};
