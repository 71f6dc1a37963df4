//! The top call, over sources and sinks in memory.
use crate::command::kj_main;
use kj_base::{Bytes, NoMemory};
use kj_io::{MemSink, MemSource, Refusing, Source, Turn};
use std::alloc::Global;
use std::sync::Wait;
use std::thread::Threads;

mod faults;
mod recordings;
mod rows;
mod scripts;
mod words;

// What one run of the program did.
#[derive(Drop)]
pub struct Ended {
    pub status: u8,
    pub written: MemSink,
    pub reads: u64,
}

impl Ended {
    pub fn is(&self, status: u8, text: &[u8]) -> bool {
        self.status == status && self.written.as_slice() == text
    }
}

// The program with these words on these octets, with turns of the input and of the output, the last
// first.
pub fn done<R: Wait + Threads + Sync>(
    rt: &R,
    alloc: Global,
    texts: &[&str],
    octets: &[u8],
    reads: Vec<Turn>,
    writes: Vec<Turn>,
) -> Result<Ended, NoMemory> {
    let mut words = Vec::new(alloc);
    for text in texts {
        words.push(String::from_str(alloc, text)?)?;
    }
    let mut input = MemSource::new(Bytes::from_slice(alloc, octets)?, reads);
    let mut written = MemSink::new(alloc, writes);
    let mut spawner = Refusing::new(false);
    let status = kj_main(rt, alloc, &words, &mut input, &mut written, &mut spawner);
    let reads = input.faults();
    Ok(Ended {
        status,
        written,
        reads,
    })
}

// The program with the word `run`.
pub fn ran<R: Wait + Threads + Sync>(
    rt: &R,
    alloc: Global,
    octets: &[u8],
    reads: Vec<Turn>,
    writes: Vec<Turn>,
) -> Result<Ended, NoMemory> {
    done(rt, alloc, &["run"], octets, reads, writes)
}

// So many calls that pass at most so many octets, and then one that fails.
pub fn failing(alloc: Global, passing: usize, most: usize) -> Result<Vec<Turn>, NoMemory> {
    let mut turns = Vec::new(alloc);
    turns.push(Turn::Fault)?;
    for _ in 0..passing {
        turns.push(Turn::Octets(most))?;
    }
    Ok(turns)
}
