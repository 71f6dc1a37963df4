//! The program: its words say what it does.
#![tactic(auto)]

mod command;
mod forms;
mod laws;
mod make;
mod output;
mod replay;
mod run;
mod status;
#[cfg(test)]
mod tests;

use command::kj_main;
use kj_io::{StdSink, StdSource, Threads};
use std::process::ExitCode;
use std::{env, io};

fn main(rt: HostRuntime) -> ExitCode {
    let alloc = rt.alloc();
    let mut words = Vec::new(alloc);
    let args = match env::args(&rt) {
        Ok(args) => args,
        Err(error) => return ExitCode::from(status::of_unread_words(error.kind())),
    };
    for word in args.skip(1) {
        if words.push(word).is_err() {
            return ExitCode::from(status::NO_MEMORY);
        }
    }
    let mut input = StdSource::new(rt.reader());
    let mut spawner = Threads;
    let mut output = StdSink::new(io::writer(&rt));
    ExitCode::from(kj_main(
        &rt,
        rt.alloc(),
        &words,
        &mut input,
        &mut output,
        &mut spawner,
    ))
}
