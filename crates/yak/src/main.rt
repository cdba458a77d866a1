//! Runs a script of calls on a heap, or counts the words of a text in one, and writes a line for each reply or word.
#![tactic(auto)]

#[cfg(test)]
mod checked;
mod endings;
mod forms;
mod generator;
#[cfg(test)]
mod hostile;
mod laws;
mod plain;
mod shared;
mod summaries;
#[cfg(test)]
mod tests;
mod threaded;
mod traced;
#[cfg(test)]
mod watched;
#[cfg(test)]
mod worked;
#[cfg(test)]
mod workers;

use plain::KeptHeap;
use std::alloc::AllocError;
use std::process::ExitCode;
use std::{env, io};
use threaded::run;
use yak_io::{NoBrake, StdSink, StdSource};

fn main(rt: HostRuntime) -> ExitCode {
    let alloc = rt.alloc();
    // Arguments that are no text are of no stated form, as none are.
    let words: Result<Vec<String>, AllocError> = match env::args(&rt) {
        Ok(args) => args.skip(1).collect(alloc),
        Err(error) if error.kind() == io::ErrorKind::OutOfMemory => return ExitCode::from(5),
        Err(_) => Ok(Vec::new(alloc)),
    };
    let Ok(words) = words else {
        return ExitCode::from(5);
    };
    let mut source = StdSource::new(rt.reader());
    let mut sink = StdSink::new(io::writer(&rt));
    let mut kept = KeptHeap::Nothing;
    ExitCode::from(run(
        &rt,
        alloc,
        &words,
        &mut source,
        &mut sink,
        &NoBrake,
        &mut kept,
    ))
}
