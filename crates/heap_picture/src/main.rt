//! Draws the pages of a heap: runs a script and writes a picture, in SVG, of the heap that it leaves.
//!
//! A box for each page, in rows, has the colour of the page's space and is filled from below as far as the page's words are in use.
//! Below the boxes stand the counts of pages and words.
#![tactic(auto)]

mod boxes;
mod colours;
mod endings;
mod pages;
mod picture;
#[cfg(test)]
mod tests;

use endings::run;
use std::io;
use std::process::ExitCode;
use yak_io::{StdSink, StdSource};

fn main(rt: HostRuntime) -> ExitCode {
    let mut source = StdSource::new(rt.reader());
    let mut sink = StdSink::new(io::writer(&rt));
    let status = run(rt.alloc(), &mut source, &mut sink);
    ExitCode::from(status as u8)
}
