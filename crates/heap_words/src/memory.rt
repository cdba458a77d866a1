//! Words in memory.

ghost use Rattle.std.specs.Prelude.{◌≡◌, ◌≤◌, ◌<◌, ◌+◌, ◌-◌, ◌^◌, ◌↔◌, ℕ, List, length, slice_index, slice_set, replicate, IfOk, IfErr};
ghost use Rattle.heap_words.specs.Map.{IsAreas, total_of};
ghost use Rattle.heap_words.specs.Contents.{contents, zero_contents, Sound};
ghost use Rattle.heap_words.specs.declared.memory.MakeError.TheVariants.{Memory, BadConfig};

use crate::counter::Counter;
use crate::{Areas, MAX_PAGES, MAX_THREADS, Words};
use std::alloc::Global;
use thiserror::Error;

/// Why a heap was not made.
#[derive(Clone, Copy, Debug, PartialEq, Eq, Drop, Error)]
pub enum MakeError {
    /// An allocation was refused.
    #[error("no memory")]
    Memory,
    /// The number of pages or of threads is none that a heap can have.
    #[error("a heap has 1 to {MAX_PAGES} pages and 1 to {MAX_THREADS} threads")]
    BadConfig,
}

/// The words of a heap in memory.
#[derive(Drop)]
pub struct Image {
    words: Vec<u64>,
    map: Areas,
    reads: Counter,
    ghost gate_zero: { slice_index words.items 0 ≡ 0 },
    ghost areas: { IsAreas map },
    ghost whole: { length words.items ≡ total_of map },
}

impl Words for Image {
    ghost use Rattle.heap_words.specs.declared.map.Areas.{Areas};

    ghost Base = { Areas };

    ghost words = { λ s. s.words.items };

    ghost reads = { λ s. s.reads };

    ghost base = { λ s. s.map };

    ghost map = { λ m. m };

    ghost gate_hidden = { λ s. s.gate_zero };

    ghost within_limits = { λ s. s.areas };

    ghost whole = { λ s. s.whole };

    fn get(&mut self, i: usize) -> u64 {
        self.reads.count(i);
        self.words[i]
    }

    fn set(&mut self, i: usize, word: u64) {
        self.words[i] = word;
    }
}

impl Image {
    /// The words of a heap of so many pages and threads, all 0.
    pub fn new(alloc: Global, pages: u32, threads: u8) -> Result<Image, MakeError>
        ensures words { IfOk result (λ image. image.words.items ≡ replicate (total_of (record { pages = pages; threads = threads })) 0) }
        ensures sound { IfOk result (λ image. Sound image.map image.words.items) }
        ensures contents { IfOk result (λ image. contents image.map image.words.items ≡ zero_contents image.map) }
        ensures reads { IfOk result (λ image. image.reads ≡ 0) }
        ensures map { IfOk result (λ image. image.map ≡ record { pages = pages; threads = threads }) }
        ensures within_limits { IfOk result (λ _. IsAreas (record { pages = pages; threads = threads })) }
        ensures refused { IfErr result (λ e. (e ≡ BadConfig) ↔ ¬ IsAreas (record { pages = pages; threads = threads })) }
    {
        if pages < 1 || pages > MAX_PAGES || threads < 1 || threads > MAX_THREADS {
            return Err(MakeError::BadConfig);
        }
        let map = Areas { pages, threads };
        let words = match vec![in alloc; 0u64; map.total()] {
            Ok(words) => words,
            Err(_) => return Err(MakeError::Memory),
        };
        Ok(Image {
            words,
            map,
            reads: Counter::new(),
        })
    }

    /// The map of the words.
    pub fn map(&self) -> Areas
        ensures { result ≡ self.now.map }
    {
        self.map
    }

    /// The words, in which word 0 is 0.
    pub fn as_slice(&self) -> &[u64]
        ensures { result.now ≡ self.now.words.items }
    {
        self.words.as_slice()
    }

    /// How often a word was read.
    pub fn reads(&self) -> u64
        ensures { result ≡ self.now.reads }
    {
        self.reads.number()
    }
}
