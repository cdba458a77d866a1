//! A heap that threads share.
ghost use Rattle.std.specs.Prelude.{◌≡◌, ◌↔◌, ◌++◌, [], ◌∷◌, IfErr, IfOk, OnOk, length, replicate};
ghost use Rattle.heap_words.specs.Contents.{contents};
ghost use Rattle.heap_words.specs.Map.{IsAreas};
ghost use Rattle.yak_model.specs.Graph.{standard_limits};
ghost use Rattle.yak_model.specs.Recorded.{StandsRecorded};
ghost use Rattle.yak_model.specs.Spaces.{opening_spaces};
ghost use Rattle.safepoint_gate.specs.Made.{AllFresh};
ghost use Rattle.mutator.specs.Resting.{AllSingle, seats_of};

use crate::resting::Resting;
use heap_core::Core;
use heap_words::{Image, MakeError};
use object_layout::NoMemory;
use safepoint_gate::{Away, Gate};
use std::alloc::Global;

/// A heap that threads share. Each of its mutators makes the calls of one thread.
#[derive(Drop)]
pub struct Heap {
    pub(crate) gate: Gate,
}

// Puts a resting mutator behind the others.
fn put(all: &mut Vec<Resting>, resting: Resting) -> Result<(), NoMemory>
    ensures { OnOk result (all.new.items ≡ all.old.items ++ resting ∷ []) }
{
    all.push(resting).map_err(|_| NoMemory)
}

// A resting mutator for each seat, in order.
fn resting_all(alloc: Global, mut seats: Vec<Away>) -> Result<Vec<Resting>, NoMemory>
    requires single { AllSingle seats.items }
    ensures { IfOk result (λ all. seats_of all.items ≡ seats.items) }
{
    let mut all = Vec::new(alloc);
    while !seats.is_empty() {
        put(&mut all, Resting::of(seats.remove(0)))?;
    }
    Ok(all)
}

// A heap over the words of an image in the opening state.
fn opened(alloc: Global, image: Image) -> Result<(Heap, Vec<Resting>), NoMemory>
    requires opening { StandsRecorded image.map (contents image.map image.words.items) (opening_spaces standard_limits image.map.threads) }
    requires empty { (contents image.map image.words.items).buffers ≡ replicate image.map.threads [] }
    ensures map { IfOk result (λ r. r.0.gate.map ≡ image.map) }
    ensures count { IfOk result (λ r. length (seats_of r.1.items) ≡ image.map.threads) }
    ensures seats { IfOk result (λ r. AllFresh r.0.gate.table.shared.table_id image.map (seats_of r.1.items)) }
{
    let (gate, seats) = Gate::new(alloc, image)?;
    let all = resting_all(alloc, seats)?;
    Ok((Heap { gate }, all))
}

impl Heap {
    /// A new heap of so many pages and threads, in the opening state, and a resting mutator for each thread, in order of thread.
    ///
    /// # Errors
    ///
    /// `BadConfig` where no heap has so many pages or threads, `Memory` where an allocation was refused.
    pub fn new(alloc: Global, pages: u32, threads: u8) -> Result<(Heap, Vec<Resting>), MakeError>
        ensures map { IfOk result (λ r. r.0.gate.map ≡ record { pages = pages; threads = threads }) }
        ensures count { IfOk result (λ r. length (seats_of r.1.items) ≡ threads) }
        ensures seats { IfOk result (λ r. AllFresh r.0.gate.table.shared.table_id r.0.gate.map (seats_of r.1.items)) }
        ensures within_limits { IfOk result (λ _. IsAreas (record { pages = pages; threads = threads })) }
        ensures refused { IfErr result (λ e. (e ≡ MakeError.BadConfig) ↔ ¬ IsAreas (record { pages = pages; threads = threads })) }
    {
        let image = Core::new(alloc, pages, threads)?.into_words();
        match opened(alloc, image) {
            Ok(made) => Ok(made),
            Err(NoMemory) => Err(MakeError::Memory),
        }
    }

    /// The number of threads.
    pub fn threads(&self) -> u8
        ensures { result ≡ self.now.gate.map.threads }
    {
        self.gate.map().threads
    }

    /// The number of pages.
    pub fn pages(&self) -> u32
        ensures { result ≡ self.now.gate.map.pages }
    {
        self.gate.map().pages
    }
}
