//! A gate as it is made, with a seat for each thread.
ghost use Rattle.std.specs.Prelude.{◌≡◌, ◌≤◌, ◌++◌, [], ◌∷◌, IfOk, OnOk, length, replicate};
ghost use Rattle.heap_words.specs.Contents.{contents};
ghost use Rattle.heap_words.specs.Map.{HasThread};
ghost use Rattle.yak_model.specs.Graph.{standard_limits};
ghost use Rattle.yak_model.specs.Recorded.{StandsRecorded};
ghost use Rattle.yak_model.specs.Spaces.{opening_spaces};
ghost use Rattle.safepoint_gate.specs.declared.rule.Place.TheVariants.{Away as AwayPlace};
ghost use Rattle.safepoint_gate.specs.Made.{AllFresh};
ghost use Rattle.safepoint_gate.specs.Rule.{first_view};
ghost use Rattle.safepoint_gate.specs.Steps.{first_thread, of_first, of_others};

use crate::gate::Gate;
use crate::rule::{FirstThread, Token};
use crate::seats::Away;
use atomic_table::Table;
use heap_words::Image;
use object_layout::NoMemory;
use std::alloc::Global;

// Puts a seat behind the others.
fn put(seats: &mut Vec<Away>, away: Away) -> Result<(), NoMemory>
    ensures { OnOk result (seats.new.items ≡ seats.old.items ++ away ∷ []) }
{
    seats.push(away).map_err(|_| NoMemory)
}

impl Gate {
    // The words of an image, and a seat that stands for all threads.
    fn opened(alloc: Global, image: Image) -> Result<(Gate, Token), NoMemory>
        requires opening { StandsRecorded image.map (contents image.map image.words.items) (opening_spaces standard_limits image.map.threads) }
        requires empty { (contents image.map image.words.items).buffers ≡ replicate image.map.threads [] }
        ensures map { IfOk result (λ r. r.0.map ≡ image.map) }
        ensures seat { IfOk result (λ r. (r.1.table_id ≡ r.0.table.shared.table_id) × (r.1.me ≡ (first_view image.map, []))) }
    {
        let map = image.map();
        match Table::of_words(alloc, image.as_slice(), &map) {
            Ok((table, seat)) => Ok((Gate { table, map }, seat)),
            Err(_) => Err(NoMemory),
        }
    }

    // The seat of the first thread for which the maker's seat stands.
    fn deal(&self, seat: &mut Token, thread: u8) -> Away
        requires seat { seat.old.table_id ≡ self.now.table.shared.table_id }
        requires away { seat.old.me.0.place ≡ AwayPlace }
        requires numbered { first_thread seat.old.me.0.own ≡ thread }
        requires threaded { HasThread seat.old.me.0.map thread }
        ensures seat { (seat.new.table_id ≡ seat.old.table_id) × (seat.new.me ≡ (of_others seat.old.me.0, seat.old.me.1)) }
        ensures away { (result.seat.table_id ≡ seat.old.table_id) × (result.seat.me.0 ≡ of_first seat.old.me.0) }
    {
        let seat = self.table.shared.split_seat::<FirstThread>(seat);
        Away { seat, thread }
    }

    /// The words of an image in the opening state, and a seat for each thread, in order of thread.
    ///
    /// # Errors
    ///
    /// `NoMemory` where an allocation was refused; the image is given up.
    pub fn new(alloc: Global, image: Image) -> Result<(Gate, Vec<Away>), NoMemory>
        requires opening { StandsRecorded image.map (contents image.map image.words.items) (opening_spaces standard_limits image.map.threads) }
        requires empty { (contents image.map image.words.items).buffers ≡ replicate image.map.threads [] }
        ensures map { IfOk result (λ r. r.0.map ≡ image.map) }
        ensures count { IfOk result (λ r. length r.1.items ≡ image.map.threads) }
        ensures seats { IfOk result (λ r. AllFresh r.0.table.shared.table_id image.map r.1.items) }
    {
        let threads = image.map().threads;
        let (gate, mut seat) = Gate::opened(alloc, image)?;
        let mut seats = match Vec::with_capacity(alloc, threads as usize) {
            Ok(seats) => seats,
            Err(_) => return Err(NoMemory),
        };
        for k in 0..threads {
            let away = gate.deal(&mut seat, k + 1);
            put(&mut seats, away)?;
        }
        Ok((gate, seats))
    }
}
