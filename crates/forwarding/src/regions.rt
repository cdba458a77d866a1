//! The correcting of the fields of the objects of regions by a plan.

ghost use Rattle.std.specs.Prelude.{◌≡◌, ◌≤◌, ◌<◌, ◌+◌, ◌*◌, ◌⊎◌, ℕ, List, slice_index, sum_by};
ghost use Rattle.heap_words.specs.Map.{page_words};
ghost use Rattle.heap_words.specs.Contents.{Sound, contents};
ghost use Rattle.yak_model.specs.Placed.{used_mark};
ghost use Rattle.yak_model.specs.Plans.{forward};
ghost use Rattle.relocation.specs.Moves.{Numbered, OnlyHeap, move_at};
ghost use Rattle.relocation.specs.Fields.{MovesCorrected};
ghost use Rattle.forwarding.specs.Corrected.{RegionRuns, RegionsCorrected};
ghost use Rattle.forwarding.specs.Row.{ObjectRow, staying};

use crate::CONTROL_WORD;
use heap_words::{Areas, Words, get_page};
use relocation::{Plan, correct_fields, object_size, page_start};

/// Corrects the fields of the objects of a page.
fn correct_page<W: Words>(words: &mut W, map: Areas, plan: &Plan, page: u32)
    requires sound { Sound map (W.words words.old) }
    requires page { page < map.pages }
    requires plan { (let c = contents map (W.words words.old) in Numbered map c.heap plan.now.count (move_at c.scratch)) }
    requires row { (let c = contents map (W.words words.old) in (count : ℕ) × (at : ℕ → ℕ) × ObjectRow map c.heap page (used_mark c.table page) count at) }
    requires beside { (k : ℕ) → k < plan.now.count → (let v = move_at (contents map (W.words words.old)).scratch k in (v.old + 2 < page_words map * page) ⊎ (page_words map * page + page_words map ≤ v.old + 2)) }
    ensures fields { (let c = contents map (W.words words.old) in (count : ℕ) (at : ℕ → ℕ) → ObjectRow map c.heap page (used_mark c.table page) count at → MovesCorrected (forward plan.now.count (move_at c.scratch)) c.heap (contents map (W.words words.new)).heap count (staying at)) }
    ensures only_heap { OnlyHeap map (W.words words.old) (W.words words.new) }
    ensures plan { Numbered map (contents map (W.words words.new)).heap plan.now.count (move_at (contents map (W.words words.old)).scratch) }
    ensures sound { Sound map (W.words words.new) }
    ensures reads { W.reads words.new ≤ W.reads words.old + (1 + 5 * used_mark (contents map (W.words words.old)).table page) }
    ensures base { W.base words.new ≡ W.base words.old }
{
    let start = page_start(map, page);
    let end = start + get_page(words, map, page, 1) as usize;
    let mut a = start;
    while a < end {
        correct_fields(words, map, plan, a);
        a += object_size(words, map, a) as usize;
    }
}

/// Corrects the fields of the objects of all pages of regions: a reference leads where the plan brings the object.
pub fn correct_regions<W: Words>(words: &mut W, map: Areas, plan: &Plan)
    requires sound { Sound map (W.words words.old) }
    requires plan { (let c = contents map (W.words words.old) in Numbered map c.heap plan.now.count (move_at c.scratch)) }
    requires runs { (let c = contents map (W.words words.old) in RegionRuns map c plan.now.count (move_at c.scratch)) }
    ensures corrected { (let c = contents map (W.words words.old) in let moves = move_at c.scratch in (r : RegionRuns map c plan.now.count moves) → RegionsCorrected map (forward plan.now.count moves) c plan.now.count moves r (contents map (W.words words.new)).heap) }
    ensures only_heap { OnlyHeap map (W.words words.old) (W.words words.new) }
    ensures plan { Numbered map (contents map (W.words words.new)).heap plan.now.count (move_at (contents map (W.words words.old)).scratch) }
    ensures sound { Sound map (W.words words.new) }
    ensures reads { W.reads words.new ≤ W.reads words.old + (2 * map.pages + 5 * sum_by (λ (r : List ℕ). slice_index r 1) (contents map (W.words words.old)).table) }
    ensures base { W.base words.new ≡ W.base words.old }
{
    for page in 0..map.pages {
        if get_page(words, map, page, 0) > CONTROL_WORD {
            correct_page(words, map, plan, page);
        }
    }
}
