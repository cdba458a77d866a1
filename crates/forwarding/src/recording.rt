//! The records of moved objects: their fields whose references enter regions.

ghost use Rattle.std.specs.Prelude.{◌≡◌, ◌≤◌, ◌<◌, ◌+◌, ◌*◌, ℕ};
ghost use Rattle.std.specs.List.{All};
ghost use Rattle.heap_words.specs.Map.{heap_length};
ghost use Rattle.heap_words.specs.Contents.{Sound, contents};
ghost use Rattle.relocation.specs.declared.plans.TheConstants.{MOVE_WORDS};
ghost use Rattle.relocation.specs.Moves.{HasHeader, fields_at, move_at};
ghost use Rattle.remember_sets.specs.Filed.{ChainsBecome, IsSlot, PagesKnown, SetsHold, all_filed, with_sets};
ghost use Rattle.forwarding.specs.Entering.{words_brought};
ghost use Rattle.forwarding.specs.Slots.{slots_at, slots_brought};

use heap_words::{Areas, Words};
use object_layout::{Addr, OBJECT_WORDS};
use relocation::{Plan, object_size, read_move};
use remember_sets::add_slot;

/// Files the fields of an object: each one whose reference enters a region other than the object's space.
fn record_object<W: Words>(words: &mut W, map: Areas, a: usize)
    requires sound { Sound map (W.words words.old) }
    requires sets { SetsHold map (contents map (W.words words.old)) }
    requires start { a < heap_length map }
    requires header { HasHeader (contents map (W.words words.old)).heap a }
    requires slots { (let c = contents map (W.words words.old) in All (IsSlot map c) (slots_at c.heap a)) }
    requires pages { PagesKnown map (contents map (W.words words.old)) }
    ensures filed { (let c = contents map (W.words words.old) in ChainsBecome map c (contents map (W.words words.new)) (λ x slots. all_filed map c x (slots_at c.heap a) slots)) }
    ensures sets { SetsHold map (contents map (W.words words.new)) }
    ensures others { contents map (W.words words.new) ≡ with_sets (contents map (W.words words.old)) (contents map (W.words words.new)) }
    ensures sound { Sound map (W.words words.new) }
    ensures reads { W.reads words.new ≤ W.reads words.old + (1 + 6 * fields_at (contents map (W.words words.old)).heap a) }
    ensures base { W.base words.new ≡ W.base words.old }
{
    let fields = object_size(words, map, a) - OBJECT_WORDS as u32;
    let first = a as u32 + OBJECT_WORDS as u32;
    for f in 0..fields {
        add_slot(words, map, Addr(first + f));
    }
}

/// Files the fields of each object that a plan has moved: each field whose reference enters a region other than the object's
/// space.
pub fn record_moved<W: Words>(words: &mut W, map: Areas, plan: &Plan)
    requires sound { Sound map (W.words words.old) }
    requires sets { SetsHold map (contents map (W.words words.old)) }
    requires room { MOVE_WORDS * plan.now.count ≤ heap_length map }
    requires moved { (let c = contents map (W.words words.old) in let moves = move_at c.scratch in (k : ℕ) → k < plan.now.count → HasHeader c.heap (moves k).new × ((moves k).new < heap_length map) × All (IsSlot map c) (slots_at c.heap (moves k).new)) }
    requires pages { PagesKnown map (contents map (W.words words.old)) }
    ensures filed { (let c = contents map (W.words words.old) in ChainsBecome map c (contents map (W.words words.new)) (λ x slots. all_filed map c x (slots_brought c.heap plan.now.count (move_at c.scratch)) slots)) }
    ensures sets { SetsHold map (contents map (W.words words.new)) }
    ensures others { contents map (W.words words.new) ≡ with_sets (contents map (W.words words.old)) (contents map (W.words words.new)) }
    ensures sound { Sound map (W.words words.new) }
    ensures reads { (let c = contents map (W.words words.old) in W.reads words.new ≤ W.reads words.old + 6 * words_brought c.heap plan.now.count (move_at c.scratch)) }
    ensures base { W.base words.new ≡ W.base words.old }
{
    for k in 0..plan.count {
        let v = read_move(words, map, k);
        record_object(words, map, v.new);
    }
}
