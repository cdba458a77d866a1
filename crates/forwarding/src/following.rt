//! Recorded slots that follow the objects of a slide.

ghost use Rattle.std.specs.Prelude.{◌≡◌, ◌≤◌, ◌<◌, ◌+◌, ◌*◌, ◌⊎◌, ℕ};
ghost use Rattle.heap_words.specs.Map.{heap_length};
ghost use Rattle.heap_words.specs.Contents.{Sound, contents};
ghost use Rattle.object_layout.specs.declared.TheConstants.{OBJECT_WORDS};
ghost use Rattle.relocation.specs.declared.plans.TheConstants.{MOVE_WORDS};
ghost use Rattle.relocation.specs.Moves.{HasHeader, fields_at, move_at};
ghost use Rattle.remember_sets.specs.Filed.{ChainsBecome, IsFiled, SetsHold, moved_slot, with_sets};
ghost use Rattle.forwarding.specs.Slots.{CanFollow, followed, moved_run};

use heap_words::{Areas, Words};
use object_layout::{Addr, OBJECT_WORDS};
use relocation::{Plan, object_size, read_move};
use remember_sets::{is_filed, move_slot};

/// Puts a slot at the place of another one, if that one stands in a chain.
fn follow_slot<W: Words>(words: &mut W, map: Areas, old: Addr, new: Addr)
    requires sound { Sound map (W.words words.old) }
    requires sets { SetsHold map (contents map (W.words words.old)) }
    requires old { old.0 < heap_length map }
    requires within { new.0 < heap_length map }
    requires new { IsFiled map (contents map (W.words words.old)) old.0 → (new.0 ≡ old.0) ⊎ (IsFiled map (contents map (W.words words.old)) new.0 → ⊥) }
    ensures moved { ChainsBecome map (contents map (W.words words.old)) (contents map (W.words words.new)) (λ _ slots. moved_slot old.0 new.0 slots) }
    ensures sets { SetsHold map (contents map (W.words words.new)) }
    ensures others { contents map (W.words words.new) ≡ with_sets (contents map (W.words words.old)) (contents map (W.words words.new)) }
    ensures sound { Sound map (W.words words.new) }
    ensures reads { W.reads words.new ≤ W.reads words.old + 5 }
    ensures base { W.base words.new ≡ W.base words.old }
{
    if is_filed(words, map, old) {
        move_slot(words, map, old, new);
    }
}

/// Lets the recorded fields of an object that has gone to the front follow it.
fn follow_object<W: Words>(words: &mut W, map: Areas, old: usize, new: usize)
    requires sound { Sound map (W.words words.old) }
    requires sets { SetsHold map (contents map (W.words words.old)) }
    requires header { HasHeader (contents map (W.words words.old)).heap new }
    requires front { new ≤ old }
    requires within { old + OBJECT_WORDS + fields_at (contents map (W.words words.old)).heap new ≤ heap_length map }
    requires meets { (let c = contents map (W.words words.old) in (f : ℕ) → f < fields_at c.heap new → IsFiled map c (new + OBJECT_WORDS + f) → old ≤ new + f) }
    ensures moved { (let c = contents map (W.words words.old) in ChainsBecome map c (contents map (W.words words.new)) (λ _ slots. moved_run (old + OBJECT_WORDS) (new + OBJECT_WORDS) (fields_at c.heap new) slots)) }
    ensures sets { SetsHold map (contents map (W.words words.new)) }
    ensures others { contents map (W.words words.new) ≡ with_sets (contents map (W.words words.old)) (contents map (W.words words.new)) }
    ensures sound { Sound map (W.words words.new) }
    ensures base { W.base words.new ≡ W.base words.old }
{
    let fields = object_size(words, map, new) - OBJECT_WORDS as u32;
    let from = old as u32 + OBJECT_WORDS as u32;
    let to = new as u32 + OBJECT_WORDS as u32;
    for f in 0..fields {
        follow_slot(words, map, Addr(from + f), Addr(to + f));
    }
}

/// Lets the recorded fields of the objects that a plan has slid follow them, one object after another: each keeps its place in
/// its chain.
pub fn follow_moves<W: Words>(words: &mut W, map: Areas, plan: &Plan)
    requires sound { Sound map (W.words words.old) }
    requires sets { SetsHold map (contents map (W.words words.old)) }
    requires room { MOVE_WORDS * plan.now.count ≤ heap_length map }
    requires can_follow { (let c = contents map (W.words words.old) in CanFollow map c.heap (IsFiled map c) plan.now.count (move_at c.scratch)) }
    ensures moved { (let c = contents map (W.words words.old) in ChainsBecome map c (contents map (W.words words.new)) (λ _ slots. followed c.heap plan.now.count (move_at c.scratch) slots)) }
    ensures sets { SetsHold map (contents map (W.words words.new)) }
    ensures others { contents map (W.words words.new) ≡ with_sets (contents map (W.words words.old)) (contents map (W.words words.new)) }
    ensures sound { Sound map (W.words words.new) }
    ensures base { W.base words.new ≡ W.base words.old }
{
    for k in 0..plan.count {
        let v = read_move(words, map, k);
        follow_object(words, map, v.old, v.new);
    }
}
