//! Recorded slots of the objects that a slide has left behind.

ghost use Rattle.std.specs.Prelude.{◌≡◌, ◌≤◌, ◌<◌, ◌+◌, ◌*◌, ◌==◌, ◌&&◌, ℕ, nat_lt, not};
ghost use Rattle.std.specs.List.{filter};
ghost use Rattle.heap_words.specs.Map.{heap_length};
ghost use Rattle.heap_words.specs.Contents.{Sound, contents};
ghost use Rattle.relocation.specs.declared.plans.TheConstants.{MOVE_WORDS};
ghost use Rattle.relocation.specs.Moves.{move_at};
ghost use Rattle.remember_sets.specs.Filed.{ChainsBecome, SetsHold, page_word, with_sets};
ghost use Rattle.forwarding.specs.Slots.{AreAscending, is_kept};

use heap_words::{Areas, Words, get_page};
use object_layout::Addr;
use relocation::{Plan, object_size, read_move};
use remember_sets::drop_slot;

/// Drops a recorded slot that lies in no page of a region.
fn drop_outside<W: Words>(words: &mut W, map: Areas, a: usize)
    requires sound { Sound map (W.words words.old) }
    requires sets { SetsHold map (contents map (W.words words.old)) }
    requires within { a < heap_length map }
    ensures dropped { (let c = contents map (W.words words.old) in ChainsBecome map c (contents map (W.words words.new)) (λ _ slots. filter (λ b. not ((b == a) && nat_lt (page_word map c b) 2)) slots)) }
    ensures sets { SetsHold map (contents map (W.words words.new)) }
    ensures others { contents map (W.words words.new) ≡ with_sets (contents map (W.words words.old)) (contents map (W.words words.new)) }
    ensures sound { Sound map (W.words words.new) }
    ensures base { W.base words.new ≡ W.base words.old }
{
    let page = (a / map.page_words() as usize) as u32;
    if get_page(words, map, page, 0) < 2 {
        drop_slot(words, map, Addr(a as u32));
    }
}

/// Drops the recorded slots from one word of the heap to another that lie in no page of a region.
fn drop_gap<W: Words>(words: &mut W, map: Areas, from: usize, to: usize)
    requires sound { Sound map (W.words words.old) }
    requires sets { SetsHold map (contents map (W.words words.old)) }
    requires order { from ≤ to }
    requires within { to ≤ heap_length map }
    ensures dropped { (let c = contents map (W.words words.old) in ChainsBecome map c (contents map (W.words words.new)) (λ _ slots. filter (λ b. not ((not (nat_lt b from) && nat_lt b to) && nat_lt (page_word map c b) 2)) slots)) }
    ensures sets { SetsHold map (contents map (W.words words.new)) }
    ensures others { contents map (W.words words.new) ≡ with_sets (contents map (W.words words.old)) (contents map (W.words words.new)) }
    ensures sound { Sound map (W.words words.new) }
    ensures base { W.base words.new ≡ W.base words.old }
{
    for a in from..to {
        drop_outside(words, map, a);
    }
}

/// Drops the recorded slots of the objects that a slide has left behind: those that lie in no page of a region, nor in the old
/// place of an object that the plan has moved.
pub fn drop_others<W: Words>(words: &mut W, map: Areas, plan: &Plan)
    requires sound { Sound map (W.words words.old) }
    requires sets { SetsHold map (contents map (W.words words.old)) }
    requires room { MOVE_WORDS * plan.now.count ≤ heap_length map }
    requires ascending { (let c = contents map (W.words words.old) in AreAscending map c.heap plan.now.count (move_at c.scratch)) }
    ensures dropped { (let c = contents map (W.words words.old) in ChainsBecome map c (contents map (W.words words.new)) (λ _ slots. filter (is_kept map c plan.now.count (move_at c.scratch)) slots)) }
    ensures sets { SetsHold map (contents map (W.words words.new)) }
    ensures others { contents map (W.words words.new) ≡ with_sets (contents map (W.words words.old)) (contents map (W.words words.new)) }
    ensures sound { Sound map (W.words words.new) }
    ensures base { W.base words.new ≡ W.base words.old }
{
    let mut from = 0;
    for k in 0..plan.count {
        let v = read_move(words, map, k);
        drop_gap(words, map, from, v.old);
        from = v.old + object_size(words, map, v.new) as usize;
    }
    drop_gap(words, map, from, map.heap_length());
}
