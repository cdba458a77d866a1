//! The correcting of the fields of the objects that a plan moves.

ghost use Rattle.std.specs.Prelude.{◌≡◌, ◌≤◌, ◌<◌, ◌+◌, ◌*◌, ◌⊎◌, ℕ, slice_index};
ghost use Rattle.heap_words.specs.Map.{heap_length};
ghost use Rattle.heap_words.specs.Contents.{Sound, contents, with_heap};
ghost use Rattle.yak_model.specs.Plans.{forward};
ghost use Rattle.relocation.specs.Moves.{heap_of, scratch_of, HasHeader, OnlyHeap, Numbered, move_at, size_at, corrected_word, words_moved};
ghost use Rattle.relocation.specs.Fields.{FieldsCorrected, LeadWithin, Lined, MovesCorrected};

use crate::corrections::correct;
use crate::plans::{Plan, read_move};
use crate::slides::object_size;
use heap_words::{Areas, Words};
use object_layout::OBJECT_WORDS;

/// Corrects the value word at an address of the heap.
pub fn correct_field<W: Words>(words: &mut W, map: Areas, plan: &Plan, i: usize)
    requires sound { Sound map (W.words words.old) }
    requires plan { Numbered map (heap_of map (W.words words.old)) plan.now.count (move_at (scratch_of map (W.words words.old))) }
    requires within { i < heap_length map }
    requires reference { (b : ℕ) → slice_index (heap_of map (W.words words.old)) i ≡ 2 * (b + 1) → b + 2 < heap_length map }
    ensures set { contents map (W.words words.new) ≡ with_heap (contents map (W.words words.old)) i (corrected_word (forward plan.now.count (move_at (scratch_of map (W.words words.old)))) (slice_index (heap_of map (W.words words.old)) i)) }
    ensures sound { Sound map (W.words words.new) }
    ensures reads { W.reads words.new ≤ W.reads words.old + 4 }
    ensures base { W.base words.new ≡ W.base words.old }
{
    correct(words, map, plan, map.heap() + i);
}

/// Corrects the fields of the object at an address.
pub fn correct_fields<W: Words>(words: &mut W, map: Areas, plan: &Plan, a: usize)
    requires sound { Sound map (W.words words.old) }
    requires plan { Numbered map (heap_of map (W.words words.old)) plan.now.count (move_at (scratch_of map (W.words words.old))) }
    requires header { HasHeader (heap_of map (W.words words.old)) a }
    requires within { a + size_at (heap_of map (W.words words.old)) a ≤ heap_length map }
    requires lead { LeadWithin map (heap_of map (W.words words.old)) (a + 3) (a + size_at (heap_of map (W.words words.old)) a) }
    requires beside { (k : ℕ) → k < plan.now.count → (let v = move_at (scratch_of map (W.words words.old)) k in (v.old + 2 < a + 3) ⊎ (a + size_at (heap_of map (W.words words.old)) a ≤ v.old + 2)) }
    ensures fields { FieldsCorrected (forward plan.now.count (move_at (scratch_of map (W.words words.old)))) (heap_of map (W.words words.old)) (heap_of map (W.words words.new)) a (size_at (heap_of map (W.words words.old)) a) }
    ensures only_heap { OnlyHeap map (W.words words.old) (W.words words.new) }
    ensures plan { Numbered map (heap_of map (W.words words.new)) plan.now.count (move_at (scratch_of map (W.words words.old))) }
    ensures sound { Sound map (W.words words.new) }
    ensures reads { W.reads words.new ≤ W.reads words.old + 4 * size_at (heap_of map (W.words words.old)) a }
    ensures base { W.base words.new ≡ W.base words.old }
{
    let size = object_size(words, map, a);
    for f in OBJECT_WORDS as u32..size {
        correct_field(words, map, plan, a + f as usize);
    }
}

/// Corrects the fields of the objects that a plan moves.
pub fn correct_moves<W: Words>(words: &mut W, map: Areas, plan: &Plan)
    requires sound { Sound map (W.words words.old) }
    requires plan { Numbered map (heap_of map (W.words words.old)) plan.now.count (move_at (scratch_of map (W.words words.old))) }
    requires lined { Lined map (heap_of map (W.words words.old)) plan.now.count (move_at (scratch_of map (W.words words.old))) }
    ensures fields { (let moves = move_at (scratch_of map (W.words words.old)) in MovesCorrected (forward plan.now.count moves) (heap_of map (W.words words.old)) (heap_of map (W.words words.new)) plan.now.count moves) }
    ensures only_heap { OnlyHeap map (W.words words.old) (W.words words.new) }
    ensures plan { Numbered map (heap_of map (W.words words.new)) plan.now.count (move_at (scratch_of map (W.words words.old))) }
    ensures sound { Sound map (W.words words.new) }
    ensures reads { W.reads words.new ≤ W.reads words.old + 4 * words_moved (heap_of map (W.words words.old)) plan.now.count (move_at (scratch_of map (W.words words.old))) + 3 * plan.now.count }
    ensures base { W.base words.new ≡ W.base words.old }
{
    for k in 0..plan.count {
        let v = read_move(words, map, k);
        correct_fields(words, map, plan, v.old);
    }
}
