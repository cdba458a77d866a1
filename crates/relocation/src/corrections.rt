//! The correcting of references by a plan.

ghost use Rattle.std.specs.Prelude.{◌≡◌, ◌≤◌, ◌<◌, ◌+◌, ◌*◌, ℕ, length, slice_index, slice_set};
ghost use Rattle.object_layout.specs.declared.names.Name.{Name};
ghost use Rattle.heap_words.specs.Map.{HasThread, block_at, heap_at, heap_length, stack_start};
ghost use Rattle.heap_words.specs.Contents.{Sound, contents, stack_of, with_heap, with_stack};
ghost use Rattle.yak_model.specs.declared.datum.Datum.{Datum};
ghost use Rattle.yak_model.specs.Placed.{datum_word};
ghost use Rattle.yak_model.specs.Plans.{forward, forwarded};
ghost use Rattle.relocation.specs.Moves.{heap_of, scratch_of, move_at, Numbered, corrected_word};

use crate::plans::{MOVE_WORDS, Plan};
use heap_words::{Areas, Words, get_heap, get_scratch};
use object_layout::{Addr, Value, address, encode_value};

/// Where a plan brings the object at an address.
fn new_place<W: Words>(words: &mut W, map: Areas, plan: &Plan, a: usize) -> usize
    requires sound { Sound map (W.words words.old) }
    requires plan { Numbered map (heap_of map (W.words words.old)) plan.now.count (move_at (scratch_of map (W.words words.old))) }
    requires within { a + 2 < heap_length map }
    ensures place { result ≡ forward plan.now.count (move_at (scratch_of map (W.words words.old))) a }
    ensures within { result < heap_length map }
    ensures words { W.words words.new ≡ W.words words.old }
    ensures reads { W.reads words.new ≤ W.reads words.old + 3 }
    ensures base { W.base words.new ≡ W.base words.old }
{
    let index = get_heap(words, map, a + 2);
    if index == 0 {
        return a;
    }
    if index > plan.count as u64 {
        return a;
    }
    let first = MOVE_WORDS * (index as usize - 1);
    let old = get_scratch(words, map, first);
    if old != a as u64 {
        return a;
    }
    get_scratch(words, map, first + 1) as usize
}

/// The value word that a plan makes of one: a reference leads where the plan brings the object, and any other
/// word stays.
fn corrected<W: Words>(words: &mut W, map: Areas, plan: &Plan, word: u64) -> u64
    requires sound { Sound map (W.words words.old) }
    requires plan { Numbered map (heap_of map (W.words words.old)) plan.now.count (move_at (scratch_of map (W.words words.old))) }
    requires reference { (a : ℕ) → word ≡ 2 * (a + 1) → a + 2 < heap_length map }
    ensures word { result ≡ corrected_word (forward plan.now.count (move_at (scratch_of map (W.words words.old)))) word }
    ensures words { W.words words.new ≡ W.words words.old }
    ensures reads { W.reads words.new ≤ W.reads words.old + 3 }
    ensures base { W.base words.new ≡ W.base words.old }
{
    let Some(a) = address(word) else {
        return word;
    };
    let new = new_place(words, map, plan, a);
    encode_value(Value::Ref(Addr(new as u32)))
}

/// Corrects the value word at a place, that of a stack slot or of a field: a reference leads where the plan
/// brings the object, and any other word stays. It takes at most four reads.
pub fn correct<W: Words>(words: &mut W, map: Areas, plan: &Plan, word_at: usize)
    requires sound { Sound map (W.words words.old) }
    requires plan { Numbered map (heap_of map (W.words words.old)) plan.now.count (move_at (scratch_of map (W.words words.old))) }
    requires place { (1 ≤ word_at) × (word_at < length (W.words words.old)) }
    requires reference { (a : ℕ) → slice_index (W.words words.old) word_at ≡ 2 * (a + 1) → a + 2 < heap_length map }
    ensures words { W.words words.new ≡ slice_set (W.words words.old) word_at (corrected_word (forward plan.now.count (move_at (scratch_of map (W.words words.old)))) (slice_index (W.words words.old) word_at)) }
    ensures value { (at : Name → ℕ) (d : Datum) → slice_index (W.words words.old) word_at ≡ datum_word at d → slice_index (W.words words.new) word_at ≡ datum_word (forwarded plan.now.count (move_at (scratch_of map (W.words words.old))) at) d }
    ensures field { (a : ℕ) → a < heap_length map → word_at ≡ heap_at map + a → (contents map (W.words words.new) ≡ with_heap (contents map (W.words words.old)) a (corrected_word (forward plan.now.count (move_at (scratch_of map (W.words words.old)))) (slice_index (heap_of map (W.words words.old)) a))) × Sound map (W.words words.new) }
    ensures slot { (t k : ℕ) → HasThread map t → k < length (stack_of (contents map (W.words words.old)) t) → word_at ≡ block_at map t + (stack_start map + k) → (contents map (W.words words.new) ≡ (let c = contents map (W.words words.old) in with_stack c t (slice_set (stack_of c t) k (corrected_word (forward plan.now.count (move_at c.scratch)) (slice_index (stack_of c t) k))))) × Sound map (W.words words.new) }
    ensures reads { W.reads words.new ≤ W.reads words.old + 4 }
    ensures base { W.base words.new ≡ W.base words.old }
{
    let word = words.get(word_at);
    let new = corrected(words, map, plan, word);
    words.set(word_at, new);
}
