//! Targets in work words, which rise until they are settled.

ghost use Rattle.std.specs.Prelude.{◌≡◌, ◌≢◌, ◌≤◌, ◌<◌, ◌+◌, ◌-◌, ◌*◌, ◌^◌, ◌↔◌, ◌==◌, cond, ℕ, IsTrue, length, MatchOption, IfSome, Option, Some, None};
ghost use Rattle.object_layout.specs.declared.TheConstants.{MAX_FIELDS, MAX_SPACE, HEADER_BASE, SPACE_UNIT};
ghost use Rattle.epoch_lattice.specs.declared.TheConstants.{MAX_DEPTH};
ghost use Rattle.epoch_lattice.specs.Lattice.{IsBelow, IsValid, join_of, space_index};
ghost use Rattle.heap_words.specs.Contents.{contents, Sound};
ghost use Rattle.escape_closure.specs.Words.{waiting_word, TellsTarget, weights};
ghost use Rattle.escape_closure.specs.Raising.{Ended, Raising, RaisesOn, IsOwed, IsPaid, IsDueAt, AreFieldsPaid, Scans};

use crate::{WAITING, WORK_WORD};
use epoch_lattice::{Space, index_of, join, space_at};
use heap_words::{Areas, Words, get_heap, get_scratch, set_heap, set_scratch};
use object_layout::{OBJECT_WORDS, address, decode_header, field_count};

/// How many objects wait on the list, and how many have a target.
#[derive(Clone, Copy, Debug, PartialEq, Eq, Drop)]
pub(crate) struct Tally {
    pub waiting: usize,
    pub escaping: u32,
}

/// The tally with one more on the list, whose work word was so before.
pub(crate) fn grown(tally: Tally, work: u64) -> Tally
    requires waiting { tally.waiting < 2 ^ 32 }
    requires escaping { work ≡ 0 → tally.escaping + 1 < 2 ^ 32 }
    ensures { result ≡ record { waiting = tally.waiting + 1; escaping = cond (work == 0) (tally.escaping + 1) tally.escaping } }
{
    let escaping = if work == 0 {
        tally.escaping + 1
    } else {
        tally.escaping
    };
    Tally {
        waiting: tally.waiting + 1,
        escaping,
    }
}

/// The target that a work word tells.
pub(crate) fn target_of(work: u64) -> Option<Space>
    ensures none { work ≡ 0 → result ≡ None }
    ensures some { (x : Space) → IsValid MAX_DEPTH x → TellsTarget work x → result ≡ Some x }
    ensures valid { IfSome result (λ x. IsValid MAX_DEPTH x) }
{
    let told = work % WAITING;
    if told == 0 {
        return None;
    }
    space_at((told - 1) as u8)
}

/// The work word after a space reaches an object, where its target rises.
pub(crate) fn risen(work: u64, space: Space) -> Option<u64>
    requires { IsValid MAX_DEPTH space }
    ensures first { work ≡ 0 → result ≡ Some (waiting_word space) }
    ensures later { (x : Space) → IsValid MAX_DEPTH x → TellsTarget work x → MatchOption result (IsBelow space x) (λ w. (w ≡ waiting_word (join_of x space)) × (join_of x space ≢ x)) }
{
    match target_of(work) {
        None => Some(WAITING + (index_of(space) as u64 + 1)),
        Some(old) => {
            let new = join(old, space);
            if new == old {
                None
            } else {
                Some(WAITING + (index_of(new) as u64 + 1))
            }
        }
    }
}

/// Whether a header is that of an object of the space of an index.
pub(crate) fn is_in(word: u64, index: u8) -> bool
    ensures { (fields space : ℕ) → fields ≤ MAX_FIELDS → space ≤ MAX_SPACE → word ≡ HEADER_BASE + SPACE_UNIT * space + fields → IsTrue result ↔ (space ≡ index) }
{
    match decode_header(word) {
        Some(header) => header.space == index,
        None => false,
    }
}

/// Raises the target of the object of the region to which a value word refers, where a space isn't below it, and puts the
/// object on the list, where it doesn't wait there.
pub(crate) fn raise<W: Words>(
    words: &mut W,
    map: Areas,
    tally: Tally,
    region: u8,
    word: u64,
    space: Space,
) -> Tally
    requires sound { Sound map (W.words words.old) }
    requires valid { IsValid MAX_DEPTH space }
    requires some { ∥ ((e : Ended) × (space_index e.region ≡ region) × Raising map e (contents map (W.words words.old)) tally × IsOwed e word space) ∥₁ }
    ensures raising { (e : Ended) → space_index e.region ≡ region → Raising map e (contents map (W.words words.old)) tally → IsOwed e word space → RaisesOn map e (contents map (W.words words.old)) (contents map (W.words words.new)) result × IsPaid e (contents map (W.words words.new)) word space }
    ensures sound { Sound map (W.words words.new) }
    ensures reads { W.reads words.new ≤ W.reads words.old + 2 }
    ensures base { W.base words.new ≡ W.base words.old }
{
    let Some(a) = address(word) else {
        return tally;
    };
    let header = get_heap(words, map, a);
    if !is_in(header, region) {
        return tally;
    }
    let work = get_heap(words, map, a + WORK_WORD);
    let Some(new) = risen(work, space) else {
        return tally;
    };
    set_heap(words, map, a + WORK_WORD, new);
    if work >= WAITING {
        return tally;
    }
    set_scratch(words, map, tally.waiting, a as u64);
    grown(tally, work)
}

/// Raises the targets of the objects of the region to which the fields of the object at an address refer.
pub(crate) fn raise_fields<W: Words>(
    words: &mut W,
    map: Areas,
    tally: Tally,
    region: u8,
    a: usize,
    space: Space,
) -> Tally
    requires sound { Sound map (W.words words.old) }
    requires valid { IsValid MAX_DEPTH space }
    requires some { ∥ ((e : Ended) × (space_index e.region ≡ region) × Raising map e (contents map (W.words words.old)) tally × IsDueAt e a space) ∥₁ }
    ensures raising { (e : Ended) → space_index e.region ≡ region → Raising map e (contents map (W.words words.old)) tally → (due : IsDueAt e a space) → RaisesOn map e (contents map (W.words words.old)) (contents map (W.words words.new)) result × AreFieldsPaid e (contents map (W.words words.new)) a space × (W.reads words.new ≤ W.reads words.old + (1 + 3 * length due.object.fields)) }
    ensures sound { Sound map (W.words words.new) }
    ensures base { W.base words.new ≡ W.base words.old }
{
    let fields = field_count(get_heap(words, map, a));
    let mut tally = tally;
    for f in 0..fields {
        let word = get_heap(words, map, a + OBJECT_WORDS as usize + f);
        tally = raise(words, map, tally, region, word, space);
    }
    tally
}

/// Takes the last object off the list, and raises the targets of the objects of the region to which its fields refer.
pub(crate) fn scan_last<W: Words>(words: &mut W, map: Areas, tally: Tally, region: u8) -> Tally
    requires sound { Sound map (W.words words.old) }
    requires some { ∥ ((e : Ended) × (space_index e.region ≡ region) × Raising map e (contents map (W.words words.old)) tally) ∥₁ }
    requires waits { 0 < tally.waiting }
    ensures scans { (e : Ended) → space_index e.region ≡ region → Raising map e (contents map (W.words words.old)) tally → Scans map e (contents map (W.words words.old)) (W.reads words.old) (contents map (W.words words.new)) (W.reads words.new) result }
    ensures lighter { weights (contents map (W.words words.new)).heap < weights (contents map (W.words words.old)).heap }
    ensures sound { Sound map (W.words words.new) }
    ensures base { W.base words.new ≡ W.base words.old }
{
    let last = Tally {
        waiting: tally.waiting - 1,
        escaping: tally.escaping,
    };
    let a = get_scratch(words, map, last.waiting) as usize;
    let work = get_heap(words, map, a + WORK_WORD);
    let Some(space) = target_of(work) else {
        return last;
    };
    set_heap(words, map, a + WORK_WORD, work - WAITING);
    raise_fields(words, map, last, region, a, space)
}

/// Raises targets until no object waits on the list.
pub(crate) fn drain<W: Words>(words: &mut W, map: Areas, tally: Tally, region: u8) -> u32
    requires sound { Sound map (W.words words.old) }
    requires some { ∥ ((e : Ended) × (space_index e.region ≡ region) × Raising map e (contents map (W.words words.old)) tally) ∥₁ }
    ensures scans { (e : Ended) → space_index e.region ≡ region → Raising map e (contents map (W.words words.old)) tally → Scans map e (contents map (W.words words.old)) (W.reads words.old) (contents map (W.words words.new)) (W.reads words.new) (record { waiting = 0; escaping = result }) }
    ensures sound { Sound map (W.words words.new) }
    ensures base { W.base words.new ≡ W.base words.old }
{
    let mut tally = tally;
    while tally.waiting > 0 {
        tally = scan_last(words, map, tally, region);
    }
    tally.escaping
}
