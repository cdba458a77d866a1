//! Plans of moves.

ghost use Rattle.std.specs.Prelude.{◌≡◌, ◌≤◌, ◌<◌, ◌+◌, ◌*◌, ℕ, slice_index, slice_set, unwrap_or};
ghost use Rattle.heap_words.specs.Map.{heap_length};
ghost use Rattle.heap_words.specs.Contents.{Sound, contents};
ghost use Rattle.epoch_lattice.specs.Lattice.{IsValid, space_of};
ghost use Rattle.relocation.specs.Moves.{heap_of, scratch_of, move_of, move_at, Numbered};

use epoch_lattice::{MAX_DEPTH, Space, index_of, space_at};
use heap_words::{Areas, Words, get_scratch, set_heap, set_scratch};
use object_layout::{Addr, MAX_SPACE};

/// The words of a move in the scratch area: the old address, the new address and the number of the new space.
pub const MOVE_WORDS: usize = 3;

/// A move of an object: the heap word at which it lies, the one to which it goes, and its new space.
#[derive(Clone, Copy, Debug, PartialEq, Eq, Drop)]
pub struct Move {
    pub old: usize,
    pub new: usize,
    pub space: Space,
}

/// A plan of moves, which stands in the scratch area. The moves go by ascending old addresses.
#[derive(Clone, Copy, Debug, PartialEq, Eq, Drop)]
pub struct Plan {
    /// The number of moves.
    pub count: u32,
}

/// A plan of no moves.
pub fn empty_plan<W: Words>(words: &mut W, map: Areas) -> Plan
    ensures none { result.count ≡ 0 }
    ensures words { words.new ≡ words.old }
{
    Plan { count: 0 }
}

/// The space of a word of a plan, and the control space where the word is no space's number.
fn space_of_word(word: u64) -> Space
    ensures { result ≡ unwrap_or (space_of word) Space.Control }
{
    if word > MAX_SPACE as u64 {
        return Space::Control;
    }
    match space_at(word as u8) {
        Some(space) => space,
        None => Space::Control,
    }
}

/// The move of a plan with a number, from 0.
#[tactic(auto, unfolding(crate::specs::Moves::move_at))]
pub fn read_move<W: Words>(words: &mut W, map: Areas, k: u32) -> Move
    requires sound { Sound map (W.words words.old) }
    requires within { MOVE_WORDS * k + 2 < heap_length map }
    ensures read { move_of result ≡ move_at (scratch_of map (W.words words.old)) k }
    ensures words { W.words words.new ≡ W.words words.old }
    ensures reads { W.reads words.new ≤ W.reads words.old + 3 }
    ensures base { W.base words.new ≡ W.base words.old }
{
    let first = MOVE_WORDS * k as usize;
    let old = get_scratch(words, map, first);
    let new = get_scratch(words, map, first + 1);
    let space = get_scratch(words, map, first + 2);
    Move {
        old: old as usize,
        new: new as usize,
        space: space_of_word(space),
    }
}

/// Adds a move to a plan, and writes its number plus 1 into the work word of the object that it moves.
/// Moves are added by ascending old addresses.
pub fn add_move<W: Words>(
    words: &mut W,
    map: Areas,
    plan: &mut Plan,
    old: Addr,
    new: Addr,
    space: Space,
)
    requires sound { Sound map (W.words words.old) }
    requires plan { Numbered map (heap_of map (W.words words.old)) plan.old.count (move_at (scratch_of map (W.words words.old))) }
    requires room { MOVE_WORDS * (plan.old.count + 1) ≤ heap_length map }
    requires ascending { (k : ℕ) → k < plan.old.count → (move_at (scratch_of map (W.words words.old)) k).old < old.0 }
    requires within { (old.0 + 2 < heap_length map) × (new.0 < heap_length map) }
    requires space { IsValid MAX_DEPTH space }
    ensures count { plan.new.count ≡ plan.old.count + 1 }
    ensures added { move_at (scratch_of map (W.words words.new)) plan.old.count ≡ record { old = old.0; new = new.0; space = space } }
    ensures former { (k : ℕ) → k < plan.old.count → move_at (scratch_of map (W.words words.new)) k ≡ move_at (scratch_of map (W.words words.old)) k }
    ensures others { (i : ℕ) → MOVE_WORDS * (plan.old.count + 1) ≤ i → slice_index (scratch_of map (W.words words.new)) i ≡ slice_index (scratch_of map (W.words words.old)) i }
    ensures marked { contents map (W.words words.new) ≡ (let c = contents map (W.words words.old) in record c { scratch = scratch_of map (W.words words.new); heap = slice_set c.heap (old.0 + 2) (plan.old.count + 1) }) }
    ensures plan { Numbered map (heap_of map (W.words words.new)) plan.new.count (move_at (scratch_of map (W.words words.new))) }
    ensures sound { Sound map (W.words words.new) }
    ensures reads { W.reads words.new ≡ W.reads words.old }
    ensures base { W.base words.new ≡ W.base words.old }
{
    let k = plan.count;
    let first = MOVE_WORDS * k as usize;
    set_scratch(words, map, first, old.0 as u64);
    set_scratch(words, map, first + 1, new.0 as u64);
    set_scratch(words, map, first + 2, index_of(space) as u64);
    set_heap(words, map, old.0 as usize + 2, k as u64 + 1);
    plan.count = k + 1;
}
