//! What a caller notes of the words of a table, to find their entries sooner. No call on a table believes a note: it is a hint of
//! where to look first.
ghost use Rattle.std.specs.Prelude.{◌≡◌, ℕ, ◌+◌, ◌/◌, ◌<◌, ◌≤◌, List, length, Some, slice_index};
ghost use Rattle.yak_model.specs.declared.TheConstants.{GROUP_BYTES};
ghost use Rattle.yak_model.specs.Tables.{group};
ghost use Rattle.heap_tables.specs.declared.TheConstants.{KEY_BYTES};

use crate::keys::group;
use crate::{NOTED, WINDOW};
use yak_model::GROUP_BYTES;

/// The number by which a word is noted. Words of one number are few.
pub(crate) fn mark(word: &[u8]) -> u64
    requires word { length word.now ≤ KEY_BYTES }
    ensures mark { result ≡ group word.now 0 + group word.now (length word.now / (GROUP_BYTES + 1)) }
{
    group(word, 0) + group(word, word.len() as u32 / (GROUP_BYTES as u32 + 1))
}

/// The place in a bucket's chain, from its front, where the word of a number was noted last.
pub(crate) fn place_of(notes: &[u64], bucket: u32, mark: u64) -> Option<u32>
    ensures noted { (p : ℕ) → result ≡ Some p → (i : ℕ) × (i < length notes.now) × (slice_index notes.now i ≡ mark) }
{
    let start = bucket as usize * NOTED;
    if notes.len() < start + NOTED {
        return None;
    }
    let words = notes[start];
    if words > u64::from(u32::MAX) {
        return None;
    }
    for i in 1..NOTED {
        if words < i as u64 {
            return None;
        }
        if notes[start + i] == mark {
            return Some((words - i as u64) as u32);
        }
    }
    None
}

/// Notes that the word of a number was put at the front of a bucket's chain. Where the notes on the bucket are full, it is
/// counted alone.
pub(crate) fn note(notes: &mut [u64], bucket: u32, mark: u64)
    ensures length { length notes.new ≡ length notes.old }
{
    let start = bucket as usize * NOTED;
    if notes.len() < start + NOTED {
        return;
    }
    let words = notes[start];
    if words == u64::MAX {
        return;
    }
    if words + 1 < NOTED as u64 {
        notes[start + words as usize + 1] = mark;
    }
    notes[start] = words + 1;
}

/// The place in a bucket's chain from which on the entries are laid out: those at the end, which came first, are met most often.
pub(crate) fn window_of(notes: &[u64], bucket: u32) -> u32
    ensures none { length notes.now ≡ 0 → result ≡ 0 }
{
    let start = bucket as usize * NOTED;
    if notes.len() < start + NOTED {
        return 0;
    }
    let words = notes[start];
    if words < WINDOW || words > u64::from(u32::MAX) {
        return 0;
    }
    (words - WINDOW) as u32
}
