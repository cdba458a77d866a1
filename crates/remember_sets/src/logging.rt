//! The store buffers of the threads, and how they are filed.

ghost use Rattle.std.specs.Prelude.{◌≡◌, ◌≤◌, ◌<◌, ◌+◌, ◌-◌, ◌*◌, ◌^◌, ℕ, List, [], ◌∷◌, ◌++◌, length, slice_index, MatchResult};
ghost use Rattle.std.specs.List.{All};
ghost use Rattle.heap_words.specs.Map.{HasThread, heap_length};
ghost use Rattle.heap_words.specs.Contents.{contents, buffer_of, with_buffer, Sound};
ghost use Rattle.remember_sets.specs.Filed.{BuffersHold, ChainsBecome, IsSlot, PagesKnown, SetsHold, all_filed, logged, with_no_logs, with_sets};

use crate::add_slot;
use heap_words::{
    Areas, BUFFER_ENTRIES, Words, buffer_length, clear_buffer, get_buffer, grow_buffer,
};
use object_layout::{Addr, LogFull};

/// Puts a slot into a thread's store buffer, which is refused exactly where all its entries are in use.
pub fn log<W: Words>(words: &mut W, map: Areas, thread: u8, slot: Addr) -> Result<(), LogFull>
    requires sound { Sound map (W.words words.old) }
    requires thread { HasThread map thread }
    requires within { slot.0 < heap_length map }
    ensures logged { let c = contents map (W.words words.old) in let buffer = buffer_of c thread in MatchResult result (λ _. (length buffer < BUFFER_ENTRIES) × (contents map (W.words words.new) ≡ with_buffer c thread (buffer ++ slot.0 ∷ []))) (λ _. (length buffer ≡ BUFFER_ENTRIES) × (W.words words.new ≡ W.words words.old)) }
    ensures sound { Sound map (W.words words.new) }
    ensures reads { W.reads words.new ≤ W.reads words.old + 1 }
    ensures base { W.base words.new ≡ W.base words.old }
{
    let count = buffer_length(words, map, thread);
    if count >= BUFFER_ENTRIES {
        return Err(LogFull);
    }
    grow_buffer(words, map, thread, count, u64::from(slot.0));
    Ok(())
}

/// Files the entries of a thread's store buffer, from the first one on, and empties it.
fn file_buffer<W: Words>(words: &mut W, map: Areas, thread: u8)
    requires sound { Sound map (W.words words.old) }
    requires sets { SetsHold map (contents map (W.words words.old)) }
    requires thread { HasThread map thread }
    requires buffer { (let c = contents map (W.words words.old) in All (IsSlot map c) (buffer_of c thread)) }
    requires pages { PagesKnown map (contents map (W.words words.old)) }
    ensures filed { (let c = contents map (W.words words.old) in ChainsBecome map c (contents map (W.words words.new)) (λ x slots. all_filed map c x (buffer_of c thread) slots)) }
    ensures sets { SetsHold map (contents map (W.words words.new)) }
    ensures others { contents map (W.words words.new) ≡ with_buffer (with_sets (contents map (W.words words.old)) (contents map (W.words words.new))) thread [] }
    ensures sound { Sound map (W.words words.new) }
    ensures reads { W.reads words.new ≤ W.reads words.old + 1 + 7 * length (buffer_of (contents map (W.words words.old)) thread) }
    ensures base { W.base words.new ≡ W.base words.old }
{
    let count = buffer_length(words, map, thread);
    for k in 0..count {
        let slot = get_buffer(words, map, thread, k);
        add_slot(words, map, Addr(slot as u32));
    }
    clear_buffer(words, map, thread);
}

/// Files the entries of all store buffers, from the first one of thread 1 on, and empties them. Each slot of a buffer stands
/// afterwards in the chain of the region that its reference enters, and in none where it enters no region from outside.
pub fn file_logs<W: Words>(words: &mut W, map: Areas)
    requires sound { Sound map (W.words words.old) }
    requires sets { SetsHold map (contents map (W.words words.old)) }
    requires buffers { BuffersHold map (contents map (W.words words.old)) }
    requires pages { PagesKnown map (contents map (W.words words.old)) }
    ensures filed { (let c = contents map (W.words words.old) in ChainsBecome map c (contents map (W.words words.new)) (λ x slots. all_filed map c x (logged c) slots)) }
    ensures sets { SetsHold map (contents map (W.words words.new)) }
    ensures others { contents map (W.words words.new) ≡ with_no_logs map (with_sets (contents map (W.words words.old)) (contents map (W.words words.new))) }
    ensures sound { Sound map (W.words words.new) }
    ensures reads { W.reads words.new ≤ W.reads words.old + map.threads + 7 * length (logged (contents map (W.words words.old))) }
    ensures base { W.base words.new ≡ W.base words.old }
{
    for t in 0..map.threads {
        file_buffer(words, map, t + 1);
    }
}
