//! What loads and stores record of the references that cross into regions.

ghost use Rattle.std.specs.Prelude.{◌≡◌, ◌≤◌, ◌<◌, ◌+◌, ◌↔◌, ℕ, length, IfSome, IsTrue};
ghost use Rattle.heap_words.specs.Map.{HasThread, heap_length};
ghost use Rattle.heap_words.specs.Contents.{contents, Sound};
ghost use Rattle.yak_model.specs.Graph.{slot_of};
ghost use Rattle.yak_model.specs.Packed.{IsSpaceOf};
ghost use Rattle.yak_model.specs.Spaces.{SpaceState};
ghost use Rattle.yak_model.specs.Stands.{Stands};
ghost use Rattle.standing_calls.specs.Records.{AreAlikeOthers, Crosses, IsWordOf, Logs, LogsHold, MarksReader, RecordsSlot, home_at, with_logs};
ghost use Rattle.remember_sets.specs.Filed.{SetsHold};

use epoch_lattice::{Space, space_at};
use heap_words::{Areas, Words, get_heap};
use object_layout::{Addr, address, decode_header};
use remember_sets::{file_logs, log, set_reader};
use thread_stacks::slot;

/// The space of the object to which a value's word refers, or `None` where it isn't a reference.
pub fn space_of_word<W: Words>(words: &mut W, map: Areas, word: u64) -> Option<Space>
    requires sound { Sound map (W.words words.old) }
    requires value { ∥ ((s : SpaceState) × (h : Stands map (contents map (W.words words.old)) s) × IsWordOf s h.places.at word) ∥₁ }
    ensures space { (s : SpaceState) (h : Stands map (contents map (W.words words.old)) s) (v : IsWordOf s h.places.at word) → result ≡ home_at s v.value }
    ensures own { IfSome result (λ x. IsSpaceOf map x) }
    ensures words { W.words words.new ≡ W.words words.old }
    ensures base { W.base words.new ≡ W.base words.old }
{
    let Some(object) = address(word) else {
        return None;
    };
    let Some(header) = decode_header(get_heap(words, map, object)) else {
        return None;
    };
    space_at(header.space)
}

/// The space of the object to which a value's word refers, as far as it may be a region of another thread: where there is one
/// thread alone, none is.
#[inline(always)]
pub fn space_entered<W: Words>(words: &mut W, map: Areas, thread: u8, word: u64) -> Option<Space>
    requires sound { Sound map (W.words words.old) }
    requires thread { HasThread map thread }
    requires value { ∥ ((s : SpaceState) × (h : Stands map (contents map (W.words words.old)) s) × IsWordOf s h.places.at word) ∥₁ }
    ensures space { (s : SpaceState) (h : Stands map (contents map (W.words words.old)) s) (v : IsWordOf s h.places.at word) → AreAlikeOthers thread result (home_at s v.value) }
    ensures own { IfSome result (λ x. IsSpaceOf map x) }
    ensures words { W.words words.new ≡ W.words words.old }
    ensures base { W.base words.new ≡ W.base words.old }
{
    if map.threads == 1 {
        return None;
    }
    space_of_word(words, map, word)
}

/// The space of the object to which a slot refers, or `None` where it doesn't refer to one.
pub fn space_of_slot<W: Words>(words: &mut W, map: Areas, thread: u8, s: u32) -> Option<Space>
    requires sound { Sound map (W.words words.old) }
    requires thread { HasThread map thread }
    requires stands { ∥ ((state : SpaceState) × Stands map (contents map (W.words words.old)) state) ∥₁ }
    ensures space { (state : SpaceState) → Stands map (contents map (W.words words.old)) state → result ≡ home_at state (slot_of state.graph thread s) }
    ensures words { W.words words.new ≡ W.words words.old }
    ensures base { W.base words.new ≡ W.base words.old }
{
    match slot(words, map, thread, s) {
        Ok(word) => space_of_word(words, map, word),
        Err(_) => None,
    }
}

/// The space of the object to which a slot refers, as far as it tells whether a reference from there to an object of the other space
/// crosses: where there is no other, it isn't looked for.
#[inline(always)]
pub fn space_left<W: Words>(
    words: &mut W,
    map: Areas,
    thread: u8,
    s: u32,
    to: Option<Space>,
) -> Option<Space>
    requires sound { Sound map (W.words words.old) }
    requires thread { HasThread map thread }
    requires stands { ∥ ((state : SpaceState) × Stands map (contents map (W.words words.old)) state) ∥₁ }
    ensures crosses { (state : SpaceState) → Stands map (contents map (W.words words.old)) state → Crosses result to ↔ Crosses (home_at state (slot_of state.graph thread s)) to }
    ensures words { W.words words.new ≡ W.words words.old }
    ensures base { W.base words.new ≡ W.base words.old }
{
    match to {
        Some(_) => space_of_slot(words, map, thread, s),
        None => None,
    }
}

/// Makes a thread a reader of a space, where that is a region of another thread.
pub fn mark_reader<W: Words>(words: &mut W, map: Areas, thread: u8, space: Option<Space>)
    requires sound { Sound map (W.words words.old) }
    requires thread { HasThread map thread }
    requires space { IfSome space (λ x. IsSpaceOf map x) }
    ensures marks { MarksReader (contents map (W.words words.old)) (contents map (W.words words.new)) thread space }
    ensures others { contents map (W.words words.new) ≡ (let c = contents map (W.words words.old) in record c { readers = (contents map (W.words words.new)).readers }) }
    ensures sound { Sound map (W.words words.new) }
    ensures base { W.base words.new ≡ W.base words.old }
{
    let Some(region) = space else {
        return;
    };
    match region {
        Space::Control => {}
        Space::Region { thread: owner, .. } => {
            if owner != thread {
                set_reader(words, map, region, thread);
            }
        }
    }
}

/// Whether a reference from an object of the one space to one of the other enters a region from outside.
pub fn crosses(from: Option<Space>, to: Option<Space>) -> bool
    ensures { IsTrue result ↔ Crosses from to }
{
    let Some(from) = from else {
        return false;
    };
    let Some(to) = to else {
        return false;
    };
    to != Space::Control && to != from
}

/// Puts a slot into a thread's store buffer. Where that is full, all buffers are filed first.
fn log_slot<W: Words>(words: &mut W, map: Areas, thread: u8, slot: Addr)
    requires sound { Sound map (W.words words.old) }
    requires thread { HasThread map thread }
    requires hold { LogsHold map (contents map (W.words words.old)) }
    requires within { slot.0 < heap_length map }
    ensures logs { Logs map (contents map (W.words words.old)) (contents map (W.words words.new)) thread slot.0 }
    ensures others { let c = contents map (W.words words.old) in contents map (W.words words.new) ≡ with_logs c (contents map (W.words words.new)) }
    ensures sets { let c = contents map (W.words words.new) in SetsHold map c }
    ensures sound { Sound map (W.words words.new) }
    ensures base { W.base words.new ≡ W.base words.old }
{
    match log(words, map, thread, slot) {
        Ok(()) => {}
        Err(_) => {
            file_logs(words, map);
            let _ = log(words, map, thread, slot);
        }
    }
}

/// Records a field's slot, where a reference from an object of the one space to one of the other enters a region from outside.
pub fn record_slot<W: Words>(
    words: &mut W,
    map: Areas,
    thread: u8,
    slot: usize,
    from: Option<Space>,
    to: Option<Space>,
)
    requires sound { Sound map (W.words words.old) }
    requires thread { HasThread map thread }
    requires hold { LogsHold map (contents map (W.words words.old)) }
    requires within { slot < heap_length map }
    ensures records { RecordsSlot map (contents map (W.words words.old)) (contents map (W.words words.new)) thread slot from to }
    ensures others { let c = contents map (W.words words.old) in contents map (W.words words.new) ≡ with_logs c (contents map (W.words words.new)) }
    ensures sets { let c = contents map (W.words words.new) in SetsHold map c }
    ensures sound { Sound map (W.words words.new) }
    ensures base { W.base words.new ≡ W.base words.old }
{
    if crosses(from, to) {
        log_slot(words, map, thread, Addr(slot as u32));
    }
}
