//! Where objects are placed.

ghost use Rattle.std.specs.Prelude.{◌≡◌, ◌≤◌, ◌<◌, ◌+◌, ◌*◌, ℕ, IfOk, IfErr, MatchOption, [], ◌∷◌};
ghost use Rattle.object_layout.specs.declared.TheConstants.{OBJECT_WORDS};
ghost use Rattle.epoch_lattice.specs.Lattice.{inner_of};
ghost use Rattle.heap_words.specs.Map.{HasPage, HasThread, max_depth, page_words};
ghost use Rattle.heap_words.specs.Contents.{contents, Sound};
ghost use Rattle.yak_model.specs.Stands.{CurrentsStand, PoolStands, current, free_pages};
ghost use Rattle.yak_model.specs.Packed.{IsSpaceOf};
ghost use Rattle.region_pages.specs.Pages.{TableFits};
ghost use Rattle.region_pages.specs.Placement.{IsOwn, IsPlaced, IsPlacedInCurrent, IsPlacedOnClaimed, IsLastInPage, depth_in, words_left_at};

use crate::{USED_MARK, claim_page};
use epoch_lattice::Space;
use heap_words::{Areas, Words, get_current, get_page, set_current, set_page};
use object_layout::{Addr, NoPage};

/// Finds a place for an object of `size` words that `thread` makes in a space: in the current page of the space where that
/// has room, else at the front of a page that is claimed and becomes the current one. The region's thread is `thread`.
///
/// # Errors
///
/// `NoPage` where the current page has too few words left and no page is free: then nothing changes.
pub fn place<W: Words>(
    words: &mut W,
    map: Areas,
    thread: u8,
    space: Space,
    size: u16,
) -> Result<Addr, NoPage>
    requires sound { Sound map (W.words words.old) }
    requires thread { HasThread map thread }
    requires space { IsSpaceOf map space }
    requires own { IsOwn thread space }
    requires least { OBJECT_WORDS ≤ size }
    requires most { size ≤ page_words map }
    requires table { TableFits map (contents map (W.words words.old)).table }
    requires pool { let c = contents map (W.words words.old) in PoolStands map c.heads c.pool c.table }
    requires currents { let c = contents map (W.words words.old) in CurrentsStand map c.currents c.table }
    ensures placed { IfOk result (λ a. IsPlaced map (contents map (W.words words.old)) thread space size a.0 (contents map (W.words words.new)) × IsLastInPage map (contents map (W.words words.new)).table space a.0 size) }
    ensures none { let c = contents map (W.words words.old) in IfErr result (λ _. (words_left_at map c thread (depth_in space) < size) × (free_pages c.heads c.pool ≡ []) × (W.words words.new ≡ W.words words.old)) }
    ensures sound { Sound map (W.words words.new) }
    ensures table { TableFits map (contents map (W.words words.new)).table }
    ensures pool { let c = contents map (W.words words.new) in PoolStands map c.heads c.pool c.table }
    ensures currents { let c = contents map (W.words words.new) in CurrentsStand map c.currents c.table }
    ensures reads { W.reads words.new ≤ W.reads words.old + 5 }
    ensures base { W.base words.new ≡ W.base words.old }
{
    match place_in_current(words, map, thread, depth_of(space), size) {
        Some(a) => Ok(a),
        None => place_on_claimed(words, map, thread, space, size),
    }
}

/// At which depth a thread's block names the current page of a space.
fn depth_of(space: Space) -> u8
    ensures { result ≡ depth_in space }
{
    match space {
        Space::Control => 0,
        Space::Region { depth, .. } => depth,
    }
}

/// The current page of a thread at a depth.
fn current_page<W: Words>(words: &mut W, map: Areas, thread: u8, depth: u8) -> Option<u32>
    requires sound { Sound map (W.words words.old) }
    requires thread { HasThread map thread }
    requires depth { depth ≤ max_depth map }
    requires currents { let c = contents map (W.words words.old) in CurrentsStand map c.currents c.table }
    ensures page { let c = contents map (W.words words.old) in MatchOption result (current c.currents thread depth ≡ 0) (λ page. HasPage map page × (current c.currents thread depth ≡ page + 1)) }
    ensures words { W.words words.new ≡ W.words words.old }
    ensures reads { W.reads words.new ≤ W.reads words.old + 1 }
    ensures base { W.base words.new ≡ W.base words.old }
{
    let page = get_current(words, map, thread, depth);
    if page == 0 {
        None
    } else {
        Some((page - 1) as u32)
    }
}

/// Places an object in the current page of a thread at a depth, where that has room.
fn place_in_current<W: Words>(
    words: &mut W,
    map: Areas,
    thread: u8,
    depth: u8,
    size: u16,
) -> Option<Addr>
    requires sound { Sound map (W.words words.old) }
    requires thread { HasThread map thread }
    requires depth { depth ≤ max_depth map }
    requires least { OBJECT_WORDS ≤ size }
    requires table { TableFits map (contents map (W.words words.old)).table }
    requires pool { let c = contents map (W.words words.old) in PoolStands map c.heads c.pool c.table }
    requires currents { let c = contents map (W.words words.old) in CurrentsStand map c.currents c.table }
    ensures placed { let c = contents map (W.words words.old) in MatchOption result ((words_left_at map c thread depth < size) × (W.words words.new ≡ W.words words.old)) (λ a. IsPlacedInCurrent map c thread depth size a.0 (contents map (W.words words.new)) × IsLastInPage map (contents map (W.words words.new)).table (inner_of thread depth) a.0 size) }
    ensures sound { Sound map (W.words words.new) }
    ensures table { TableFits map (contents map (W.words words.new)).table }
    ensures pool { let c = contents map (W.words words.new) in PoolStands map c.heads c.pool c.table }
    ensures currents { let c = contents map (W.words words.new) in CurrentsStand map c.currents c.table }
    ensures reads { W.reads words.new ≤ W.reads words.old + 2 }
    ensures base { W.base words.new ≡ W.base words.old }
{
    let page = current_page(words, map, thread, depth)?;
    let used = get_page(words, map, page, USED_MARK) as u32;
    let end = used + u32::from(size);
    if end > map.page_words() {
        return None;
    }
    set_page(words, map, page, USED_MARK, u64::from(end));
    Some(Addr(map.page_words() * page + used))
}

/// Places an object at the front of a page that is claimed, and makes that the current page.
fn place_on_claimed<W: Words>(
    words: &mut W,
    map: Areas,
    thread: u8,
    space: Space,
    size: u16,
) -> Result<Addr, NoPage>
    requires sound { Sound map (W.words words.old) }
    requires thread { HasThread map thread }
    requires space { IsSpaceOf map space }
    requires own { IsOwn thread space }
    requires most { size ≤ page_words map }
    requires table { TableFits map (contents map (W.words words.old)).table }
    requires pool { let c = contents map (W.words words.old) in PoolStands map c.heads c.pool c.table }
    requires currents { let c = contents map (W.words words.old) in CurrentsStand map c.currents c.table }
    ensures placed { IfOk result (λ a. IsPlacedOnClaimed map (contents map (W.words words.old)) thread space size a.0 (contents map (W.words words.new)) × IsLastInPage map (contents map (W.words words.new)).table space a.0 size) }
    ensures none { let c = contents map (W.words words.old) in IfErr result (λ _. (free_pages c.heads c.pool ≡ []) × (W.words words.new ≡ W.words words.old)) }
    ensures sound { Sound map (W.words words.new) }
    ensures table { TableFits map (contents map (W.words words.new)).table }
    ensures pool { let c = contents map (W.words words.new) in PoolStands map c.heads c.pool c.table }
    ensures currents { let c = contents map (W.words words.new) in CurrentsStand map c.currents c.table }
    ensures reads { W.reads words.new ≤ W.reads words.old + 3 }
    ensures base { W.base words.new ≡ W.base words.old }
{
    let page = claim_page(words, map, space)?;
    set_page(words, map, page, USED_MARK, u64::from(size));
    set_current(words, map, thread, depth_of(space), u64::from(page) + 1);
    Ok(Addr(map.page_words() * page))
}
