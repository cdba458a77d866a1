//! The claim of a free page.

ghost use Rattle.std.specs.Prelude.{◌≡◌, ◌≤◌, ◌<◌, ◌+◌, ◌^◌, ℕ, IfOk, IfErr, MatchOption, [], ◌∷◌, length, slice_set};
ghost use Rattle.heap_words.specs.Map.{HasPage};
ghost use Rattle.heap_words.specs.Contents.{contents, with_head, Sound};
ghost use Rattle.yak_model.specs.Placed.{space_word};
ghost use Rattle.yak_model.specs.Stands.{CurrentsStand, PoolStands, claim_counter, pool_length, free_pages};
ghost use Rattle.yak_model.specs.Packed.{IsSpaceOf};
ghost use Rattle.region_pages.specs.Pages.{TableFits, with_claimed, with_entry};

use crate::{CLAIM_COUNTER, POOL_LENGTH, SPACE_WORD, USED_MARK};
use epoch_lattice::{Space, index_of};
use heap_words::{Areas, Words, get_head, get_pool, set_head, set_page};
use object_layout::NoPage;

/// Takes the first free page of the pool for a space, with no word of it in use.
///
/// # Errors
///
/// `NoPage` where no page is free: then nothing changes.
pub fn claim_page<W: Words>(words: &mut W, map: Areas, space: Space) -> Result<u32, NoPage>
    requires sound { Sound map (W.words words.old) }
    requires space { IsSpaceOf map space }
    requires table { TableFits map (contents map (W.words words.old)).table }
    requires pool { let c = contents map (W.words words.old) in PoolStands map c.heads c.pool c.table }
    requires currents { let c = contents map (W.words words.old) in CurrentsStand map c.currents c.table }
    ensures claimed { let c = contents map (W.words words.old) in let after = contents map (W.words words.new) in IfOk result (λ page. HasPage map page × (free_pages c.heads c.pool ≡ page ∷ free_pages after.heads after.pool) × (after ≡ with_claimed c space page)) }
    ensures none { let c = contents map (W.words words.old) in IfErr result (λ _. (free_pages c.heads c.pool ≡ []) × (W.words words.new ≡ W.words words.old)) }
    ensures sound { Sound map (W.words words.new) }
    ensures table { TableFits map (contents map (W.words words.new)).table }
    ensures pool { let c = contents map (W.words words.new) in PoolStands map c.heads c.pool c.table }
    ensures currents { let c = contents map (W.words words.new) in CurrentsStand map c.currents c.table }
    ensures reads { W.reads words.new ≤ W.reads words.old + 3 }
    ensures base { W.base words.new ≡ W.base words.old }
{
    match take_first(words, map) {
        None => Err(NoPage),
        Some(page) => {
            set_entry(words, map, page, index_of(space) as u64 + 1, 0);
            Ok(page)
        }
    }
}

/// Takes the first free page off the pool: the counter is raised past it.
fn take_first<W: Words>(words: &mut W, map: Areas) -> Option<u32>
    requires sound { Sound map (W.words words.old) }
    requires pool { let c = contents map (W.words words.old) in PoolStands map c.heads c.pool c.table }
    ensures taken { let c = contents map (W.words words.old) in let after = contents map (W.words words.new) in MatchOption result ((free_pages c.heads c.pool ≡ []) × (W.words words.new ≡ W.words words.old)) (λ page. HasPage map page × (space_word c.table page ≡ 0) × (claim_counter c.heads < pool_length c.heads) × (free_pages c.heads c.pool ≡ page ∷ free_pages after.heads after.pool) × (after ≡ with_head c CLAIM_COUNTER (claim_counter c.heads + 1))) }
    ensures sound { Sound map (W.words words.new) }
    ensures reads { W.reads words.new ≤ W.reads words.old + 3 }
    ensures base { W.base words.new ≡ W.base words.old }
{
    let claimed = get_head(words, map, CLAIM_COUNTER);
    let length = get_head(words, map, POOL_LENGTH);
    if claimed >= length {
        return None;
    }
    let page = get_pool(words, map, claimed as usize);
    set_head(words, map, CLAIM_COUNTER, claimed + 1);
    Some(page as u32)
}

/// Writes a page's entry in the page table.
pub(crate) fn set_entry<W: Words>(words: &mut W, map: Areas, page: u32, space: u64, used: u64)
    requires sound { Sound map (W.words words.old) }
    requires page { HasPage map page }
    ensures entry { contents map (W.words words.new) ≡ with_entry (contents map (W.words words.old)) page space used }
    ensures sound { Sound map (W.words words.new) }
    ensures reads { W.reads words.new ≡ W.reads words.old }
    ensures base { W.base words.new ≡ W.base words.old }
{
    set_page(words, map, page, SPACE_WORD, space);
    set_page(words, map, page, USED_MARK, used);
}
