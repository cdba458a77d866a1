//! The pool and the current control pages after a slide.

ghost use Rattle.std.specs.Prelude.{◌≡◌, ◌≢◌, ◌≤◌, ◌<◌, ◌+◌, ℕ};
ghost use Rattle.heap_words.specs.Map.{HasThread};
ghost use Rattle.heap_words.specs.Contents.{Contents, Sound, contents};
ghost use Rattle.region_pages.specs.Freeing.{with_pool_rebuilt};
ghost use Rattle.yak_model.specs.Stands.{PoolStands};
ghost use Rattle.mark_compact.specs.Collecting.{ControlPages, IsLast};

use crate::sliding::CONTROL_WORD;
use heap_words::{Areas, Words, get_page, set_current};
use region_pages::rebuild_pool;

/// One more than the last control page, and 0 where there is none.
fn last_control_page<W: Words>(words: &mut W, map: Areas) -> u32
    requires sound { Sound map (W.words words.old) }
    ensures last { IsLast (contents map (W.words words.old)).table map.pages result }
    ensures words { W.words words.new ≡ W.words words.old }
    ensures base { W.base words.new ≡ W.base words.old }
{
    let mut last = 0;
    for page in 0..map.pages {
        if get_page(words, map, page, 0) == CONTROL_WORD {
            last = page + 1;
        }
    }
    last
}

/// What the current control page of one thread is to be, where that of another is known and is to be the only one.
fn page_for(thread: u8, owner: u8, page: u32) -> u64
    ensures own { thread ≡ owner → result ≡ page }
    ensures others { thread ≢ owner → result ≡ 0 }
{
    if thread == owner { page as u64 } else { 0 }
}

/// Gives one thread a current control page, by its number plus 1 or 0 for none, and the other threads none.
fn set_control_pages<W: Words>(words: &mut W, map: Areas, thread: u8, page: u32)
    requires sound { Sound map (W.words words.old) }
    requires thread { HasThread map thread }
    ensures pages { ControlPages (contents map (W.words words.old)) (contents map (W.words words.new)) thread page map.threads }
    ensures sound { Sound map (W.words words.new) }
    ensures base { W.base words.new ≡ W.base words.old }
{
    for t in 0..map.threads {
        let current = page_for(t + 1, thread, page);
        set_current(words, map, t + 1, 0, current);
    }
}

/// Makes the pool anew, and the last control page the current one of the thread alone.
pub(crate) fn reset_pages<W: Words>(words: &mut W, map: Areas, thread: u8)
    requires sound { Sound map (W.words words.old) }
    requires thread { HasThread map thread }
    ensures pages { (let rebuilt = with_pool_rebuilt (contents map (W.words words.old)) in (last : ℕ) × IsLast rebuilt.table map.pages last × ControlPages rebuilt (contents map (W.words words.new)) thread last map.threads) }
    ensures pool { (let c = contents map (W.words words.new) in PoolStands map c.heads c.pool c.table) }
    ensures sound { Sound map (W.words words.new) }
    ensures base { W.base words.new ≡ W.base words.old }
{
    rebuild_pool(words, map);
    let last = last_control_page(words, map);
    set_control_pages(words, map, thread, last);
}
