//! Whether the free pages are enough for the escaping objects.

ghost use Rattle.std.specs.Prelude.{◌≡◌, ◌≤◌, ◌+◌, ℕ};
ghost use Rattle.epoch_lattice.specs.Lattice.{space_index};
ghost use Rattle.heap_words.specs.Map.{HasThread};
ghost use Rattle.heap_words.specs.Contents.{contents, Sound};
ghost use Rattle.yak_model.specs.Stands.{CurrentsStand, PoolStands, pages_of};
ghost use Rattle.remember_sets.specs.Filed.{NoneFrom};
ghost use Rattle.escape_closure.specs.Rolls.{Aimed, AimsInside, OnlyScratch};
ghost use Rattle.escape_closure.specs.Needs.{RollWeighed};

use crate::needing::needed_pages;
use crate::rolling::roll_region;
use heap_words::{Areas, Words};
use object_layout::Shortage;
use region_pages::free_count;

/// Puts the objects of a region that have a target on the roll, by ascending address, and answers how many these are where the
/// free pages are enough to place them in this order. Only words of the scratch area are changed. All pages of the region are
/// among the first `end` pages.
///
/// # Errors
///
/// `Shortage` exactly where the pages that this claims are more than the free ones, with both numbers.
pub(crate) fn weigh_region<W: Words>(
    words: &mut W,
    map: Areas,
    thread: u8,
    region: u8,
    end: u32,
) -> Result<usize, Shortage>
    requires sound { Sound map (W.words words.old) }
    requires thread { HasThread map thread }
    requires within { end ≤ map.pages }
    requires none_from { NoneFrom map (contents map (W.words words.old)).table (region + 1) end }
    requires pool { let c = contents map (W.words words.old) in PoolStands map c.heads c.pool c.table }
    requires currents { let c = contents map (W.words words.old) in CurrentsStand map c.currents c.table }
    requires some { ∥ ((q : Aimed) × (space_index q.region ≡ region) × AimsInside map q × (q.words ≡ contents map (W.words words.old))) ∥₁ }
    ensures weighed { (q : Aimed) → space_index q.region ≡ region → AimsInside map q → q.words ≡ contents map (W.words words.old) → RollWeighed map q thread (W.reads words.old + (end + pages_of q.words.table q.region)) (contents map (W.words words.new)) (W.reads words.new) result }
    ensures frame { OnlyScratch (contents map (W.words words.old)) (contents map (W.words words.new)) }
    ensures sound { Sound map (W.words words.new) }
    ensures base { W.base words.new ≡ W.base words.old }
{
    let count = roll_region(words, map, region, end);
    let needed = needed_pages(words, map, thread, count);
    let free = free_count(words, map);
    if needed > free {
        return Err(Shortage { needed, free });
    }
    Ok(count)
}
