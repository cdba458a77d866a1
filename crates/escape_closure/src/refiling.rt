//! The slots of a region's chain once its objects have left it.

ghost use Rattle.std.specs.Prelude.{◌≡◌, ◌≤◌, ◌+◌, ◌*◌, ℕ, [], false, length};
ghost use Rattle.std.specs.List.{All};
ghost use Rattle.heap_words.specs.Contents.{contents, Sound};
ghost use Rattle.yak_model.specs.Chains.{IsRegionOf};
ghost use Rattle.remember_sets.specs.Filed.{ChainsBecome, IsSlot, PagesKnown, SetsHold, all_filed, chain, enters, with_sets};

use epoch_lattice::Space;
use heap_words::{Areas, Words};
use remember_sets::{add_slot, first_slot};

/// Files each slot of a region's chain anew, by the reference that stands in it now. No reference enters the region any more,
/// so that its chain is empty afterwards.
pub(crate) fn refile_slots<W: Words>(words: &mut W, map: Areas, region: Space)
    requires sound { Sound map (W.words words.old) }
    requires sets { SetsHold map (contents map (W.words words.old)) }
    requires region { IsRegionOf map region }
    requires slots { (let c = contents map (W.words words.old) in All (IsSlot map c) (chain map c region)) }
    requires left { (let c = contents map (W.words words.old) in All (λ a. enters map c region a ≡ false) (chain map c region)) }
    requires pages { PagesKnown map (contents map (W.words words.old)) }
    ensures filed { (let c = contents map (W.words words.old) in ChainsBecome map c (contents map (W.words words.new)) (λ x slots. all_filed map c x (chain map c region) slots)) }
    ensures none { chain map (contents map (W.words words.new)) region ≡ [] }
    ensures sets { SetsHold map (contents map (W.words words.new)) }
    ensures others { contents map (W.words words.new) ≡ with_sets (contents map (W.words words.old)) (contents map (W.words words.new)) }
    ensures sound { Sound map (W.words words.new) }
    ensures reads { W.reads words.new ≤ W.reads words.old + (1 + 7 * length (chain map (contents map (W.words words.old)) region)) }
    ensures base { W.base words.new ≡ W.base words.old }
{
    let mut next = first_slot(words, map, region);
    while let Some(slot) = next {
        add_slot(words, map, slot);
        next = first_slot(words, map, region);
    }
}
