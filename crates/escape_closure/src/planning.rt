//! The plan of an end: where the escaping objects go.

ghost use Rattle.std.specs.Prelude.{◌≡◌, ◌≤◌, ◌<◌, ◌+◌, ◌*◌, ℕ, MatchOption, MatchResult, Option, Some, None, Err, IfErr, IfOk, IfSome, ◌⊎◌, length};
ghost use Rattle.object_layout.specs.declared.TheConstants.{MAX_SPACE, OBJECT_WORDS};
ghost use Rattle.epoch_lattice.specs.declared.TheConstants.{MAX_DEPTH};
ghost use Rattle.epoch_lattice.specs.declared.Space.TheVariants.{Region};
ghost use Rattle.epoch_lattice.specs.Lattice.{IsValid, space_index};
ghost use Rattle.heap_words.specs.Map.{HasThread, heap_length, page_words};
ghost use Rattle.heap_words.specs.Contents.{Contents, contents, depth_of, Sound};
ghost use Rattle.yak_model.specs.Spaces.{Counts, SpaceState, innermost};
ghost use Rattle.yak_model.specs.Stands.{CurrentsStand, PoolStands, Stands, free_pages, pages_of};
ghost use Rattle.yak_model.specs.Packed.{IsSpaceOf};
ghost use Rattle.region_pages.specs.Counts.{used_of};
ghost use Rattle.region_pages.specs.Pages.{TableFits};
ghost use Rattle.region_pages.specs.Placement.{IsOwn};
ghost use Rattle.remember_sets.specs.Filed.{NoneFrom};
ghost use Rattle.relocation.specs.declared.plans.TheConstants.{MOVE_WORDS};
ghost use Rattle.relocation.specs.Moves.{heap_of, move_at, scratch_of, Numbered};
ghost use Rattle.escape_closure.specs.Placing.{owner};
ghost use Rattle.escape_closure.specs.Rolls.{Aimed, AimsInside, OnlyScratch, Rolled};
ghost use Rattle.escape_closure.specs.Targets.{IsEscaping, TargetsWritten};
ghost use Rattle.escape_closure.specs.Needs.{RollWeighed};
ghost use Rattle.escape_closure.specs.Ends.{EndPlanned, FallsShort};
ghost use Rattle.escape_closure.specs.Planning.{NotPlaced, PlacedNext, PlacedSoFar, RollPlaced, TargetsExist, Underway, filled_by};

use crate::needing::{Entry, read_entry};
use crate::weighing::weigh_region;
use epoch_lattice::{Space, index_of, space_at};
use heap_words::{Areas, Words};
use object_layout::{Addr, Shortage};
use region_pages::place;
use relocation::{Plan, add_move, empty_plan};
use thread_stacks::depth;

/// The thread whose current page takes an object in a space, or `None` where the heap has no such space. In Control it is the
/// thread that ends its region.
fn owner_of(map: Areas, thread: u8, space: Space) -> Option<u8>
    requires thread { HasThread map thread }
    requires space { IsValid MAX_DEPTH space }
    ensures none { (IsSpaceOf map space → ⊥) ⊎ (result ≡ Some (owner thread space)) }
    ensures some { IfSome result (λ o. IsSpaceOf map space × HasThread map o × IsOwn o space × (o ≡ owner thread space)) }
{
    match space {
        Space::Control => Some(thread),
        Space::Region { thread: own, .. } => { if own > map.threads { None } else { Some(own) } }
    }
}

/// Places an object of the roll in its target, and adds its move to the plan; `None` where it has no place.
fn place_next<W: Words>(
    words: &mut W,
    map: Areas,
    thread: u8,
    plan: Plan,
    entry: Entry,
) -> Option<Plan>
    requires sound { Sound map (W.words words.old) }
    requires thread { HasThread map thread }
    requires table { TableFits map (contents map (W.words words.old)).table }
    requires pool { let c = contents map (W.words words.old) in PoolStands map c.heads c.pool c.table }
    requires currents { let c = contents map (W.words words.old) in CurrentsStand map c.currents c.table }
    requires plan { Numbered map (heap_of map (W.words words.old)) plan.count (move_at (scratch_of map (W.words words.old))) }
    requires room { MOVE_WORDS * (plan.count + 1) ≤ heap_length map }
    requires ascending { (k : ℕ) → k < plan.count → (move_at (scratch_of map (W.words words.old)) k).old < entry.old }
    requires within { entry.old + OBJECT_WORDS ≤ heap_length map }
    requires size { (OBJECT_WORDS ≤ entry.size) × (entry.size ≤ page_words map) }
    ensures placed { MatchOption result (NotPlaced map (contents map (W.words words.old)) thread entry × (W.words words.new ≡ W.words words.old)) (λ p. (p.count ≡ plan.count + 1) × PlacedNext map (contents map (W.words words.old)) (contents map (W.words words.new)) thread plan.count entry) }
    ensures plan { IfSome result (λ p. Numbered map (heap_of map (W.words words.new)) p.count (move_at (scratch_of map (W.words words.new)))) }
    ensures sound { Sound map (W.words words.new) }
    ensures table { TableFits map (contents map (W.words words.new)).table }
    ensures pool { let c = contents map (W.words words.new) in PoolStands map c.heads c.pool c.table }
    ensures currents { let c = contents map (W.words words.new) in CurrentsStand map c.currents c.table }
    ensures reads { W.reads words.new ≤ W.reads words.old + 5 }
    ensures base { W.base words.new ≡ W.base words.old }
{
    let Some(space) = space_at(entry.index) else {
        return None;
    };
    let Some(owner) = owner_of(map, thread, space) else {
        return None;
    };
    let Ok(new) = place(words, map, owner, space, entry.size) else {
        return None;
    };
    let mut plan = plan;
    add_move(words, map, &mut plan, Addr(entry.old as u32), new, space);
    Some(plan)
}

/// Places the objects of the roll in order, each in its target, and plans their moves. The free pages must be enough.
fn place_all<W: Words>(words: &mut W, map: Areas, thread: u8, count: usize) -> Plan
    requires sound { Sound map (W.words words.old) }
    requires thread { HasThread map thread }
    requires table { TableFits map (contents map (W.words words.old)).table }
    requires pool { let c = contents map (W.words words.old) in PoolStands map c.heads c.pool c.table }
    requires currents { let c = contents map (W.words words.old) in CurrentsStand map c.currents c.table }
    requires some { ∥ ((q : Aimed) × AimsInside map q × TargetsExist map q × (r : Rolled q (contents map (W.words words.old)) (heap_length map) count) × ((filled_by map q thread (contents map (W.words words.old)) count r count).claimed ≤ (let c = contents map (W.words words.old) in length (free_pages c.heads c.pool)))) ∥₁ }
    ensures planned { (q : Aimed) → AimsInside map q → TargetsExist map q → (r : Rolled q (contents map (W.words words.old)) (heap_length map) count) → (filled_by map q thread (contents map (W.words words.old)) count r count).claimed ≤ (let c = contents map (W.words words.old) in length (free_pages c.heads c.pool)) → Underway map q thread (contents map (W.words words.old)) count r (contents map (W.words words.new)) count × PlacedSoFar map q (contents map (W.words words.old)) count r (contents map (W.words words.new)) count × (result.count ≡ count) }
    ensures plan { Numbered map (heap_of map (W.words words.new)) result.count (move_at (scratch_of map (W.words words.new))) }
    ensures sound { Sound map (W.words words.new) }
    ensures table { TableFits map (contents map (W.words words.new)).table }
    ensures pool { let c = contents map (W.words words.new) in PoolStands map c.heads c.pool c.table }
    ensures currents { let c = contents map (W.words words.new) in CurrentsStand map c.currents c.table }
    ensures reads { W.reads words.new ≤ W.reads words.old + 8 * count }
    ensures base { W.base words.new ≡ W.base words.old }
{
    let mut plan = empty_plan(words, map);
    for k in 0..count {
        let entry = read_entry(words, map, k);
        let Some(more) = place_next(words, map, thread, plan, entry) else {
            return plan;
        };
        plan = more;
    }
    plan
}

/// Puts the objects of a region that have a target on the roll, by ascending address, and plans their moves in this order
/// where the free pages are enough. All pages of the region are among the first `end` pages.
///
/// # Errors
///
/// `Shortage` exactly where the pages that this claims are more than the free ones, with both numbers. Then only words of the
/// scratch area have changed.
fn plan_region<W: Words>(
    words: &mut W,
    map: Areas,
    thread: u8,
    region: u8,
    end: u32,
) -> Result<Plan, Shortage>
    requires sound { Sound map (W.words words.old) }
    requires thread { HasThread map thread }
    requires within { end ≤ map.pages }
    requires none_from { NoneFrom map (contents map (W.words words.old)).table (region + 1) end }
    requires table { TableFits map (contents map (W.words words.old)).table }
    requires pool { let c = contents map (W.words words.old) in PoolStands map c.heads c.pool c.table }
    requires currents { let c = contents map (W.words words.old) in CurrentsStand map c.currents c.table }
    requires some { ∥ ((q : Aimed) × (space_index q.region ≡ region) × AimsInside map q × TargetsExist map q × (q.words ≡ contents map (W.words words.old))) ∥₁ }
    ensures planned { (q : Aimed) → space_index q.region ≡ region → AimsInside map q → TargetsExist map q → q.words ≡ contents map (W.words words.old) → MatchResult result (λ plan. RollPlaced map q thread (W.reads words.old + (end + pages_of q.words.table q.region)) (contents map (W.words words.new)) (W.reads words.new) plan.count) (λ shortage. RollWeighed map q thread (W.reads words.old + (end + pages_of q.words.table q.region)) (contents map (W.words words.new)) (W.reads words.new) (Err shortage)) }
    ensures short { IfErr result (λ shortage. OnlyScratch (contents map (W.words words.old)) (contents map (W.words words.new))) }
    ensures plan { IfOk result (λ plan. Numbered map (heap_of map (W.words words.new)) plan.count (move_at (scratch_of map (W.words words.new)))) }
    ensures sound { Sound map (W.words words.new) }
    ensures table { TableFits map (contents map (W.words words.new)).table }
    ensures pool { let c = contents map (W.words words.new) in PoolStands map c.heads c.pool c.table }
    ensures currents { let c = contents map (W.words words.new) in CurrentsStand map c.currents c.table }
    ensures base { W.base words.new ≡ W.base words.old }
{
    let count = weigh_region(words, map, thread, region, end)?;
    Ok(place_all(words, map, thread, count))
}

/// Plans the moves of the objects that escape from the innermost region of a thread, after `targets`: where the free pages are
/// enough, each is placed in its target by the rule of placement, by ascending address. The plan stands in the scratch area,
/// and the work words of the planned objects tell their moves. All else but the page table, the claim counter and the current
/// pages is as before.
///
/// # Errors
///
/// `Shortage` exactly where the pages that this claims are more than the free ones, with both numbers. Then only words of the
/// scratch area have changed.
pub fn plan_moves<W: Words>(words: &mut W, map: Areas, thread: u8) -> Result<Plan, Shortage>
    requires sound { Sound map (W.words words.old) }
    requires thread { HasThread map thread }
    requires depth { 1 ≤ depth_of (contents map (W.words words.old)) thread }
    requires aimed { ∥ ((s : SpaceState) × (before : Contents) × (stands : Stands map before s) × (escaping : ℕ) × TargetsWritten map s stands.places thread before (contents map (W.words words.old)) escaping) ∥₁ }
    ensures planned { let c = contents map (W.words words.old) in let d = contents map (W.words words.new) in (s : SpaceState) (before : Contents) (stands : Stands map before s) (escaping : ℕ) → TargetsWritten map s stands.places thread before c escaping → MatchResult result (λ plan. (plan.count ≡ escaping) × EndPlanned map c d s stands.places thread plan.count) (λ shortage. FallsShort map c s stands.places thread shortage × OnlyScratch c d) }
    ensures counted { (s : SpaceState) (before : Contents) (stands : Stands map before s) (escaping : ℕ) → TargetsWritten map s stands.places thread before (contents map (W.words words.old)) escaping → IfOk result (λ plan. Counts (IsEscaping s thread) plan.count) }
    ensures numbered { IfOk result (λ plan. Numbered map (heap_of map (W.words words.new)) plan.count (move_at (scratch_of map (W.words words.new)))) }
    ensures reads { let c = contents map (W.words words.old) in (s : SpaceState) (before : Contents) (stands : Stands map before s) (escaping : ℕ) → TargetsWritten map s stands.places thread before c escaping → W.reads words.new ≤ W.reads words.old + (2 * map.pages + used_of c.table (innermost s.graph thread) + 12 * escaping + (1 + 2 * (MAX_SPACE + 2))) }
    ensures sound { Sound map (W.words words.new) }
    ensures base { W.base words.new ≡ W.base words.old }
{
    plan_moves_below(words, map, thread, map.pages)
}

/// As `plan_moves`, where all pages of the region are among the first `end` pages.
///
/// # Errors
///
/// `Shortage` exactly where the pages that this claims are more than the free ones, with both numbers. Then only words of the
/// scratch area have changed.
fn plan_moves_below<W: Words>(
    words: &mut W,
    map: Areas,
    thread: u8,
    end: u32,
) -> Result<Plan, Shortage>
    requires sound { Sound map (W.words words.old) }
    requires thread { HasThread map thread }
    requires depth { 1 ≤ depth_of (contents map (W.words words.old)) thread }
    requires within { end ≤ map.pages }
    requires none_from { let c = contents map (W.words words.old) in NoneFrom map c.table (space_index (Region thread (depth_of c thread)) + 1) end }
    requires aimed { ∥ ((s : SpaceState) × (before : Contents) × (stands : Stands map before s) × (escaping : ℕ) × TargetsWritten map s stands.places thread before (contents map (W.words words.old)) escaping) ∥₁ }
    ensures planned { let c = contents map (W.words words.old) in let d = contents map (W.words words.new) in (s : SpaceState) (before : Contents) (stands : Stands map before s) (escaping : ℕ) → TargetsWritten map s stands.places thread before c escaping → MatchResult result (λ plan. (plan.count ≡ escaping) × EndPlanned map c d s stands.places thread plan.count) (λ shortage. FallsShort map c s stands.places thread shortage × OnlyScratch c d) }
    ensures counted { (s : SpaceState) (before : Contents) (stands : Stands map before s) (escaping : ℕ) → TargetsWritten map s stands.places thread before (contents map (W.words words.old)) escaping → IfOk result (λ plan. Counts (IsEscaping s thread) plan.count) }
    ensures numbered { IfOk result (λ plan. Numbered map (heap_of map (W.words words.new)) plan.count (move_at (scratch_of map (W.words words.new)))) }
    ensures reads { let c = contents map (W.words words.old) in (s : SpaceState) (before : Contents) (stands : Stands map before s) (escaping : ℕ) → TargetsWritten map s stands.places thread before c escaping → W.reads words.new ≤ W.reads words.old + (end + pages_of c.table (innermost s.graph thread) + used_of c.table (innermost s.graph thread) + 12 * escaping + (1 + 2 * (MAX_SPACE + 2))) }
    ensures sound { Sound map (W.words words.new) }
    ensures base { W.base words.new ≡ W.base words.old }
{
    let innermost = depth(words, map, thread);
    let region = index_of(Space::Region {
        thread,
        depth: innermost,
    });
    plan_region(words, map, thread, region, end)
}

/// As `plan_moves`, where all pages of the region are among the first `end` pages, and where it is told how many objects
/// escape: no page is looked at where these are none.
///
/// # Errors
///
/// `Shortage` exactly where the pages that this claims are more than the free ones, with both numbers. Then only words of the
/// scratch area have changed.
pub(crate) fn plan_escaping<W: Words>(
    words: &mut W,
    map: Areas,
    thread: u8,
    escaping: u32,
    end: u32,
) -> Result<Plan, Shortage>
    requires sound { Sound map (W.words words.old) }
    requires thread { HasThread map thread }
    requires depth { 1 ≤ depth_of (contents map (W.words words.old)) thread }
    requires within { end ≤ map.pages }
    requires none_from { let c = contents map (W.words words.old) in NoneFrom map c.table (space_index (Region thread (depth_of c thread)) + 1) end }
    requires aimed { ∥ ((s : SpaceState) × (before : Contents) × (stands : Stands map before s) × TargetsWritten map s stands.places thread before (contents map (W.words words.old)) escaping) ∥₁ }
    ensures planned { let c = contents map (W.words words.old) in let d = contents map (W.words words.new) in (s : SpaceState) (before : Contents) (stands : Stands map before s) → TargetsWritten map s stands.places thread before c escaping → MatchResult result (λ plan. (plan.count ≡ escaping) × EndPlanned map c d s stands.places thread plan.count) (λ shortage. FallsShort map c s stands.places thread shortage × OnlyScratch c d) }
    ensures reads { let c = contents map (W.words words.old) in (s : SpaceState) (before : Contents) (stands : Stands map before s) → TargetsWritten map s stands.places thread before c escaping → W.reads words.new ≤ W.reads words.old + (end + pages_of c.table (innermost s.graph thread) + used_of c.table (innermost s.graph thread) + 12 * escaping + (1 + 2 * (MAX_SPACE + 2))) }
    ensures sound { Sound map (W.words words.new) }
    ensures base { W.base words.new ≡ W.base words.old }
{
    if escaping == 0 {
        return Ok(empty_plan(words, map));
    }
    plan_moves_below(words, map, thread, end)
}
