//! The slide of a collection: the marking, the plan, the references that follow it, and the moves.

ghost use Rattle.std.specs.Prelude.{◌≡◌, ◌+◌, ◌*◌, ◌≤◌, ◌<◌, ℕ};
ghost use Rattle.heap_words.specs.Map.{heap_length};
ghost use Rattle.heap_words.specs.Contents.{Contents, Sound, contents};
ghost use Rattle.yak_model.specs.Spaces.{SpaceState};
ghost use Rattle.yak_model.specs.State.{view};
ghost use Rattle.yak_model.specs.Stands.{Stands};
ghost use Rattle.relocation.specs.Moves.{HasHeader, Numbered, move_at, size_at};
ghost use Rattle.mark_compact.specs.Collecting.{Lain, Led, Planned};

use crate::marking::mark;
use crate::sliding::{CONTROL_WORD, plan_slide};
use forwarding::{correct_regions, correct_stacks, settle_pages};
use heap_words::{Areas, Words};
use relocation::{Plan, correct_moves, move_all};

/// Marks the control objects that are kept, and plans their slide.
fn plan_collection<W: Words>(words: &mut W, map: Areas) -> Plan
    requires sound { Sound map (W.words words.old) }
    requires stands { ∥ ((s : SpaceState) × Stands map (contents map (W.words words.old)) s) ∥₁ }
    ensures planned { (let d = contents map (W.words words.new) in (s : SpaceState) (h : Stands map (contents map (W.words words.old)) s) → Planned map (contents map (W.words words.old)) s h.places d result.count (move_at d.scratch)) }
    ensures numbered { (let d = contents map (W.words words.new) in Numbered map d.heap result.count (move_at d.scratch)) }
    ensures sound { Sound map (W.words words.new) }
    ensures base { W.base words.new ≡ W.base words.old }
{
    mark(words, map);
    plan_slide(words, map)
}

/// Lets all references of kept objects and of stacks lead where a plan brings the objects. Each word is corrected once.
fn correct_references<W: Words>(words: &mut W, map: Areas, plan: &Plan)
    requires sound { Sound map (W.words words.old) }
    requires numbered { (let c = contents map (W.words words.old) in Numbered map c.heap plan.now.count (move_at c.scratch)) }
    requires planned { (let c = contents map (W.words words.old) in ∥ ((was : Contents) × (s : SpaceState) × (h : Stands map was s) × Planned map was s h.places c plan.now.count (move_at c.scratch)) ∥₁) }
    ensures led { (let c = contents map (W.words words.old) in let d = contents map (W.words words.new) in (was : Contents) (s : SpaceState) (h : Stands map was s) (p : Planned map was s h.places c plan.now.count (move_at c.scratch)) → Led map (view s) h.places p.dropped c d plan.now.count (move_at c.scratch)) }
    ensures sound { Sound map (W.words words.new) }
    ensures base { W.base words.new ≡ W.base words.old }
{
    correct_regions(words, map, plan);
    correct_moves(words, map, plan);
    correct_stacks(words, map, plan);
}

/// Moves the objects of a plan, and enters in the page table how far the pages are used.
fn move_objects<W: Words>(words: &mut W, map: Areas, plan: Plan)
    requires sound { Sound map (W.words words.old) }
    requires led { (let c = contents map (W.words words.old) in ∥ ((was : Contents) × (planned : Contents) × (s : SpaceState) × (h : Stands map was s) × (p : Planned map was s h.places planned plan.count (move_at c.scratch)) × Led map (view s) h.places p.dropped planned c plan.count (move_at c.scratch)) ∥₁) }
    ensures lain { (let c = contents map (W.words words.old) in let d = contents map (W.words words.new) in (was planned : Contents) (s : SpaceState) (h : Stands map was s) (p : Planned map was s h.places planned plan.count (move_at c.scratch)) → Led map (view s) h.places p.dropped planned c plan.count (move_at c.scratch) → Lain map was s h.places d plan.count (move_at d.scratch)) }
    ensures headers { (let d = contents map (W.words words.new) in let moves = move_at d.scratch in (k : ℕ) → k < plan.count → HasHeader d.heap (moves k).new × ((moves k).new + size_at d.heap (moves k).new ≤ heap_length map)) }
    ensures sound { Sound map (W.words words.new) }
    ensures base { W.base words.new ≡ W.base words.old }
{
    move_all(words, map, plan);
    settle_pages(words, map, &plan, CONTROL_WORD, map.pages);
}

/// Slides the control objects that a collection keeps to the front of the control pages, and gives the plan.
pub(crate) fn slide<W: Words>(words: &mut W, map: Areas) -> Plan
    requires sound { Sound map (W.words words.old) }
    requires stands { ∥ ((s : SpaceState) × Stands map (contents map (W.words words.old)) s) ∥₁ }
    ensures lain { (let c = contents map (W.words words.old) in let d = contents map (W.words words.new) in (s : SpaceState) (h : Stands map c s) → Lain map c s h.places d result.count (move_at d.scratch)) }
    ensures headers { (let d = contents map (W.words words.new) in let moves = move_at d.scratch in (k : ℕ) → k < result.count → HasHeader d.heap (moves k).new × ((moves k).new + size_at d.heap (moves k).new ≤ heap_length map)) }
    ensures sound { Sound map (W.words words.new) }
    ensures base { W.base words.new ≡ W.base words.old }
{
    let plan = plan_collection(words, map);
    correct_references(words, map, &plan);
    move_objects(words, map, plan);
    plan
}
