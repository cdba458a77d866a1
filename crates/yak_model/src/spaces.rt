//! The heap as a graph of objects in spaces.
ghost use Rattle.std.specs.Prelude.{◌≡◌, ◌≢◌, ℕ, ◌+◌, ◌-◌, ◌*◌, ◌<◌, ◌≤◌, List, length, IfOk, IfSome, IfNone, OnErr, OnOk, IsTrue, ◌↔◌, ◌⊎◌, cond, count_by, is_some, slice_index_or, true, false};
ghost use Rattle.std.specs.List.{Contains};
ghost use Rattle.object_layout.specs.declared.names.Name.{Name};
ghost use Rattle.yak_model.specs.declared.datum.Datum.TheVariants as datum;
ghost use Rattle.epoch_lattice.specs.Lattice.{IsBelow, IsValid, inner_of};
ghost use Rattle.epoch_lattice.specs.declared.Space.{Space};
ghost use Rattle.epoch_lattice.specs.declared.Space.TheVariants as space;
ghost use Rattle.yak_model.specs.Kept.{AreDistinct, AreHomesValid, AreValid, IsFieldSource, IsHeldBy, IsJoinOf, IsListReached, IsListSource, IsRest, IsTargetValid, IsAbove, IsLedTo, IsLiveName, IsMarked, IsMarkedName, ListInside, ListRefers, IsFirst, IsHeld, final, home_at, settled, joined, name_at, fields_of_place, state_of, target_at, target_words, threads_at, AreSmall};
ghost use Rattle.yak_model.specs.Graph.{Fields, Limits, fields_of, idle, size_of};
ghost use Rattle.yak_model.specs.Lawful.{HasWords};
ghost use Rattle.yak_model.specs.Spaces.{Collects, EndsEpoch, Escapes, IsReached};

use crate::datum::Datum;
use crate::graph::ThreadState;
use epoch_lattice::{MAX_DEPTH, Space, join, parent};
use object_layout::{Name, OBJECT_WORDS, PAGE_WORDS};
use std::alloc::{AllocError, Global};
use std::marker::Model;

/// A present object.
#[derive(Drop)]
pub struct KeptObject {
    name: Name,
    home: Space,
    fields: Vec<Datum>,
}

impl Model for KeptObject {
    ghost use Rattle.yak_model.specs.Graph.{Fields};
    ghost use Rattle.yak_model.specs.Kept.{Kept};

    ghost Value = { Kept };

    ghost view = { λ a. record { name = a.name; home = a.home; content = Fields a.fields.items } };
}

impl KeptObject {
    /// An object of these fields in a space.
    pub(crate) fn new(name: Name, home: Space, fields: Vec<Datum>) -> KeptObject
        ensures { result ≡ record { name = name; home = home; content = Fields fields.items } }
    {
        KeptObject { name, home, fields }
    }

    /// Whether the object is in this space.
    fn is_in(&self, space: Space) -> bool
        ensures { IsTrue result ↔ (self.now.home ≡ space) }
    {
        self.home == space
    }

    /// The name of the object.
    pub(crate) fn name(&self) -> Name
        ensures { result ≡ self.now.name }
    {
        self.name
    }

    /// The space of the object.
    pub(crate) fn home(&self) -> Space
        ensures { result ≡ self.now.home }
    {
        self.home
    }

    /// Puts the object into a space.
    fn set_home(&mut self, home: Space)
        ensures { self.new ≡ record self.old { home = home } }
    {
        self.home = home;
    }

    /// The words of the object in a heap.
    fn size(&self) -> u64
        ensures { result ≡ size_of self.now.content }
    {
        self.fields.len() as u64 + u64::from(OBJECT_WORDS)
    }

    /// The fields of the object.
    pub(crate) fn fields(&self) -> &[Datum]
        ensures { result.now ≡ fields_of self.now.content }
    {
        &self.fields
    }
}

/// Where the object of a name stands.
fn place_of(objects: &[KeptObject], name: Name) -> Option<usize>
    ensures found { IfSome result (λ i. (i < length objects.now) × (name_at objects.now i ≡ name)) }
    ensures none { IfNone result ((i : ℕ) → i < length objects.now → name_at objects.now i ≢ name) }
{
    for (i, kept) in objects.iter().enumerate() {
        if kept.name == name {
            return Some(i);
        }
    }
    None
}

/// An object without a mark to which one of the fields refers.
fn unmarked_in(objects: &[KeptObject], fields: &[Datum], marks: &[bool]) -> Option<usize>
    requires distinct { AreDistinct objects.now }
    requires marks { length marks.now ≡ length objects.now }
    ensures place { IfSome result (λ i. i < length objects.now) }
    ensures unmarked { IfSome result (λ i. slice_index_or marks.now i true ≡ false) }
    ensures referred { IfSome result (λ i. Contains fields.now (datum.Object (name_at objects.now i))) }
    ensures none { IfNone result ((name : Name) → Contains fields.now (datum.Object name) → IsMarkedName objects.now marks.now name) }
{
    for field in fields {
        if let Datum::Object(name) = *field {
            if let Some(i) = place_of(objects, name) {
                if !marks[i] {
                    return Some(i);
                }
            }
        }
    }
    None
}

/// An object without a mark to which an object with a mark refers.
fn unmarked(objects: &[KeptObject], marks: &[bool]) -> Option<usize>
    requires distinct { AreDistinct objects.now }
    requires marks { length marks.now ≡ length objects.now }
    ensures place { IfSome result (λ i. i < length objects.now) }
    ensures unmarked { IfSome result (λ i. slice_index_or marks.now i true ≡ false) }
    ensures referred { IfSome result (λ i. (j : ℕ) × (j < length objects.now) × IsMarked marks.now j × Contains (fields_of_place objects.now j) (datum.Object (name_at objects.now i))) }
    ensures none { IfNone result ((j : ℕ) (name : Name) → j < length objects.now → IsMarked marks.now j → Contains (fields_of_place objects.now j) (datum.Object name) → IsMarkedName objects.now marks.now name) }
{
    for (j, kept) in objects.iter().enumerate() {
        if marks[j] {
            if let Some(i) = unmarked_in(objects, &kept.fields, marks) {
                return Some(i);
            }
        }
    }
    None
}

/// Marks all objects that the marked ones lead to.
fn mark_all(objects: &[KeptObject], marks: &mut [bool])
    requires distinct { AreDistinct objects.now }
    requires marks { length marks.old ≡ length objects.now }
    ensures sound { (i : ℕ) → i < length objects.now → IsMarked marks.new i → IsReached (ListRefers objects.now) (λ root. (j : ℕ) × (j < length objects.now) × IsMarked marks.old j × (name_at objects.now j ≡ root)) (name_at objects.now i) }
    ensures complete { (name : Name) → IsReached (ListRefers objects.now) (λ root. (j : ℕ) × (j < length objects.now) × IsMarked marks.old j × (name_at objects.now j ≡ root)) name → IsMarkedName objects.now marks.new name }
{
    while let Some(i) = unmarked(objects, marks) {
        marks[i] = true;
    }
}

/// The target of an object after it was reached from one with this target, where it isn't the former one.
fn raised(before: Option<Space>, space: Space) -> Option<Space>
    ensures none { IfNone result ((old : Space) × (before ≡ Some old) × IsBelow space old) }
    ensures joined { IfSome result (λ new. new ≡ joined before space) }
    ensures changed { IfSome result (λ new. before ≢ Some new) }
{
    match before {
        None => Some(space),
        Some(old) => {
            let new = join(old, space);
            if new == old { None } else { Some(new) }
        }
    }
}

/// An object of the region to which one of the fields refers, and whose target has to be above this one.
fn raise_in(
    objects: &[KeptObject],
    region: Space,
    fields: &[Datum],
    space: Space,
    targets: &[Option<Space>],
) -> Option<(usize, Space)>
    requires distinct { AreDistinct objects.now }
    requires targets { length targets.now ≡ length objects.now }
    ensures place { IfSome result (λ r. r.0 < length objects.now) }
    ensures home { IfSome result (λ r. home_at objects.now r.0 ≡ region) }
    ensures joined { IfSome result (λ r. r.1 ≡ joined (target_at targets.now r.0) space) }
    ensures changed { IfSome result (λ r. target_at targets.now r.0 ≢ Some r.1) }
    ensures referred { IfSome result (λ r. Contains fields.now (datum.Object (name_at objects.now r.0))) }
    ensures none { IfNone result ((name : Name) → Contains fields.now (datum.Object name) → IsAbove objects.now region targets.now space name) }
{
    for field in fields {
        if let Datum::Object(name) = *field {
            if let Some(i) = place_of(objects, name) {
                let kept = &objects[i];
                if kept.home == region {
                    if let Some(new) = raised(targets[i], space) {
                        return Some((i, new));
                    }
                }
            }
        }
    }
    None
}

/// An object of the region whose target has to be above that of one that refers to it.
fn raise(objects: &[KeptObject], region: Space, targets: &[Option<Space>]) -> Option<(usize, Space)>
    requires distinct { AreDistinct objects.now }
    requires targets { length targets.now ≡ length objects.now }
    ensures place { IfSome result (λ r. r.0 < length objects.now) }
    ensures home { IfSome result (λ r. home_at objects.now r.0 ≡ region) }
    ensures changed { IfSome result (λ r. target_at targets.now r.0 ≢ Some r.1) }
    ensures cause { IfSome result (λ r. (j : ℕ) × (space : Space) × (j < length objects.now) × (home_at objects.now j ≡ region) × (target_at targets.now j ≡ Some space) × Contains (fields_of_place objects.now j) (datum.Object (name_at objects.now r.0)) × (r.1 ≡ joined (target_at targets.now r.0) space)) }
    ensures none { IfNone result ((j : ℕ) (space : Space) (name : Name) → j < length objects.now → home_at objects.now j ≡ region → target_at targets.now j ≡ Some space → Contains (fields_of_place objects.now j) (datum.Object name) → IsAbove objects.now region targets.now space name) }
{
    for (j, kept) in objects.iter().enumerate() {
        if kept.is_in(region) {
            if let Some(space) = targets[j] {
                if let Some(found) = raise_in(objects, region, kept.fields(), space, targets) {
                    return Some(found);
                }
            }
        }
    }
    None
}

/// Gives each object that walks inside the region lead to the join of the targets that they begin with.
fn spread(objects: &[KeptObject], region: Space, targets: &mut [Option<Space>])
    requires distinct { AreDistinct objects.now }
    requires targets { length targets.old ≡ length objects.now }
    requires valid { AreValid MAX_DEPTH targets.old }
    ensures valid { AreValid MAX_DEPTH targets.new }
    ensures caused { (i : ℕ) (space : Space) → i < length objects.now → target_at targets.new i ≡ Some space → (first : Space) × IsLedTo objects.now region targets.old (name_at objects.now i) first }
    ensures least { (i : ℕ) (space : Space) → i < length objects.now → target_at targets.new i ≡ Some space → (bound : Space) → ((first : Space) → IsLedTo objects.now region targets.old (name_at objects.now i) first → IsBelow first bound) → IsBelow space bound }
    ensures above { (i : ℕ) (first : Space) → i < length objects.now → IsLedTo objects.now region targets.old (name_at objects.now i) first → (space : Space) × (target_at targets.new i ≡ Some space) × IsBelow first space }
{
    while let Some((i, space)) = raise(objects, region, targets) {
        targets[i] = Some(space);
    }
}

/// Whether a slot of some stack refers to the object.
fn is_held(threads: &[ThreadState], name: Name) -> bool
    ensures { IsTrue result ↔ IsHeld threads.now name }
{
    for state in threads {
        if state.holds(name) {
            return true;
        }
    }
    false
}

/// Whether a collection begins with the object.
fn is_first(kept: &KeptObject, threads: &[ThreadState]) -> bool
    ensures { IsTrue result ↔ (kept.now.home ≢ space.Control) ⊎ IsHeld threads.now kept.now.name }
{
    !kept.is_in(Space::Control) || is_held(threads, kept.name())
}

/// A mark for each object with which a collection begins.
fn first_marks(
    alloc: Global,
    objects: &[KeptObject],
    threads: &[ThreadState],
) -> Result<Vec<bool>, AllocError>
    ensures size { IfOk result (λ marks. length marks.items ≡ length objects.now) }
    ensures marks { IfOk result (λ marks. (i : ℕ) → i < length objects.now → IsMarked marks.items i ↔ IsFirst threads.now objects.now i) }
{
    let mut marks = Vec::new(alloc);
    for kept in objects {
        marks.push(is_first(kept, threads))?;
    }
    Ok(marks)
}

/// Drops the objects that have no space any more, and puts the others into theirs.
fn settle(objects: &mut Vec<KeptObject>, homes: &[Option<Space>])
    requires { length homes.now ≡ length objects.old.items }
    ensures { objects.new.items ≡ settled objects.old.items homes.now }
{
    let mut i = objects.len();
    while i > 0 {
        i -= 1;
        if let Some(home) = homes[i] {
            let kept = &mut objects[i];
            kept.set_home(home);
        } else {
            let _dropped = objects.remove(i);
        }
    }
}

/// The space of each object that a mark keeps.
fn marked_homes(
    alloc: Global,
    objects: &[KeptObject],
    marks: &[bool],
) -> Result<Vec<Option<Space>>, AllocError>
    requires { length marks.now ≡ length objects.now }
    ensures size { IfOk result (λ homes. length homes.items ≡ length objects.now) }
    ensures kept { IfOk result (λ homes. (i : ℕ) → i < length objects.now → IsMarked marks.now i → target_at homes.items i ≡ Some (home_at objects.now i)) }
    ensures dropped { IfOk result (λ homes. (i : ℕ) → i < length objects.now → (IsMarked marks.now i → ⊥) → target_at homes.items i ≡ None) }
{
    let mut homes = Vec::new(alloc);
    for (i, kept) in objects.iter().enumerate() {
        homes.push(if marks[i] { Some(kept.home()) } else { None })?;
    }
    Ok(homes)
}

/// A mark for each object that a collection keeps.
fn live_marks(
    alloc: Global,
    objects: &[KeptObject],
    threads: &[ThreadState],
) -> Result<Vec<bool>, AllocError>
    requires { AreDistinct objects.now }
    ensures size { IfOk result (λ marks. length marks.items ≡ length objects.now) }
    ensures live { IfOk result (λ marks. (i : ℕ) → i < length objects.now → IsMarked marks.items i ↔ IsLiveName threads.now objects.now (name_at objects.now i)) }
{
    let mut marks = first_marks(alloc, objects, threads)?;
    mark_all(objects, &mut marks);
    Ok(marks)
}

/// The space of each object that a collection keeps.
fn live_homes(
    alloc: Global,
    objects: &[KeptObject],
    threads: &[ThreadState],
) -> Result<Vec<Option<Space>>, AllocError>
    requires { AreDistinct objects.now }
    ensures size { IfOk result (λ homes. length homes.items ≡ length objects.now) }
    ensures kept { IfOk result (λ homes. (i : ℕ) → i < length objects.now → IsLiveName threads.now objects.now (name_at objects.now i) → target_at homes.items i ≡ Some (home_at objects.now i)) }
    ensures dropped { IfOk result (λ homes. (i : ℕ) → i < length objects.now → (IsLiveName threads.now objects.now (name_at objects.now i) → ⊥) → target_at homes.items i ≡ None) }
{
    let marks = live_marks(alloc, objects, threads)?;
    marked_homes(alloc, objects, &marks)
}

/// A collection of the control space.
pub(crate) fn collect(
    alloc: Global,
    objects: &mut Vec<KeptObject>,
    threads: &[ThreadState],
) -> Result<(), AllocError>
    requires distinct { AreDistinct objects.old.items }
    requires homes { AreHomesValid objects.old.items }
    ensures ok { OnOk result ((limits : Limits) → Collects (state_of limits threads.now objects.old.items) (state_of limits threads.now objects.new.items)) }
    ensures rest { OnOk result (IsRest objects.old.items objects.new.items) }
    ensures err { OnErr result (objects.new ≡ objects.old) }
{
    let homes = live_homes(alloc, objects, threads)?;
    settle(objects, &homes);
    Ok(())
}

/// The join with one space more, where the condition holds.
fn added_if(before: Option<Space>, condition: bool, space: Space) -> Option<Space>
    ensures { result ≡ cond condition (Some (joined before space)) before }
{
    if condition {
        match before {
            None => Some(space),
            Some(old) => Some(join(old, space)),
        }
    } else {
        before
    }
}

impl KeptObject {
    /// Whether a field refers to the object of a name.
    fn refers(&self, name: Name) -> bool
        ensures { IsTrue result ↔ Contains (fields_of self.now.content) (datum.Object name) }
    {
        let sought = Datum::Object(name);
        for value in &self.fields {
            if *value == sought {
                return true;
            }
        }
        false
    }

    /// Whether the object is outside the region and refers to the object of a name.
    fn is_source(&self, region: Space, name: Name) -> bool
        ensures { IsTrue result ↔ (self.now.home ≢ region) × Contains (fields_of self.now.content) (datum.Object name) }
    {
        !self.is_in(region) && self.refers(name)
    }
}

/// The join of the spaces of all objects outside the region that refer to the object.
fn from_fields(objects: &[KeptObject], region: Space, name: Name) -> Option<Space>
    requires { AreHomesValid objects.now }
    ensures valid { IsTargetValid result }
    ensures join { IsJoinOf (IsFieldSource objects.now region name (length objects.now)) result }
{
    let mut target = None;
    for kept in objects {
        target = added_if(target, kept.is_source(region, name), kept.home());
    }
    target
}

/// Whether the stack of a thread refers to the object.
fn is_held_by(threads: &[ThreadState], t: u8, name: Name) -> bool
    requires { (1 ≤ t) × (t ≤ length threads.now) }
    ensures { IsTrue result ↔ IsHeldBy threads.now t name }
{
    threads[t as usize - 1].holds(name)
}

/// Whether the stack of another thread refers to the object.
fn is_held_by_other(threads: &[ThreadState], t: u8, name: Name) -> bool
    requires { 1 ≤ t }
    ensures { IsTrue result ↔ (u : ℕ) × (u ≢ t) × IsHeldBy threads.now u name }
{
    for (i, state) in threads.iter().enumerate() {
        if i != t as usize - 1 && state.holds(name) {
            return true;
        }
    }
    false
}

/// The join of all references to the object from outside the region.
fn source_target(
    objects: &[KeptObject],
    threads: &[ThreadState],
    t: u8,
    region: Space,
    name: Name,
) -> Option<Space>
    requires homes { AreHomesValid objects.now }
    requires region { IsValid MAX_DEPTH region }
    requires thread { (1 ≤ t) × (t ≤ length threads.now) }
    ensures valid { IsTargetValid result }
    ensures join { IsJoinOf (IsListSource threads.now objects.now t region name) result }
{
    let fields = from_fields(objects, region, name);
    let own = added_if(fields, is_held_by(threads, t, name), parent(region));
    added_if(own, is_held_by_other(threads, t, name), Space::Control)
}

/// The join of all references to an object of the region from outside, and none for another object.
fn target_of(
    kept: &KeptObject,
    objects: &[KeptObject],
    threads: &[ThreadState],
    t: u8,
    region: Space,
) -> Option<Space>
    requires homes { AreHomesValid objects.now }
    requires region { IsValid MAX_DEPTH region }
    requires thread { (1 ≤ t) × (t ≤ length threads.now) }
    ensures valid { IsTargetValid result }
    ensures inside { kept.now.home ≡ region → IsJoinOf (IsListSource threads.now objects.now t region kept.now.name) result }
    ensures outside { kept.now.home ≢ region → result ≡ None }
{
    if kept.is_in(region) {
        source_target(objects, threads, t, region, kept.name())
    } else {
        None
    }
}

/// The joins of the references from outside to each object of the region.
fn source_targets(
    alloc: Global,
    objects: &[KeptObject],
    threads: &[ThreadState],
    t: u8,
    region: Space,
) -> Result<Vec<Option<Space>>, AllocError>
    requires homes { AreHomesValid objects.now }
    requires region { IsValid MAX_DEPTH region }
    requires thread { (1 ≤ t) × (t ≤ length threads.now) }
    ensures size { IfOk result (λ targets. length targets.items ≡ length objects.now) }
    ensures valid { IfOk result (λ targets. (i : ℕ) → i < length objects.now → IsTargetValid (target_at targets.items i)) }
    ensures inside { IfOk result (λ targets. (i : ℕ) → i < length objects.now → home_at objects.now i ≡ region → IsJoinOf (IsListSource threads.now objects.now t region (name_at objects.now i)) (target_at targets.items i)) }
    ensures outside { IfOk result (λ targets. (i : ℕ) → i < length objects.now → home_at objects.now i ≢ region → target_at targets.items i ≡ None) }
{
    let mut targets = Vec::new(alloc);
    for kept in objects {
        targets.push(target_of(kept, objects, threads, t, region))?;
    }
    Ok(targets)
}

/// The target of an object at an end that may be tight.
fn final_target(target: Option<Space>, tight: bool) -> Option<Space>
    ensures { result ≡ final tight target }
{
    match target {
        None => None,
        Some(space) => Some(if tight { Space::Control } else { space }),
    }
}

/// The space of an object after the end of the region.
fn home_after(kept: &KeptObject, region: Space, target: Option<Space>, tight: bool) -> Option<Space>
    ensures inside { kept.now.home ≡ region → result ≡ final tight target }
    ensures outside { kept.now.home ≢ region → result ≡ Some kept.now.home }
{
    if kept.is_in(region) {
        final_target(target, tight)
    } else {
        Some(kept.home())
    }
}

/// The space of each object after the end of the region.
fn homes_after(
    alloc: Global,
    objects: &[KeptObject],
    region: Space,
    targets: &[Option<Space>],
    tight: bool,
) -> Result<Vec<Option<Space>>, AllocError>
    requires { length targets.now ≡ length objects.now }
    ensures size { IfOk result (λ homes. length homes.items ≡ length objects.now) }
    ensures inside { IfOk result (λ homes. (i : ℕ) → i < length objects.now → home_at objects.now i ≡ region → target_at homes.items i ≡ final tight (target_at targets.now i)) }
    ensures outside { IfOk result (λ homes. (i : ℕ) → i < length objects.now → home_at objects.now i ≢ region → target_at homes.items i ≡ Some (home_at objects.now i)) }
{
    let mut homes = Vec::new(alloc);
    for (i, kept) in objects.iter().enumerate() {
        homes.push(home_after(kept, region, targets[i], tight))?;
    }
    Ok(homes)
}

/// The number of objects that have a target.
fn count_targets(targets: &[Option<Space>]) -> usize
    ensures { result ≡ count_by is_some targets.now }
{
    targets.iter().filter(|target| target.is_some()).count()
}

/// The target of each object that escapes from the region, and none for the others.
fn escape_targets(
    alloc: Global,
    objects: &[KeptObject],
    threads: &[ThreadState],
    t: u8,
    region: Space,
) -> Result<Vec<Option<Space>>, AllocError>
    requires distinct { AreDistinct objects.now }
    requires homes { AreHomesValid objects.now }
    requires region { IsValid MAX_DEPTH region }
    requires thread { (1 ≤ t) × (t ≤ length threads.now) }
    ensures size { IfOk result (λ targets. length targets.items ≡ length objects.now) }
    ensures join { IfOk result (λ targets. (i : ℕ) → i < length objects.now → IsJoinOf (IsListReached threads.now objects.now t region (name_at objects.now i)) (target_at targets.items i)) }
    ensures valid { IfOk result (λ targets. AreValid MAX_DEPTH targets.items) }
{
    let mut targets = source_targets(alloc, objects, threads, t, region)?;
    spread(objects, region, &mut targets);
    Ok(targets)
}

/// The end of the innermost epoch of a thread, but for its depth, with the number of objects moved.
pub(crate) fn end_epoch(
    alloc: Global,
    objects: &mut Vec<KeptObject>,
    threads: &[ThreadState],
    t: u8,
    region: Space,
    tight: bool,
) -> Result<usize, AllocError>
    requires distinct { AreDistinct objects.old.items }
    requires homes { AreHomesValid objects.old.items }
    requires valid { IsValid MAX_DEPTH region }
    requires thread { (1 ≤ t) × (t ≤ length threads.now) }
    requires region { region ≡ inner_of t (slice_index_or threads.now (t - 1) idle).depth }
    requires open_epoch { 0 < (slice_index_or threads.now (t - 1) idle).depth }
    ensures ok { IfOk result (λ moved. (limits : Limits) → EndsEpoch (state_of limits threads.now objects.old.items) t moved tight (state_of limits (threads_at threads.now t ((slice_index_or threads.now (t - 1) idle).depth - 1)) objects.new.items)) }
    ensures rest { OnOk result (IsRest objects.old.items objects.new.items) }
    ensures err { OnErr result (objects.new ≡ objects.old) }
{
    let targets = escape_targets(alloc, objects, threads, t, region)?;
    let homes = homes_after(alloc, objects, region, &targets, tight)?;
    settle(objects, &homes);
    Ok(count_targets(&targets))
}

/// The words of the objects that have a target.
fn target_words(objects: &[KeptObject], targets: &[Option<Space>]) -> u64
    requires size { length targets.now ≡ length objects.now }
    requires small { AreSmall objects.now }
    ensures words { result ≡ target_words objects.now targets.now }
    ensures few { result ≤ PAGE_WORDS * length objects.now }
{
    let mut words = 0;
    for (i, kept) in objects.iter().enumerate() {
        if targets[i].is_some() {
            words += kept.size();
        }
    }
    words
}

/// The words of the objects that escape from the region of a thread.
pub(crate) fn escape_words(
    alloc: Global,
    objects: &[KeptObject],
    threads: &[ThreadState],
    t: u8,
    region: Space,
) -> Result<u64, AllocError>
    requires distinct { AreDistinct objects.now }
    requires homes { AreHomesValid objects.now }
    requires small { AreSmall objects.now }
    requires region { IsValid MAX_DEPTH region }
    requires thread { (1 ≤ t) × (t ≤ length threads.now) }
    ensures few { IfOk result (λ words. words ≤ PAGE_WORDS * length objects.now) }
    ensures words { IfOk result (λ words. (limits : Limits) → HasWords (state_of limits threads.now objects.now) (Escapes (state_of limits threads.now objects.now) t region) words) }
{
    let targets = escape_targets(alloc, objects, threads, t, region)?;
    Ok(target_words(objects, &targets))
}
