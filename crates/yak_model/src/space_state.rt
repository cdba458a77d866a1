//! The heap as a graph of present objects in spaces.
ghost use Rattle.std.specs.Prelude.{◌≡◌, ◌≢◌, ◌*◌, ◌≤◌, ◌<◌, ◌++◌, ◌∷◌, [], IfOk, IfSome, IfNone, OnErr, OnOk, IsSome, MatchOption, true, false, ℕ, length};
ghost use Rattle.std.specs.FinMap.{from_entries};
ghost use Rattle.object_layout.specs.Calls.{IsCall};
ghost use Rattle.object_layout.specs.declared.calls.Call.TheVariants as asked;
ghost use Rattle.object_layout.specs.declared.replies.Reply.TheVariants as said;
ghost use Rattle.yak_model.specs.Graph.{IsThread, make, next_name, refusal_of, standard_limits, thread_of};
ghost use Rattle.yak_model.specs.History.{Said};
ghost use Rattle.yak_model.specs.Kept.{IsRest};
ghost use Rattle.std.specs.List.{sum_by};
ghost use Rattle.yak_model.specs.Lawful.{HasWords, control_words, open_regions, region_words};
ghost use Rattle.yak_model.specs.Machine.{CanTurn, IsSound, contents_of, control_size, homes_of, region_size, shown_state, size_at};
ghost use Rattle.yak_model.specs.Spaces.{Collects, EndsEpoch, Escapes, Turns, innermost, opening_spaces};

use crate::MOST_WORDS;
use crate::datum::Datum;
use crate::graph::GraphState;
use crate::homes::{Home, homes_of, kept_objects, next_home, object_map};
use crate::spaces::{KeptObject, collect, end_epoch, escape_words};
use epoch_lattice::{MAX_DEPTH, Space, inner};
use object_layout::{Call, MAX_THREADS, Name, NoMemory, OBJECT_WORDS, PAGE_WORDS, Reply};
use std::alloc::{AllocError, Global};
use std::marker::Model;

/// The heap as a graph of the objects that are present, with the space of each.
#[derive(Drop)]
pub struct SpaceState {
    graph: GraphState,
    homes: Vec<Home>,
    alloc: Global,
}

impl Model for SpaceState {
    ghost use Rattle.std.specs.FinMap.{code};
    ghost use Rattle.std.specs.Coded.{codes};
    ghost use Rattle.yak_model.specs.Spaces.{SpaceState as State};
    ghost use Rattle.yak_model.specs.Machine.{IsSound, shown_state};

    ghost Value = { State };

    ghost coded = { Prim.hlevel (codes, code) };

    ghost view = { λ a. shown_state a.graph a.homes.items };

    ghost invariant = { λ a. IsSound a.graph a.homes.items };
}

/// The number of fields of the object that a call makes, where it makes one.
fn fields_made(call: Call, reply: Reply) -> Option<u32>
    ensures some { IfSome result (λ k. (call ≡ asked.New k) × (reply ≡ said.Ok)) }
    ensures none { IfNone result ((k : ℕ) → call ≡ asked.New k → reply ≢ said.Ok) }
{
    match (call, reply) {
        (Call::New(k), Reply::Ok) => Some(k),
        _ => None,
    }
}

/// Makes an object in the innermost space of a thread, where the call isn't refused.
fn make_object(
    graph: &mut GraphState,
    homes: &mut Vec<Home>,
    thread: u8,
    k: u32,
) -> Result<bool, AllocError>
    requires sound { IsSound graph.old homes.old.items }
    requires thread { IsThread graph.old thread }
    ensures allowed { IfOk result (λ done. done ≡ true → refusal_of graph.old thread (asked.New k) ≡ None) }
    ensures graph { IfOk result (λ done. done ≡ true → graph.new ≡ make graph.old thread k) }
    ensures homes { IfOk result (λ done. done ≡ true → homes.new.items ≡ homes.old.items ++ (record { name = next_name graph.old thread; space = innermost graph.old thread }) ∷ []) }
    ensures denied { IfOk result (λ done. done ≡ false → IsSome (refusal_of graph.old thread (asked.New k))) }
    ensures same_graph { IfOk result (λ done. done ≡ false → graph.new ≡ graph.old) }
    ensures same_homes { IfOk result (λ done. done ≡ false → homes.new.items ≡ homes.old.items) }
    ensures err_graph { OnErr result (graph.new ≡ graph.old) }
    ensures err_homes { OnErr result (homes.new.items ≡ homes.old.items) }
{
    if graph.refusal(thread, Call::New(k)).is_some() {
        return Ok(false);
    }
    homes.push(next_home(graph, thread))?;
    if graph.make(thread, k).is_err() {
        let _undone = homes.pop();
        return Err(AllocError);
    }
    Ok(true)
}

/// Makes a call that neither ends an epoch nor collects, where the reply is allowed.
fn make_call(
    graph: &mut GraphState,
    homes: &mut Vec<Home>,
    thread: u8,
    call: Call,
    reply: Reply,
) -> Result<bool, AllocError>
    requires sound { IsSound graph.old homes.old.items }
    requires thread { IsThread graph.old thread }
    requires number { IsCall call }
    requires no_end { call ≢ asked.End }
    requires no_collect { call ≢ asked.Collect }
    ensures sound { IsSound graph.new homes.new.items }
    ensures allowed { IfOk result (λ done. done ≡ true → Turns (shown_state graph.old homes.old.items) (Said thread call reply) (shown_state graph.new homes.new.items)) }
    ensures denied { IfOk result (λ done. done ≡ false → CanTurn (shown_state graph.old homes.old.items) (Said thread call reply) → ⊥) }
    ensures same { IfOk result (λ done. done ≡ false → shown_state graph.new homes.new.items ≡ shown_state graph.old homes.old.items) }
    ensures err { OnErr result (shown_state graph.new homes.new.items ≡ shown_state graph.old homes.old.items) }
    ensures threads { length graph.new.threads ≡ length graph.old.threads }
{
    match fields_made(call, reply) {
        Some(k) => make_object(graph, homes, thread, k),
        None => graph.answer(thread, call, reply),
    }
}

/// Puts these objects in the place of all others.
fn put_objects(
    alloc: Global,
    graph: &mut GraphState,
    homes: &mut Vec<Home>,
    objects: &[KeptObject],
) -> Result<(), AllocError>
    ensures graph { OnOk result (graph.new ≡ record graph.old { objects = from_entries (contents_of objects.now) }) }
    ensures homes { OnOk result (homes.new.items ≡ homes_of objects.now) }
    ensures err_graph { OnErr result (graph.new ≡ graph.old) }
    ensures err_homes { OnErr result (homes.new.items ≡ homes.old.items) }
{
    let held = object_map(alloc, objects)?;
    let new_homes = homes_of(alloc, objects)?;
    graph.set_objects(held);
    *homes = new_homes;
    Ok(())
}

/// Collects the control space.
fn collect_objects(
    alloc: Global,
    graph: &mut GraphState,
    homes: &mut Vec<Home>,
) -> Result<(), AllocError>
    requires { IsSound graph.old homes.old.items }
    ensures sound { IsSound graph.new homes.new.items }
    ensures ok { OnOk result (Collects (shown_state graph.old homes.old.items) (shown_state graph.new homes.new.items)) }
    ensures err { OnErr result (shown_state graph.new homes.new.items ≡ shown_state graph.old homes.old.items) }
{
    let mut objects = kept_objects(alloc, graph, homes)?;
    collect(alloc, &mut objects, graph.threads())?;
    put_objects(alloc, graph, homes, &objects)?;
    Ok(())
}

/// Ends the innermost epoch of a thread that has one open.
fn end_innermost(
    alloc: Global,
    graph: &mut GraphState,
    homes: &mut Vec<Home>,
    thread: u8,
    tight: bool,
) -> Result<u64, AllocError>
    requires sound { IsSound graph.old homes.old.items }
    requires thread { IsThread graph.old thread }
    requires open_epoch { 0 < (thread_of graph.old thread).depth }
    ensures sound { IsSound graph.new homes.new.items }
    ensures ok { IfOk result (λ moved. EndsEpoch (shown_state graph.old homes.old.items) thread moved tight (shown_state graph.new homes.new.items)) }
    ensures err { OnErr result (shown_state graph.new homes.new.items ≡ shown_state graph.old homes.old.items) }
{
    let depth = graph.depth_of(thread);
    let region = inner(thread, depth);
    let mut objects = kept_objects(alloc, graph, homes)?;
    let moved = end_epoch(alloc, &mut objects, graph.threads(), thread, region, tight)?;
    put_objects(alloc, graph, homes, &objects)?;
    graph.set_depth(thread, depth - 1);
    Ok(moved as u64)
}

/// The words of the object of a home.
fn size_of(graph: &GraphState, home: Home) -> u64
    requires { size_at graph.now home.name ≤ PAGE_WORDS }
    ensures size { result ≡ size_at graph.now home.name }
    ensures few { result ≤ PAGE_WORDS }
{
    graph.fields_at(Datum::Object(home.name)).len() as u64 + u64::from(OBJECT_WORDS)
}

/// The words of the objects of the control space.
fn words_in_control(graph: &GraphState, homes: &[Home]) -> u64
    requires { IsSound graph.now homes.now }
    ensures words { result ≡ sum_by (control_size graph.now) homes.now }
    ensures few { result ≤ MOST_WORDS }
{
    let mut words = 0;
    for home in homes {
        if home.space == Space::Control {
            words += size_of(graph, *home);
        }
    }
    words
}

/// The words of the objects of all regions.
fn words_in_regions(graph: &GraphState, homes: &[Home]) -> u64
    requires { IsSound graph.now homes.now }
    ensures words { result ≡ sum_by (region_size graph.now) homes.now }
    ensures few { result ≤ MOST_WORDS }
{
    let mut words = 0;
    for home in homes {
        if home.space != Space::Control {
            words += size_of(graph, *home);
        }
    }
    words
}

/// The words of the objects that escape from the innermost region of a thread.
fn words_escaping(
    alloc: Global,
    graph: &GraphState,
    homes: &[Home],
    thread: u8,
) -> Result<u64, AllocError>
    requires sound { IsSound graph.now homes.now }
    requires thread { IsThread graph.now thread }
    requires open_epoch { 0 < (thread_of graph.now thread).depth }
    ensures words { IfOk result (λ words. HasWords (shown_state graph.now homes.now) (Escapes (shown_state graph.now homes.now) thread (innermost graph.now thread)) words) }
    ensures few { IfOk result (λ words. words ≤ MOST_WORDS) }
{
    let region = inner(thread, graph.depth_of(thread));
    let objects = kept_objects(alloc, graph, homes)?;
    escape_words(alloc, &objects, graph.threads(), thread, region)
}

/// The home of the root object.
fn root_home(alloc: Global) -> Result<Vec<Home>, AllocError>
    ensures { IfOk result (λ homes. homes.items ≡ (record { name = record { thread = 0; serial = 0 }; space = Space.Control }) ∷ []) }
{
    let mut homes = Vec::new(alloc);
    homes.push(Home {
        name: Name {
            thread: 0,
            serial: 0,
        },
        space: Space::Control,
    })?;
    Ok(homes)
}

/// The spaces of a heap of so many threads as it opens.
fn opened(alloc: Global, threads: u8) -> Result<SpaceState, AllocError>
    requires first { 1 ≤ threads }
    requires last { threads ≤ MAX_THREADS }
    ensures { IfOk result (λ state. state ≡ opening_spaces standard_limits threads) }
{
    let graph = GraphState::opened(alloc, threads)?;
    let homes = root_home(alloc)?;
    Ok(SpaceState {
        graph,
        homes,
        alloc,
    })
}

impl SpaceState {
    /// The spaces of a heap of so many threads as it opens: the root alone is present, in the control space.
    pub fn new(alloc: Global, threads: u8) -> Result<SpaceState, NoMemory>
        requires first { 1 ≤ threads }
        requires last { threads ≤ MAX_THREADS }
        ensures { IfOk result (λ state. state ≡ opening_spaces standard_limits threads) }
    {
        opened(alloc, threads).map_err(|_| NoMemory)
    }

    /// Makes a call that neither ends an epoch nor collects, where the reply is allowed, and tells whether it is. Otherwise
    /// nothing changes.
    pub fn call(&mut self, thread: u8, call: Call, reply: Reply) -> Result<bool, NoMemory>
        requires thread { IsThread self.old.graph thread }
        requires number { IsCall call }
        requires no_end { call ≢ asked.End }
        requires no_collect { call ≢ asked.Collect }
        ensures allowed { IfOk result (λ done. done ≡ true → Turns self.old (Said thread call reply) self.new) }
        ensures denied { IfOk result (λ done. done ≡ false → CanTurn self.old (Said thread call reply) → ⊥) }
        ensures same { IfOk result (λ done. done ≡ false → self.new ≡ self.old) }
        ensures err { OnErr result (self.new ≡ self.old) }
        ensures threads { length self.new.graph.threads ≡ length self.old.graph.threads }
    {
        make_call(&mut self.graph, &mut self.homes, thread, call, reply).map_err(|_| NoMemory)
    }

    /// Ends the innermost epoch of a thread, and tells how many objects moved. With no epoch open it is `None`, and nothing
    /// changes. At a tight end all that escapes goes to the control space.
    pub fn end(&mut self, thread: u8, tight: bool) -> Result<Option<u64>, NoMemory>
        requires { IsThread self.old.graph thread }
        ensures ended { IfOk result (λ end. IfSome end (λ moved. EndsEpoch self.old thread moved tight self.new)) }
        ensures none { IfOk result (λ end. IfNone end ((thread_of self.old.graph thread).depth ≡ 0)) }
        ensures same { IfOk result (λ end. IfNone end (self.new ≡ self.old)) }
        ensures err { OnErr result (self.new ≡ self.old) }
        ensures threads { length self.new.graph.threads ≡ length self.old.graph.threads }
    {
        if self.graph.depth_of(thread) == 0 {
            return Ok(None);
        }
        match end_innermost(self.alloc, &mut self.graph, &mut self.homes, thread, tight) {
            Ok(moved) => Ok(Some(moved)),
            Err(_) => Err(NoMemory),
        }
    }

    /// Collects the control space: what no walk reaches from a stack or from a region is gone.
    pub fn collect(&mut self) -> Result<(), NoMemory>
        ensures ok { OnOk result (Collects self.old self.new) }
        ensures err { OnErr result (self.new ≡ self.old) }
        ensures threads { length self.new.graph.threads ≡ length self.old.graph.threads }
    {
        collect_objects(self.alloc, &mut self.graph, &mut self.homes).map_err(|_| NoMemory)
    }
    /// The words of the objects of the control space.
    pub fn control_words(&self) -> u64
        ensures words { result ≡ control_words self.now }
        ensures few { result ≤ MOST_WORDS }
    {
        words_in_control(&self.graph, &self.homes)
    }

    /// The words of the objects of all regions.
    pub fn region_words(&self) -> u64
        ensures words { result ≡ region_words self.now }
        ensures few { result ≤ MOST_WORDS }
    {
        words_in_regions(&self.graph, &self.homes)
    }

    /// The number of open regions.
    pub fn open_regions(&self) -> u32
        ensures regions { result ≡ open_regions self.now }
        ensures few { result ≤ MAX_THREADS * MAX_DEPTH }
    {
        self.graph.open_regions()
    }

    /// The depth of a thread's epochs.
    pub fn depth(&self, thread: u8) -> u8
        requires { IsThread self.now.graph thread }
        ensures { result ≡ (thread_of self.now.graph thread).depth }
    {
        self.graph.depth_of(thread)
    }

    /// The words of the objects that escape from the innermost region of a thread.
    pub fn escape_words(&self, thread: u8) -> Result<u64, NoMemory>
        requires thread { IsThread self.now.graph thread }
        requires open_epoch { 0 < (thread_of self.now.graph thread).depth }
        ensures words { IfOk result (λ words. HasWords self.now (Escapes self.now thread (innermost self.now.graph thread)) words) }
        ensures few { IfOk result (λ words. words ≤ MOST_WORDS) }
    {
        words_escaping(self.alloc, &self.graph, &self.homes, thread).map_err(|_| NoMemory)
    }
}
