//! The heap as a graph of objects, without spaces.
ghost use Rattle.std.specs.Prelude.{◌≡◌, ◌≢◌, ℕ, ◌+◌, ◌-◌, ◌*◌, ◌^◌, ◌<◌, ◌≤◌, ◌++◌, ◌∷◌, [], IfOk, OnErr, OnOk, IsTrue, ◌↔◌, take, length, replicate, slice_set, slice_index_or, true, false};
ghost use Rattle.std.specs.List.{Contains, sum_by};
ghost use Rattle.yak_model.specs.Graph.{Thread, Graph, Fields, Does, IsEnded, IsThread, answers, fields_at, fields_of, fields_or_none, opening, make, push, drop_top, with_depth, with_object, with_thread, put_field, refusal_of, shown, slot_of, stack_of, standard_limits, thread_of};
ghost use Rattle.yak_model.specs.declared.datum.Datum.TheVariants as datum;
ghost use Rattle.object_layout.specs.declared.calls.Call.TheVariants as asked;
ghost use Rattle.object_layout.specs.declared.replies.Reply.TheVariants as said;
ghost use Rattle.yak_model.specs.Names.{root_name};
ghost use Rattle.std.specs.FinMap.{empty, get, insert};
ghost use Rattle.object_layout.specs.Calls.{IsCall};

use crate::ROOT_FIELDS;
use crate::datum::Datum;
use heap_words::STACK_SLOTS;
use object_layout::{
    Call, MAX_DEPTH, MAX_SERIAL, MAX_THREADS, Name, NoMemory, OBJECT_WORDS, PAGE_WORDS, Refusal,
    Reply,
};
use std::alloc::{AllocError, Global};
use std::collections::BTreeMap;
use std::marker::Model;

/// What a thread has.
#[derive(Drop)]
pub struct ThreadState {
    stack: Vec<Datum>,
    depth: u8,
    made: u64,
}

impl Model for ThreadState {
    ghost use Rattle.yak_model.specs.Graph.{Thread};

    ghost Value = { Thread };

    ghost view = { λ a. record { stack = a.stack.items; depth = a.depth; made = a.made } };
}

impl ThreadState {
    /// Puts a value on top.
    fn push(&mut self, value: Datum) -> Result<(), AllocError>
        ensures ok { OnOk result (self.new ≡ record self.old { stack = self.old.stack ++ value ∷ [] }) }
        ensures err { OnErr result (self.new ≡ self.old) }
    {
        self.stack.push(value)?;
        Ok(())
    }

    /// Puts a reference to a new object on top.
    fn push_made(&mut self, value: Datum) -> Result<(), AllocError>
        requires { self.old.made < MAX_SERIAL }
        ensures ok { OnOk result (self.new ≡ record self.old { stack = self.old.stack ++ value ∷ []; made = self.old.made + 1 }) }
        ensures err { OnErr result (self.new ≡ self.old) }
    {
        self.stack.push(value)?;
        self.made += 1;
        Ok(())
    }

    /// Drops the reference to the newest object again.
    fn drop_made(&mut self)
        ensures { self.new ≡ record self.old { stack = take (length self.old.stack - 1) self.old.stack; made = self.old.made - 1 } }
    {
        let _top = self.stack.pop();
        self.made = self.made.saturating_sub(1);
    }

    /// Changes the depth.
    fn set_depth(&mut self, depth: u8)
        ensures { self.new ≡ record self.old { depth = depth } }
    {
        self.depth = depth;
    }

    /// Drops the top slot, where there is one.
    fn drop_top(&mut self)
        ensures { self.new ≡ record self.old { stack = take (length self.old.stack - 1) self.old.stack } }
    {
        let _top = self.stack.pop();
    }

    /// Whether a slot refers to the object.
    pub fn holds(&self, name: Name) -> bool
        ensures { IsTrue result ↔ Contains self.now.stack (datum.Object name) }
    {
        let sought = Datum::Object(name);
        for value in &self.stack {
            if *value == sought {
                return true;
            }
        }
        false
    }

    /// The number of slots.
    fn len(&self) -> usize
        ensures { result ≡ length self.now.stack }
    {
        self.stack.len()
    }

    /// The value of a slot, or null past the last one.
    fn slot(&self, s: u32) -> Datum
        ensures { result ≡ slice_index_or self.now.stack s datum.Null }
    {
        match self.stack.get(s as usize) {
            Some(value) => *value,
            None => Datum::Null,
        }
    }

    /// The depth of the thread's epochs.
    fn depth(&self) -> u8
        ensures { result ≡ self.now.depth }
    {
        self.depth
    }

    /// The number of objects made.
    fn made(&self) -> u64
        ensures { result ≡ self.now.made }
    {
        self.made
    }
}

/// One more than a depth that is below the greatest one.
fn deeper(depth: u8, greatest: u8) -> u8
    requires { depth < greatest }
    ensures { result ≡ depth + 1 }
{
    depth + 1
}

/// What an object holds.
#[derive(Drop)]
pub(crate) struct Held {
    fields: Vec<Datum>,
}

impl Model for Held {
    ghost use Rattle.yak_model.specs.Graph.{Content, Fields};

    ghost Value = { Content };

    ghost view = { λ a. Fields a.fields.items };
}

impl Held {
    /// What an object of these fields holds.
    fn new(fields: Vec<Datum>) -> Held
        ensures { result ≡ Fields fields.items }
    {
        Held { fields }
    }

    /// The fields.
    fn fields(&self) -> &[Datum]
        ensures { result.now ≡ fields_of self.now }
    {
        &self.fields
    }
}

/// A finite map from names to objects.
#[derive(Drop)]
pub struct ObjectMap {
    held: BTreeMap<(u8, u64), Held>,
}

impl Model for ObjectMap {
    ghost use Rattle.std.specs.Prelude.{map};
    ghost use Rattle.std.specs.FinMap.{code, from_entries};
    ghost use Rattle.std.specs.Coded.{codes};
    ghost use Rattle.yak_model.specs.Private.{KnownObjects};

    ghost Value = { KnownObjects };

    ghost coded = { Prim.hlevel (codes, code) };

    ghost view = { λ a. from_entries (map (λ e. (record { thread = (e.0).0; serial = (e.0).1 }, e.1)) a.held.entries) };
}

impl ObjectMap {
    /// No objects.
    pub(crate) fn new(alloc: Global) -> ObjectMap
        ensures { result ≡ empty }
    {
        ObjectMap {
            held: BTreeMap::new(alloc),
        }
    }

    /// Gives an object these fields.
    pub(crate) fn put(&mut self, name: Name, fields: Vec<Datum>) -> Result<(), AllocError>
        ensures ok { OnOk result (self.new ≡ insert self.old name (Fields fields.items)) }
        ensures err { OnErr result (self.new ≡ self.old) }
    {
        let key = (name.thread, name.serial);
        self.held.insert(key, Held::new(fields))?;
        Ok(())
    }

    /// The fields of an object, none where there is no such object.
    fn fields_of(&self, name: Name) -> &[Datum]
        ensures { result.now ≡ fields_or_none (get self.now name) }
    {
        match self.held.get(&(name.thread, name.serial)) {
            Some(held) => held.fields(),
            None => &[],
        }
    }
}

/// The heap as a graph of objects: what each object holds, and the threads.
#[derive(Drop)]
pub struct GraphState {
    page: u16,
    depth: u8,
    objects: ObjectMap,
    threads: Vec<ThreadState>,
    alloc: Global,
}

impl Model for GraphState {
    ghost use Rattle.std.specs.FinMap.{code, from_entries};
    ghost use Rattle.std.specs.Coded.{codes};
    ghost use Rattle.yak_model.specs.Graph.{Graph};

    ghost Value = { Graph };

    ghost coded = { Prim.hlevel (codes, code) };

    ghost view = { λ a. record { limits = record { page = a.page; depth = a.depth }; objects = a.objects; threads = a.threads.items } };
}

/// What a thread has as the heap opens: a reference to the root.
fn first_state(alloc: Global) -> Result<ThreadState, AllocError>
    ensures { IfOk result (λ state. state ≡ record { stack = datum.Object root_name ∷ []; depth = 0; made = 0 }) }
{
    let mut stack = Vec::new(alloc);
    stack.push(Datum::Object(Name {
        thread: 0,
        serial: 0,
    }))?;
    Ok(ThreadState {
        stack,
        depth: 0,
        made: 0,
    })
}

/// The states of so many threads as the heap opens.
fn first_states(alloc: Global, threads: u8) -> Result<Vec<ThreadState>, AllocError>
    ensures { IfOk result (λ states. states.items ≡ replicate threads (record { stack = datum.Object root_name ∷ []; depth = 0; made = 0 })) }
{
    let mut states = Vec::new(alloc);
    for i in 0..threads {
        states.push(first_state(alloc)?)?;
    }
    Ok(states)
}

impl GraphState {
    /// The graph of a heap of so many threads as it opens.
    pub fn new(alloc: Global, threads: u8) -> Result<GraphState, NoMemory>
        requires first { 1 ≤ threads }
        requires last { threads ≤ MAX_THREADS }
        ensures { IfOk result (λ state. state ≡ opening standard_limits threads) }
    {
        GraphState::opened(alloc, threads).map_err(|_| NoMemory)
    }

    /// The graph as it opens.
    pub(crate) fn opened(alloc: Global, threads: u8) -> Result<GraphState, AllocError>
        ensures { IfOk result (λ state. state ≡ opening standard_limits threads) }
    {
        let fields = vec![in alloc; Datum::Null; ROOT_FIELDS]?;
        let root = Name {
            thread: 0,
            serial: 0,
        };
        let mut objects = ObjectMap::new(alloc);
        objects.put(root, fields)?;
        let states = first_states(alloc, threads)?;
        Ok(GraphState {
            page: PAGE_WORDS,
            depth: MAX_DEPTH,
            objects,
            threads: states,
            alloc,
        })
    }

    /// The number of slots of a thread.
    fn len(&self, thread: u8) -> usize
        requires { IsThread self.now thread }
        ensures { result ≡ length (stack_of self.now thread) }
    {
        self.threads[thread as usize - 1].len()
    }

    /// The value of a slot of a thread, or null past the last one.
    fn slot(&self, thread: u8, s: u32) -> Datum
        requires { IsThread self.now thread }
        ensures { result ≡ slot_of self.now thread s }
    {
        self.threads[thread as usize - 1].slot(s)
    }

    /// The fields of the object that a value refers to.
    pub(crate) fn fields_at(&self, value: Datum) -> &[Datum]
        ensures { result.now ≡ fields_at self.now value }
    {
        match value {
            Datum::Object(name) => self.objects.fields_of(name),
            _ => &[],
        }
    }

    /// Why a call is refused, other than for want of room in the heap.
    pub(crate) fn refusal(&self, thread: u8, call: Call) -> Option<Refusal>
        requires { IsThread self.now thread }
        ensures { result ≡ refusal_of self.now thread call }
    {
        match call {
            Call::Int(_) | Call::Null => self.push_refusal(thread),
            Call::Dup(s) => self.dup_refusal(thread, s),
            Call::Pop => self.pop_refusal(thread),
            Call::New(k) => self.new_refusal(thread, k),
            Call::Load(s, f) => self.load_refusal(thread, s, f),
            Call::Store(s, f, x) => self.store_refusal(thread, s, f, x),
            Call::Get(s) => self.get_refusal(thread, s),
            Call::Same(s, x) => self.same_refusal(thread, s, x),
            Call::Begin => self.begin_refusal(thread),
            Call::End => self.end_refusal(thread),
            Call::Collect | Call::Census => None,
        }
    }

    /// Why nothing can be pushed.
    fn push_refusal(&self, thread: u8) -> Option<Refusal>
        requires { IsThread self.now thread }
        ensures { result ≡ refusal_of self.now thread asked.Null }
    {
        if self.len(thread) >= STACK_SLOTS {
            Some(Refusal::StackFull)
        } else {
            None
        }
    }

    /// Why a slot can't be pushed again.
    fn dup_refusal(&self, thread: u8, s: u32) -> Option<Refusal>
        requires { IsThread self.now thread }
        ensures { result ≡ refusal_of self.now thread (asked.Dup s) }
    {
        if s as usize >= self.len(thread) {
            Some(Refusal::BadSlot)
        } else if self.len(thread) >= STACK_SLOTS {
            Some(Refusal::StackFull)
        } else {
            None
        }
    }

    /// Why no slot can be dropped.
    fn pop_refusal(&self, thread: u8) -> Option<Refusal>
        requires { IsThread self.now thread }
        ensures { result ≡ refusal_of self.now thread asked.Pop }
    {
        if self.len(thread) == 0 {
            Some(Refusal::StackEmpty)
        } else {
            None
        }
    }

    /// Why no object of so many fields can be made.
    fn new_refusal(&self, thread: u8, k: u32) -> Option<Refusal>
        requires { IsThread self.now thread }
        ensures { result ≡ refusal_of self.now thread (asked.New k) }
    {
        let state = &self.threads[thread as usize - 1];
        if k > u32::from(self.page.saturating_sub(OBJECT_WORDS)) {
            Some(Refusal::TooLong)
        } else if state.len() >= STACK_SLOTS {
            Some(Refusal::StackFull)
        } else if state.made() >= MAX_SERIAL {
            Some(Refusal::NamesSpent)
        } else {
            None
        }
    }

    /// Why a field can't be pushed.
    fn load_refusal(&self, thread: u8, s: u32, f: u32) -> Option<Refusal>
        requires { IsThread self.now thread }
        ensures { result ≡ refusal_of self.now thread (asked.Load s f) }
    {
        let state = &self.threads[thread as usize - 1];
        if s as usize >= state.len() {
            return Some(Refusal::BadSlot);
        }
        let value = state.slot(s);
        if !value.is_reference() {
            Some(Refusal::NotAReference)
        } else if f as usize >= self.fields_at(value).len() {
            Some(Refusal::BadField)
        } else if state.len() >= STACK_SLOTS {
            Some(Refusal::StackFull)
        } else {
            None
        }
    }

    /// Why a slot's value can't be put into a field.
    fn store_refusal(&self, thread: u8, s: u32, f: u32, x: u32) -> Option<Refusal>
        requires { IsThread self.now thread }
        ensures { result ≡ refusal_of self.now thread (asked.Store s f x) }
    {
        let state = &self.threads[thread as usize - 1];
        if s as usize >= state.len() || x as usize >= state.len() {
            return Some(Refusal::BadSlot);
        }
        let value = state.slot(s);
        if !value.is_reference() {
            Some(Refusal::NotAReference)
        } else if f as usize >= self.fields_at(value).len() {
            Some(Refusal::BadField)
        } else {
            None
        }
    }

    /// Why a slot can't be shown.
    fn get_refusal(&self, thread: u8, s: u32) -> Option<Refusal>
        requires { IsThread self.now thread }
        ensures { result ≡ refusal_of self.now thread (asked.Get s) }
    {
        if s as usize >= self.len(thread) {
            Some(Refusal::BadSlot)
        } else {
            None
        }
    }

    /// Why two slots can't be compared.
    fn same_refusal(&self, thread: u8, s: u32, x: u32) -> Option<Refusal>
        requires { IsThread self.now thread }
        ensures { result ≡ refusal_of self.now thread (asked.Same s x) }
    {
        let length = self.len(thread);
        if s as usize >= length || x as usize >= length {
            Some(Refusal::BadSlot)
        } else {
            None
        }
    }

    /// Why no epoch can be opened.
    fn begin_refusal(&self, thread: u8) -> Option<Refusal>
        requires { IsThread self.now thread }
        ensures { result ≡ refusal_of self.now thread asked.Begin }
    {
        if self.depth_of(thread) >= self.depth {
            Some(Refusal::TooDeep)
        } else {
            None
        }
    }

    /// Why no epoch can be ended.
    fn end_refusal(&self, thread: u8) -> Option<Refusal>
        requires { IsThread self.now thread }
        ensures { result ≡ refusal_of self.now thread asked.End }
    {
        if self.depth_of(thread) == 0 {
            Some(Refusal::NoEpoch)
        } else {
            None
        }
    }

    /// Pushes a value on the stack of a thread.
    fn push(&mut self, thread: u8, value: Datum) -> Result<(), AllocError>
        requires { IsThread self.old thread }
        ensures ok { OnOk result (self.new ≡ push self.old thread value) }
        ensures err { OnErr result (self.new ≡ self.old) }
    {
        self.threads[thread as usize - 1].push(value)?;
        Ok(())
    }

    /// Drops the top slot of a thread.
    fn drop_top(&mut self, thread: u8)
        requires { IsThread self.old thread }
        ensures { self.new ≡ drop_top self.old thread }
    {
        self.threads[thread as usize - 1].drop_top();
    }

    /// Pushes a reference to a new object on the stack of a thread.
    fn push_made(&mut self, thread: u8, value: Datum) -> Result<(), AllocError>
        requires thread { IsThread self.old thread }
        requires room { (thread_of self.old thread).made < MAX_SERIAL }
        ensures ok { OnOk result (self.new ≡ let state = thread_of self.old thread in with_thread self.old thread (record state { stack = state.stack ++ value ∷ []; made = state.made + 1 })) }
        ensures err { OnErr result (self.new ≡ self.old) }
    {
        self.threads[thread as usize - 1].push_made(value)
    }

    /// Drops the reference to the newest object of a thread again.
    fn drop_made(&mut self, thread: u8)
        requires { IsThread self.old thread }
        ensures { self.new ≡ let state = thread_of self.old thread in with_thread self.old thread (record state { stack = take (length state.stack - 1) state.stack; made = state.made - 1 }) }
    {
        self.threads[thread as usize - 1].drop_made();
    }

    /// Gives an object these fields.
    fn write(&mut self, name: Name, fields: Vec<Datum>) -> Result<(), AllocError>
        ensures ok { OnOk result (self.new ≡ with_object self.old name (Fields fields.items)) }
        ensures err { OnErr result (self.new ≡ self.old) }
    {
        self.objects.put(name, fields)
    }

    /// Makes an object of null fields, and pushes a reference to it.
    pub(crate) fn make(&mut self, thread: u8, k: u32) -> Result<(), AllocError>
        requires thread { IsThread self.old thread }
        requires room { (thread_of self.old thread).made < MAX_SERIAL }
        ensures ok { OnOk result (self.new ≡ make self.old thread k) }
        ensures err { OnErr result (self.new ≡ self.old) }
    {
        let fields = vec![in self.alloc; Datum::Null; k as usize]?;
        let serial = self.threads[thread as usize - 1].made() + 1;
        let name = Name { thread, serial };
        self.push_made(thread, Datum::Object(name))?;
        match self.write(name, fields) {
            Ok(()) => Ok(()),
            Err(failed) => {
                self.drop_made(thread);
                Err(failed)
            }
        }
    }

    /// The fields of an object with a new value in one of them.
    fn changed(&self, value: Datum, f: u32, new: Datum) -> Result<Vec<Datum>, AllocError>
        ensures { IfOk result (λ fields. fields.items ≡ slice_set (fields_at self.now value) f new) }
    {
        let mut fields = Vec::new(self.alloc);
        fields.extend_from_slice(self.fields_at(value))?;
        if (f as usize) < fields.len() {
            fields[f as usize] = new;
        }
        Ok(fields)
    }

    /// Puts a value into a field of the object that a value refers to.
    fn put_field(&mut self, value: Datum, f: u32, new: Datum) -> Result<(), AllocError>
        ensures ok { OnOk result (self.new ≡ put_field self.old value f new) }
        ensures err { OnErr result (self.new ≡ self.old) }
    {
        match value {
            Datum::Object(name) => {
                let fields = self.changed(value, f, new)?;
                self.write(name, fields)
            }
            _ => Ok(()),
        }
    }

    /// Changes the depth of a thread.
    pub(crate) fn set_depth(&mut self, thread: u8, depth: u8)
        requires { IsThread self.old thread }
        ensures { self.new ≡ with_depth self.old thread depth }
    {
        self.threads[thread as usize - 1].set_depth(depth);
    }

    /// Whether a reply is what `get` shows of a value.
    fn is_shown(&self, value: Datum, reply: Reply) -> bool
        ensures { IsTrue result ↔ (reply ≡ shown self.now value) }
    {
        match value {
            Datum::Null => reply == Reply::Null,
            Datum::Int(i) => reply == Reply::Int(i),
            Datum::Object(_) => {
                if let Reply::Object(k) = reply {
                    usize::from(k) == self.fields_at(value).len()
                } else {
                    false
                }
            }
        }
    }

    /// Pushes the value where the reply is `Ok`.
    fn accept_push(&mut self, thread: u8, value: Datum, reply: Reply) -> Result<bool, AllocError>
        requires { IsThread self.old thread }
        ensures allowed { IfOk result (λ done. done ≡ true → (reply ≡ said.Ok) × (self.new ≡ push self.old thread value)) }
        ensures denied { IfOk result (λ done. done ≡ false → (reply ≢ said.Ok) × (self.new ≡ self.old)) }
        ensures err { OnErr result (self.new ≡ self.old) }
    {
        if reply != Reply::Ok {
            return Ok(false);
        }
        self.push(thread, value)?;
        Ok(true)
    }

    /// Drops the top slot where the reply is `Ok`.
    fn accept_pop(&mut self, thread: u8, reply: Reply) -> bool
        requires { IsThread self.old thread }
        ensures allowed { result ≡ true → (reply ≡ said.Ok) × (self.new ≡ drop_top self.old thread) }
        ensures denied { result ≡ false → (reply ≢ said.Ok) × (self.new ≡ self.old) }
    {
        if reply != Reply::Ok {
            return false;
        }
        self.drop_top(thread);
        true
    }

    /// Makes an object where the reply is `Ok`, and none where it is `OutOfHeap`.
    fn accept_new(&mut self, thread: u8, k: u32, reply: Reply) -> Result<bool, AllocError>
        requires thread { IsThread self.old thread }
        requires room { (thread_of self.old thread).made < MAX_SERIAL }
        ensures allowed { IfOk result (λ done. done ≡ true → Does self.old thread (asked.New k) reply self.new) }
        ensures denied { IfOk result (λ done. done ≡ false → ((h : Graph) → Does self.old thread (asked.New k) reply h → ⊥) × (self.new ≡ self.old)) }
        ensures err { OnErr result (self.new ≡ self.old) }
    {
        match reply {
            Reply::Ok => {
                self.make(thread, k)?;
                Ok(true)
            }
            Reply::OutOfHeap => Ok(true),
            _ => Ok(false),
        }
    }

    /// Puts the value of a slot into a field where the reply is `Ok`.
    fn accept_store(
        &mut self,
        thread: u8,
        s: u32,
        f: u32,
        x: u32,
        reply: Reply,
    ) -> Result<bool, AllocError>
        requires { IsThread self.old thread }
        ensures allowed { IfOk result (λ done. done ≡ true → (reply ≡ said.Ok) × (self.new ≡ put_field self.old (slot_of self.old thread s) f (slot_of self.old thread x))) }
        ensures denied { IfOk result (λ done. done ≡ false → (reply ≢ said.Ok) × (self.new ≡ self.old)) }
        ensures err { OnErr result (self.new ≡ self.old) }
    {
        if reply != Reply::Ok {
            return Ok(false);
        }
        self.put_field(self.slot(thread, s), f, self.slot(thread, x))?;
        Ok(true)
    }

    /// Opens an epoch where the reply is `Ok`.
    fn accept_begin(&mut self, thread: u8, reply: Reply) -> bool
        requires thread { IsThread self.old thread }
        requires room { (thread_of self.old thread).depth < self.old.limits.depth }
        ensures allowed { result ≡ true → (reply ≡ said.Ok) × (self.new ≡ with_depth self.old thread ((thread_of self.old thread).depth + 1)) }
        ensures denied { result ≡ false → (reply ≢ said.Ok) × (self.new ≡ self.old) }
    {
        if reply != Reply::Ok {
            return false;
        }
        self.raise(thread);
        true
    }

    /// Ends an epoch where the reply says so, with any number moved.
    fn accept_end(&mut self, thread: u8, reply: Reply) -> bool
        requires thread { IsThread self.old thread }
        requires open_epoch { 0 < (thread_of self.old thread).depth }
        ensures allowed { result ≡ true → IsEnded reply × (self.new ≡ with_depth self.old thread ((thread_of self.old thread).depth - 1)) }
        ensures denied { result ≡ false → (IsEnded reply → ⊥) × (self.new ≡ self.old) }
    {
        match reply {
            Reply::Ended { .. } => {
                let depth = self.depth_of(thread);
                self.set_depth(thread, depth - 1);
                true
            }
            _ => false,
        }
    }

    /// Makes a call that isn't refused, where the reply is allowed.
    fn accept(&mut self, thread: u8, call: Call, reply: Reply) -> Result<bool, AllocError>
        requires thread { IsThread self.old thread }
        requires free { refusal_of self.old thread call ≡ None }
        ensures allowed { IfOk result (λ done. done ≡ true → Does self.old thread call reply self.new) }
        ensures denied { IfOk result (λ done. done ≡ false → ((h : Graph) → Does self.old thread call reply h → ⊥) × (self.new ≡ self.old)) }
        ensures err { OnErr result (self.new ≡ self.old) }
    {
        match call {
            Call::Int(i) => self.accept_push(thread, Datum::Int(i), reply),
            Call::Null => self.accept_push(thread, Datum::Null, reply),
            Call::Dup(s) => self.accept_push(thread, self.slot(thread, s), reply),
            Call::Pop => Ok(self.accept_pop(thread, reply)),
            Call::New(k) => self.accept_new(thread, k, reply),
            Call::Load(s, f) => {
                let value = self.field(self.slot(thread, s), f);
                self.accept_push(thread, value, reply)
            }
            Call::Store(s, f, x) => self.accept_store(thread, s, f, x, reply),
            Call::Get(s) => Ok(self.is_shown(self.slot(thread, s), reply)),
            Call::Same(s, x) => {
                let is_same = self.slot(thread, s) == self.slot(thread, x);
                Ok(reply == if is_same { Reply::Yes } else { Reply::No })
            }
            Call::Begin => Ok(self.accept_begin(thread, reply)),
            Call::End => Ok(self.accept_end(thread, reply)),
            Call::Collect => Ok(reply == Reply::Ok),
            Call::Census => Ok(matches!(reply, Reply::Pages { .. })),
        }
    }

    /// Raises the depth of a thread.
    fn raise(&mut self, thread: u8)
        requires thread { IsThread self.old thread }
        requires room { (thread_of self.old thread).depth < self.old.limits.depth }
        ensures { self.new ≡ with_depth self.old thread ((thread_of self.old thread).depth + 1) }
    {
        let greatest = self.depth;
        let depth = self.depth_of(thread);
        self.set_depth(thread, deeper(depth, greatest));
    }

    /// The depth of a thread's epochs.
    pub(crate) fn depth_of(&self, thread: u8) -> u8
        requires { IsThread self.now thread }
        ensures { result ≡ (thread_of self.now thread).depth }
    {
        self.threads[thread as usize - 1].depth()
    }

    /// A field of the object that a value refers to, or null where there is none.
    fn field(&self, value: Datum, f: u32) -> Datum
        ensures { result ≡ slice_index_or (fields_at self.now value) f datum.Null }
    {
        match self.fields_at(value).get(f as usize) {
            Some(found) => *found,
            None => Datum::Null,
        }
    }

    /// The depths of all threads together: how many regions are open.
    pub(crate) fn open_regions(&self) -> u32
        requires few { length self.now.threads ≤ MAX_THREADS }
        requires depths { (t : ℕ) → (thread_of self.now t).depth ≤ MAX_DEPTH }
        ensures sum { result ≡ sum_by (λ state. state.depth) self.now.threads }
        ensures few { result ≤ MAX_THREADS * MAX_DEPTH }
    {
        let mut open = 0;
        for state in &self.threads {
            open += u32::from(state.depth());
        }
        open
    }

    /// The threads, of which the first has the number 1.
    pub(crate) fn threads(&self) -> &[ThreadState]
        ensures { result.now ≡ self.now.threads }
    {
        &self.threads
    }

    /// The number of objects that a thread has made.
    pub(crate) fn made_by(&self, thread: u8) -> u64
        requires { IsThread self.now thread }
        ensures { result ≡ (thread_of self.now thread).made }
    {
        self.threads[thread as usize - 1].made()
    }

    /// Puts these objects in the place of all others.
    pub(crate) fn set_objects(&mut self, objects: ObjectMap)
        ensures { self.new ≡ record self.old { objects = objects } }
    {
        self.objects = objects;
    }

    /// Makes a call where the reply is allowed, and tells whether it is. Otherwise nothing changes.
    pub fn step(&mut self, thread: u8, call: Call, reply: Reply) -> Result<bool, NoMemory>
        requires thread { IsThread self.old thread }
        requires number { IsCall call }
        ensures allowed { IfOk result (λ done. done ≡ true → answers self.old thread call reply self.new) }
        ensures denied { IfOk result (λ done. done ≡ false → ((h : Graph) → answers self.old thread call reply h → ⊥) × (self.new ≡ self.old)) }
        ensures err { OnErr result (self.new ≡ self.old) }
        ensures threads { length self.new.threads ≡ length self.old.threads }
    {
        self.answer(thread, call, reply).map_err(|_| NoMemory)
    }

    /// Makes a call where the reply is allowed, and tells whether it is.
    pub(crate) fn answer(
        &mut self,
        thread: u8,
        call: Call,
        reply: Reply,
    ) -> Result<bool, AllocError>
        requires { IsThread self.old thread }
        ensures allowed { IfOk result (λ done. done ≡ true → answers self.old thread call reply self.new) }
        ensures denied { IfOk result (λ done. done ≡ false → ((h : Graph) → answers self.old thread call reply h → ⊥) × (self.new ≡ self.old)) }
        ensures err { OnErr result (self.new ≡ self.old) }
    {
        match self.refusal(thread, call) {
            Some(why) => Ok(reply == Reply::Refused(why)),
            None => self.accept(thread, call, reply),
        }
    }
}
