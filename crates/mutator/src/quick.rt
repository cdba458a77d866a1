//! The calls of a mutator that wait for nobody.
ghost use Rattle.std.specs.Prelude.{◌≡◌, ◌≤◌, IfErr, IfOk};
ghost use Rattle.object_layout.specs.declared.TheConstants.{MAX_INT};
ghost use Rattle.object_layout.specs.declared.calls.Call.TheVariants as call;
ghost use Rattle.barriers.specs.Barred.{IsLogFull};
ghost use Rattle.mutator.specs.Quick.{Answered, AnswersNew, AnswersStore, FindsNoPage};
ghost use Rattle.mutator.specs.Running.{IsOfHeap, view_in};

use crate::heap::Heap;
use crate::running::Mutator;
use crate::{field_calls, new_objects, quick_calls};
use object_layout::{LogFull, NoPage, Reply};

impl Mutator {
    /// Pushes an integer, at most `MAX_INT`.
    #[inline(always)]
    pub fn push_int(&mut self, heap: &Heap, i: u64) -> Reply
        requires heap { IsOfHeap heap.now self.old.inside }
        requires number { i ≤ MAX_INT }
        ensures heap { IsOfHeap heap.now self.new.inside }
        ensures answered { Answered (view_in self.old.inside) (call.Int i) result (view_in self.new.inside) }
    {
        match &mut self.inside {
            Some(inside) => quick_calls::push_int(inside, &heap.gate, i),
            None => unreachable!(),
        }
    }

    /// Pushes null.
    #[inline(always)]
    pub fn push_null(&mut self, heap: &Heap) -> Reply
        requires heap { IsOfHeap heap.now self.old.inside }
        ensures heap { IsOfHeap heap.now self.new.inside }
        ensures answered { Answered (view_in self.old.inside) call.Null result (view_in self.new.inside) }
    {
        match &mut self.inside {
            Some(inside) => quick_calls::push_null(inside, &heap.gate),
            None => unreachable!(),
        }
    }

    /// Pushes the value of a slot.
    #[inline(always)]
    pub fn dup(&mut self, heap: &Heap, s: u32) -> Reply
        requires heap { IsOfHeap heap.now self.old.inside }
        ensures heap { IsOfHeap heap.now self.new.inside }
        ensures answered { Answered (view_in self.old.inside) (call.Dup s) result (view_in self.new.inside) }
    {
        match &mut self.inside {
            Some(inside) => quick_calls::dup(inside, &heap.gate, s),
            None => unreachable!(),
        }
    }

    /// Drops the top slot.
    #[inline(always)]
    pub fn pop(&mut self, heap: &Heap) -> Reply
        requires heap { IsOfHeap heap.now self.old.inside }
        ensures heap { IsOfHeap heap.now self.new.inside }
        ensures answered { Answered (view_in self.old.inside) call.Pop result (view_in self.new.inside) }
    {
        match &mut self.inside {
            Some(inside) => quick_calls::pop(inside, &heap.gate),
            None => unreachable!(),
        }
    }

    /// Shows the value of a slot.
    #[inline(always)]
    pub fn get(&mut self, heap: &Heap, s: u32) -> Reply
        requires heap { IsOfHeap heap.now self.old.inside }
        ensures heap { IsOfHeap heap.now self.new.inside }
        ensures answered { Answered (view_in self.old.inside) (call.Get s) result (view_in self.new.inside) }
    {
        match &mut self.inside {
            Some(inside) => quick_calls::get(inside, &heap.gate, s),
            None => unreachable!(),
        }
    }

    /// Tells whether two slots hold the same value.
    #[inline(always)]
    pub fn same(&mut self, heap: &Heap, s: u32, x: u32) -> Reply
        requires heap { IsOfHeap heap.now self.old.inside }
        ensures heap { IsOfHeap heap.now self.new.inside }
        ensures answered { Answered (view_in self.old.inside) (call.Same s x) result (view_in self.new.inside) }
    {
        match &mut self.inside {
            Some(inside) => quick_calls::same(inside, &heap.gate, s, x),
            None => unreachable!(),
        }
    }

    /// Opens an epoch.
    #[inline(always)]
    pub fn begin(&mut self, heap: &Heap) -> Reply
        requires heap { IsOfHeap heap.now self.old.inside }
        ensures heap { IsOfHeap heap.now self.new.inside }
        ensures answered { Answered (view_in self.old.inside) call.Begin result (view_in self.new.inside) }
    {
        match &mut self.inside {
            Some(inside) => quick_calls::begin(inside, &heap.gate),
            None => unreachable!(),
        }
    }

    /// Pushes a field of a slot's object.
    #[inline(always)]
    pub fn load(&mut self, heap: &Heap, s: u32, f: u32) -> Reply
        requires heap { IsOfHeap heap.now self.old.inside }
        ensures heap { IsOfHeap heap.now self.new.inside }
        ensures answered { Answered (view_in self.old.inside) (call.Load s f) result (view_in self.new.inside) }
    {
        match &mut self.inside {
            Some(inside) => field_calls::load(inside, &heap.gate, s, f),
            None => unreachable!(),
        }
    }

    /// Puts the value of a slot into a field of a slot's object.
    ///
    /// # Errors
    ///
    /// `LogFull` exactly where no refusal applies, the slot must be recorded and the thread's store buffer is full. Nothing has
    /// changed then.
    #[inline(always)]
    pub fn store(&mut self, heap: &Heap, s: u32, f: u32, x: u32) -> Result<Reply, LogFull>
        requires heap { IsOfHeap heap.now self.old.inside }
        ensures heap { IsOfHeap heap.now self.new.inside }
        ensures answered { IfOk result (λ said. AnswersStore (view_in self.old.inside) (call.Store s f x) said (view_in self.new.inside)) }
        ensures full { IfErr result (λ _. IsLogFull (view_in self.old.inside) (call.Store s f x) (view_in self.new.inside)) }
    {
        match &mut self.inside {
            Some(inside) => field_calls::store(inside, &heap.gate, s, f, x),
            None => unreachable!(),
        }
    }

    /// Makes an object of k null fields in the innermost space, and pushes a reference to it.
    ///
    /// # Errors
    ///
    /// `NoPage` exactly where no refusal applies, the object doesn't fit the thread's current page there and this call found no page
    /// left. Nothing but the claim counter has changed then.
    pub fn new_object(&mut self, heap: &Heap, k: u32) -> Result<Reply, NoPage>
        requires heap { IsOfHeap heap.now self.old.inside }
        ensures heap { IsOfHeap heap.now self.new.inside }
        ensures answered { IfOk result (λ said. AnswersNew (view_in self.old.inside) k said (view_in self.new.inside)) }
        ensures none { IfErr result (λ _. FindsNoPage (view_in self.old.inside) k (view_in self.new.inside)) }
    {
        match &mut self.inside {
            Some(inside) => new_objects::new_object(inside, &heap.gate, k),
            None => unreachable!(),
        }
    }
}
