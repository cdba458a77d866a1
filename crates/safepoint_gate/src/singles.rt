//! The single steps of a thread that is inside. Each makes one step on one word and waits for nobody.
ghost use Rattle.std.specs.Prelude.{◌≡◌, ◌<◌, ◌+◌, ℕ, None, Some, length};
ghost use Rattle.std.specs.Option.{ForSome};
ghost use Rattle.epoch_lattice.specs.declared.Space.TheVariants.{Region};
ghost use Rattle.heap_words.specs.Map.{HasThread, heap_at, heap_length};
ghost use Rattle.object_layout.specs.declared.TheConstants.{OBJECT_WORDS};
ghost use Rattle.calls_in_flight.specs.Actors.{IsRefusal, MayLoad, MayMeet, MayTell, RefersTo};
ghost use Rattle.calls_in_flight.specs.FieldSteps.{LoadsFrom, MayLoadPool, MayRead, MayStoreField};
ghost use Rattle.calls_in_flight.specs.OwnStores.{MayStore, done_by};
ghost use Rattle.safepoint_gate.specs.declared.rule.Place.TheVariants.{Inside as InsidePlace};
ghost use Rattle.safepoint_gate.specs.Seats.{IsOf};
ghost use Rattle.safepoint_gate.specs.Steps.{first_thread};
ghost use Rattle.safepoint_gate.specs.Singles.{Claimed, HasRead, Loaded, LoadedField, LoadedPool, Stored, StoredField, actor};

use crate::gate::Gate;
use crate::rule::{
    Adds, Claim, LoadField, LoadPool, Meet, MeetWith, Put, PutWith, SetReader, StoreField, Token,
};
use crate::seats::Inside;
use epoch_lattice::Space;
use object_layout::{Addr, Call, Event, OBJECT_WORDS};
use region_pages::CLAIM_COUNTER;
use std::marker::Brand;

impl Gate {
    // Loads a word that lasts.
    fn meet(&self, seat: &mut Token, at: usize) -> u64
        requires gate { IsOf self.now seat.old.table_id seat.old.me.0 }
        requires inside { seat.old.me.0.place ≡ InsidePlace }
        requires single { length seat.old.me.0.own ≡ 1 }
        requires threaded { HasThread seat.old.me.0.map (first_thread seat.old.me.0.own) }
        requires place { MayMeet seat.old.me.0.map (actor seat.old.me.0) at }
        ensures same { (seat.new.table_id ≡ seat.old.table_id) × (seat.new.me.1 ≡ seat.old.me.1) }
        ensures loaded { Loaded seat.old.me.0 at None result seat.new.me.0 }
    {
        self.table.shared.load::<Meet>(seat, at)
    }

    // Loads a word that lasts, and adds the entry of an event.
    fn meet_with<E: Adds>(&self, seat: &mut Token, at: usize, event: Event) -> u64
        requires gate { IsOf self.now seat.old.table_id seat.old.me.0 }
        requires inside { seat.old.me.0.place ≡ InsidePlace }
        requires single { length seat.old.me.0.own ≡ 1 }
        requires threaded { HasThread seat.old.me.0.map (first_thread seat.old.me.0.own) }
        requires place { MayMeet seat.old.me.0.map (actor seat.old.me.0) at }
        requires picked { E.event ≡ event }
        requires event { MayTell seat.old.me.0.map (actor seat.old.me.0) event }
        ensures same { (seat.new.table_id ≡ seat.old.table_id) × (seat.new.me.1 ≡ seat.old.me.1) }
        ensures loaded { Loaded seat.old.me.0 at (Some event) result seat.new.me.0 }
    {
        self.table.shared.load::<MeetWith<E>>(seat, at)
    }

    // Stores an own word.
    fn put(&self, seat: &mut Token, at: usize, word: u64)
        requires gate { IsOf self.now seat.old.table_id seat.old.me.0 }
        requires inside { seat.old.me.0.place ≡ InsidePlace }
        requires single { length seat.old.me.0.own ≡ 1 }
        requires threaded { HasThread seat.old.me.0.map (first_thread seat.old.me.0.own) }
        requires own { MayStore seat.old.me.0.map (actor seat.old.me.0) at word None }
        ensures same { (seat.new.table_id ≡ seat.old.table_id) × (seat.new.me.1 ≡ seat.old.me.1) }
        ensures stored { Stored seat.old.me.0 at word None seat.new.me.0 }
    {
        self.table.shared.store::<Put>(seat, at, word)
    }

    // Stores an own word, and adds the entry of an event.
    fn put_with<E: Adds>(&self, seat: &mut Token, at: usize, word: u64, event: Event)
        requires gate { IsOf self.now seat.old.table_id seat.old.me.0 }
        requires inside { seat.old.me.0.place ≡ InsidePlace }
        requires single { length seat.old.me.0.own ≡ 1 }
        requires threaded { HasThread seat.old.me.0.map (first_thread seat.old.me.0.own) }
        requires own { MayStore seat.old.me.0.map (actor seat.old.me.0) at word (Some event) }
        requires picked { E.event ≡ event }
        ensures same { (seat.new.table_id ≡ seat.old.table_id) × (seat.new.me.1 ≡ seat.old.me.1) }
        ensures stored { Stored seat.old.me.0 at word (Some event) seat.new.me.0 }
    {
        self.table.shared.store::<PutWith<E>>(seat, at, word)
    }

    // Loads a word of the pool.
    fn meet_pool(&self, seat: &mut Token, at: usize) -> u64
        requires gate { IsOf self.now seat.old.table_id seat.old.me.0 }
        requires inside { seat.old.me.0.place ≡ InsidePlace }
        requires single { length seat.old.me.0.own ≡ 1 }
        requires threaded { HasThread seat.old.me.0.map (first_thread seat.old.me.0.own) }
        requires pool { MayLoadPool seat.old.me.0.map at }
        ensures same { (seat.new.table_id ≡ seat.old.table_id) × (seat.new.me.1 ≡ seat.old.me.1) }
        ensures loaded { LoadedPool seat.old.me.0 at result seat.new.me.0 }
    {
        self.table.shared.load::<LoadPool>(seat, at)
    }

    // Raises the claim counter.
    fn raise(&self, seat: &mut Token) -> u64
        requires gate { IsOf self.now seat.old.table_id seat.old.me.0 }
        requires inside { seat.old.me.0.place ≡ InsidePlace }
        requires single { length seat.old.me.0.own ≡ 1 }
        requires threaded { HasThread seat.old.me.0.map (first_thread seat.old.me.0.own) }
        requires found { (actor seat.old.me.0).flight.claims ≡ 1 }
        ensures same { (seat.new.table_id ≡ seat.old.table_id) × (seat.new.me.1 ≡ seat.old.me.1) }
        ensures claimed { Claimed seat.old.me.0 result seat.new.me.0 }
    {
        self.table.shared.fetch_add::<Claim>(seat, CLAIM_COUNTER, 1)
    }

    // Loads a field.
    fn load_with<E: Adds>(&self, seat: &mut Token, call: Call, object: Addr, field: u16) -> u64
        requires gate { IsOf self.now seat.old.table_id seat.old.me.0 }
        requires inside { seat.old.me.0.place ≡ InsidePlace }
        requires single { length seat.old.me.0.own ≡ 1 }
        requires threaded { HasThread seat.old.me.0.map (first_thread seat.old.me.0.own) }
        requires field { LoadsFrom seat.old.me.0.map (actor seat.old.me.0) call object.0 field }
        requires picked { E.event ≡ done_by call }
        ensures same { (seat.new.table_id ≡ seat.old.table_id) × (seat.new.me.1 ≡ seat.old.me.1) }
        ensures loaded { LoadedField seat.old.me.0 (done_by call) result seat.new.me.0 }
    {
        let at = self.field(object, field);
        self.table.shared.load::<LoadField<E>>(seat, at)
    }

    // Stores a field.
    fn store_with<E: Adds>(&self, seat: &mut Token, call: Call, object: Addr, field: u16, word: u64)
        requires gate { IsOf self.now seat.old.table_id seat.old.me.0 }
        requires inside { seat.old.me.0.place ≡ InsidePlace }
        requires single { length seat.old.me.0.own ≡ 1 }
        requires threaded { HasThread seat.old.me.0.map (first_thread seat.old.me.0.own) }
        requires field { MayStoreField seat.old.me.0.map (actor seat.old.me.0) call object.0 field word }
        requires picked { E.event ≡ done_by call }
        ensures same { (seat.new.table_id ≡ seat.old.table_id) × (seat.new.me.1 ≡ seat.old.me.1) }
        ensures stored { StoredField seat.old.me.0 (done_by call) seat.new.me.0 }
    {
        let at = self.field(object, field);
        self.table.shared.store::<StoreField<E>>(seat, at, word)
    }

    // Sets the bit of a thread in the readers word of a region.
    fn mark(&self, seat: &mut Token, owner: u8, depth: u8, thread: u8)
        requires gate { IsOf self.now seat.old.table_id seat.old.me.0 }
        requires inside { seat.old.me.0.place ≡ InsidePlace }
        requires single { length seat.old.me.0.own ≡ 1 }
        requires threaded { HasThread seat.old.me.0.map (first_thread seat.old.me.0.own) }
        requires region { MayRead seat.old.me.0.map (actor seat.old.me.0) owner depth }
        requires thread { first_thread seat.old.me.0.own ≡ thread }
        ensures same { (seat.new.table_id ≡ seat.old.table_id) × (seat.new.me.1 ≡ seat.old.me.1) }
        ensures read { HasRead seat.old.me.0 seat.new.me.0 }
    {
        let at = self.map.readers(owner, depth);
        self.table
            .shared
            .fetch_or::<SetReader>(seat, at, 1 << (thread - 1));
    }

    // The place of a field of an object.
    fn field(&self, object: Addr, field: u16) -> usize
        requires within { object.0 + OBJECT_WORDS + field < heap_length self.now.map }
        ensures { result ≡ heap_at self.now.map + (object.0 + OBJECT_WORDS + field) }
    {
        self.map.heap() + (object.0 as usize + usize::from(OBJECT_WORDS) + usize::from(field))
    }
}

impl Inside {
    /// Loads a word of the thread's own: of its block, of the page table's entry of an own page, or of an own page above its used
    /// mark. With an event, which only shows something or is a refusal, its entry is added to the history.
    pub fn load_own(&mut self, gate: &Gate, at: usize, event: Option<Event>) -> u64
        requires gate { IsOf gate.now self.old.seat.table_id self.old.seat.me.0 }
        requires own { MayLoad self.old.seat.me.0.map (actor self.old.seat.me.0) at }
        requires event { ForSome event (MayTell self.old.seat.me.0.map (actor self.old.seat.me.0)) }
        ensures gate { IsOf gate.now self.new.seat.table_id self.new.seat.me.0 }
        ensures loaded { Loaded self.old.seat.me.0 at event result self.new.seat.me.0 }
        ensures thread { self.new.thread ≡ self.old.thread }
    {
        match event {
            None => gate.meet(&mut self.seat, at),
            Some(event) => gate.meet_with::<Brand>(&mut self.seat, at, event),
        }
    }

    /// Stores a word of the thread's own, as the call that is under way asks: a slot above the stack, an entry behind the store
    /// buffer, what the placing of an object asks, or what a call has still to store. With an event, by the stack's length or the
    /// depth, its entry is added to the history.
    pub fn store_own(&mut self, gate: &Gate, at: usize, word: u64, event: Option<Event>)
        requires gate { IsOf gate.now self.old.seat.table_id self.old.seat.me.0 }
        requires own { MayStore self.old.seat.me.0.map (actor self.old.seat.me.0) at word event }
        ensures gate { IsOf gate.now self.new.seat.table_id self.new.seat.me.0 }
        ensures stored { Stored self.old.seat.me.0 at word event self.new.seat.me.0 }
        ensures thread { self.new.thread ≡ self.old.thread }
    {
        match event {
            None => gate.put(&mut self.seat, at, word),
            Some(event) => gate.put_with::<Brand>(&mut self.seat, at, word, event),
        }
    }

    /// Loads the header of an object to which the thread's stack refers. With an event, which is a refusal, its entry is added to
    /// the history.
    pub fn load_header(&mut self, gate: &Gate, object: Addr, event: Option<Event>) -> u64
        requires gate { IsOf gate.now self.old.seat.table_id self.old.seat.me.0 }
        requires refers { (k : ℕ) × RefersTo self.old.seat.me.0.map (actor self.old.seat.me.0) k object.0 }
        requires event { ForSome event (MayTell self.old.seat.me.0.map (actor self.old.seat.me.0)) }
        requires refusal { ForSome event IsRefusal }
        ensures gate { IsOf gate.now self.new.seat.table_id self.new.seat.me.0 }
        ensures loaded { Loaded self.old.seat.me.0 (heap_at self.old.seat.me.0.map + object.0) event result self.new.seat.me.0 }
        ensures thread { self.new.thread ≡ self.old.thread }
    {
        let at = gate.map.heap() + object.0 as usize;
        match event {
            None => gate.meet(&mut self.seat, at),
            Some(event) => gate.meet_with::<Brand>(&mut self.seat, at, event),
        }
    }

    /// Loads the claim counter, the pool's length or an entry of the pool. A claim counter below the pool's length gives the right
    /// to claim a page.
    pub fn load_pool(&mut self, gate: &Gate, at: usize) -> u64
        requires gate { IsOf gate.now self.old.seat.table_id self.old.seat.me.0 }
        requires pool { MayLoadPool self.old.seat.me.0.map at }
        ensures gate { IsOf gate.now self.new.seat.table_id self.new.seat.me.0 }
        ensures loaded { LoadedPool self.old.seat.me.0 at result self.new.seat.me.0 }
        ensures thread { self.new.thread ≡ self.old.thread }
    {
        gate.meet_pool(&mut self.seat, at)
    }

    /// Raises the claim counter after a load that found a page, and gives the counter as it was before.
    pub fn claim(&mut self, gate: &Gate) -> u64
        requires gate { IsOf gate.now self.old.seat.table_id self.old.seat.me.0 }
        requires found { (actor self.old.seat.me.0).flight.claims ≡ 1 }
        ensures gate { IsOf gate.now self.new.seat.table_id self.new.seat.me.0 }
        ensures claimed { Claimed self.old.seat.me.0 result self.new.seat.me.0 }
        ensures thread { self.new.thread ≡ self.old.thread }
    {
        gate.raise(&mut self.seat)
    }

    /// Loads a field of an object, and adds the entry of the call, a load of this field that is done.
    pub fn load_field(&mut self, gate: &Gate, call: Call, object: Addr, field: u16) -> u64
        requires gate { IsOf gate.now self.old.seat.table_id self.old.seat.me.0 }
        requires field { LoadsFrom self.old.seat.me.0.map (actor self.old.seat.me.0) call object.0 field }
        ensures gate { IsOf gate.now self.new.seat.table_id self.new.seat.me.0 }
        ensures loaded { LoadedField self.old.seat.me.0 (done_by call) result self.new.seat.me.0 }
        ensures thread { self.new.thread ≡ self.old.thread }
    {
        gate.load_with::<Brand>(&mut self.seat, call, object, field)
    }

    /// Stores a field of an object, and adds the entry of the call, a store to this field that is done.
    pub fn store_field(&mut self, gate: &Gate, call: Call, object: Addr, field: u16, word: u64)
        requires gate { IsOf gate.now self.old.seat.table_id self.old.seat.me.0 }
        requires field { MayStoreField self.old.seat.me.0.map (actor self.old.seat.me.0) call object.0 field word }
        ensures gate { IsOf gate.now self.new.seat.table_id self.new.seat.me.0 }
        ensures stored { StoredField self.old.seat.me.0 (done_by call) self.new.seat.me.0 }
        ensures thread { self.new.thread ≡ self.old.thread }
    {
        gate.store_with::<Brand>(&mut self.seat, call, object, field, word)
    }

    /// Sets the thread's bit in the readers word of the region of another thread that a loaded reference enters.
    pub fn set_reader(&mut self, gate: &Gate, region: Space)
        requires gate { IsOf gate.now self.old.seat.table_id self.old.seat.me.0 }
        requires region { (owner : ℕ) × (depth : ℕ) × (region ≡ Region owner depth) × MayRead self.old.seat.me.0.map (actor self.old.seat.me.0) owner depth }
        ensures gate { IsOf gate.now self.new.seat.table_id self.new.seat.me.0 }
        ensures read { HasRead self.old.seat.me.0 self.new.seat.me.0 }
        ensures thread { self.new.thread ≡ self.old.thread }
    {
        if let Space::Region {
            thread: owner,
            depth,
        } = region
        {
            gate.mark(&mut self.seat, owner, depth, self.thread);
        }
    }
}
