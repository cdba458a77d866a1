//! What holds of the table between any two steps, and what each step tells.

use atomic_table::{Join, Play, Seat, Split, TableRule};
use calls_in_flight::{Flight, Known};
use heap_words::Areas;
use object_layout::Event;
use std::collections::LinkedList;
use std::marker::{Brand, PhantomData};
use yak_model::{Datum, Entry, ObjectMap};

/// A token by which a thread steps on the table.
pub type Token = Seat<(), View>;

/// Where a seat is at the gate.
pub enum Place {
    Away,
    Inside,
    Retreating,
    Asking,
    Closed,
}

/// A thread for which a seat stands: its entries in the history, what it has, and the objects that it alone knows.
pub struct Own {
    pub thread: u8,
    pub calls: LinkedList<Entry>,
    pub stack: LinkedList<Datum>,
    pub depth: u8,
    pub made: u64,
    pub known: ObjectMap,
    /// The history as it was after the thread's last call.
    pub past: LinkedList<Entry>,
    /// What its call that is under way has put into the words, or has still to put there.
    pub flight: Flight,
    /// The places and words of all its loads of own words, of headers and of the pool, and of its claims.
    pub loads: LinkedList<Known>,
    /// The number of entries that it has put into its store buffer since it last filed all buffers.
    pub put: u64,
}

/// What a seat knows. No value of it is made.
pub struct View {
    /// The map of the heap's words.
    pub map: Areas,
    pub own: LinkedList<Own>,
    pub place: Place,
    /// The words that the thread inside has met and that no other thread changes meanwhile.
    pub lasting: LinkedList<Known>,
    /// The words as they are while the seat has closed the gate, and then as it opened it.
    pub words: LinkedList<u64>,
    /// The words as they were when it closed the gate.
    pub closing: LinkedList<u64>,
    /// The history as it was when it closed the gate.
    pub history: LinkedList<Entry>,
}

pub struct Law;

impl TableRule<(), View, Areas> for Law {
    ghost use Rattle.safepoint_gate.specs.Rule.{OneHistory, first_view};

    ghost holds = { OneHistory };

    ghost first = { first_view };
}

pub struct Enter;

impl Play<(), View> for Enter {
    ghost use Rattle.safepoint_gate.specs.Steps.{enters};

    ghost then = { enters };
}

pub struct Leave;

impl Play<(), View> for Leave {
    ghost use Rattle.safepoint_gate.specs.Steps.{leaves};

    ghost then = { leaves };
}

pub struct Ask;

impl Play<(), View> for Ask {
    ghost use Rattle.safepoint_gate.specs.Steps.{asks};

    ghost then = { asks };
}

pub struct Look;

impl Play<(), View> for Look {
    ghost use Rattle.safepoint_gate.specs.Steps.{looks};

    ghost then = { looks };
}

/// The step of a seat that stands for all threads, by which the words become its own.
pub struct Seal;

impl Play<(), View> for Seal {
    ghost use Rattle.safepoint_gate.specs.Steps.{seals};

    ghost then = { seals };
}

pub struct Get;

impl Play<(), View> for Get {
    ghost use Rattle.safepoint_gate.specs.Steps.{gets};

    ghost then = { gets };
}

pub struct Set;

impl Play<(), View> for Set {
    ghost use Rattle.safepoint_gate.specs.Steps.{sets};

    ghost then = { sets };
}

/// The event of which a step adds the entries to the history. Each call picks it.
pub trait Adds {
    ghost use Rattle.object_layout.specs.declared.calls.Event.{Event};

    ghost event: { Event };
}

impl Adds for Brand {
    ghost use Rattle.safepoint_gate.specs.Steps.{no_event};

    ghost event = { no_event };
}

pub struct Open;

impl Play<(), View> for Open {
    ghost use Rattle.safepoint_gate.specs.Steps.{opens};

    ghost then = { opens };
}

pub struct OpenWith<E> {
    event: PhantomData<E>,
}

impl<E: Adds> Play<(), View> for OpenWith<E> {
    ghost use Rattle.safepoint_gate.specs.Steps.{opens_with};

    ghost then = { opens_with E.event };
}

/// A load of a word that lasts.
pub struct Meet;

impl Play<(), View> for Meet {
    ghost use Rattle.safepoint_gate.specs.Singles.{meets};

    ghost then = { meets };
}

pub struct MeetWith<E> {
    event: PhantomData<E>,
}

impl<E: Adds> Play<(), View> for MeetWith<E> {
    ghost use Rattle.safepoint_gate.specs.Singles.{meets_with};

    ghost then = { meets_with E.event };
}

/// A store of an own word.
pub struct Put;

impl Play<(), View> for Put {
    ghost use Rattle.safepoint_gate.specs.Singles.{puts};

    ghost then = { puts };
}

pub struct PutWith<E> {
    event: PhantomData<E>,
}

impl<E: Adds> Play<(), View> for PutWith<E> {
    ghost use Rattle.safepoint_gate.specs.Singles.{puts_with};

    ghost then = { puts_with E.event };
}

/// A load of the claim counter, of the pool's length or of an entry of the pool.
pub struct LoadPool;

impl Play<(), View> for LoadPool {
    ghost use Rattle.safepoint_gate.specs.Singles.{loads_pool};

    ghost then = { loads_pool };
}

pub struct Claim;

impl Play<(), View> for Claim {
    ghost use Rattle.safepoint_gate.specs.Singles.{claims};

    ghost then = { claims };
}

pub struct LoadField<E> {
    event: PhantomData<E>,
}

impl<E: Adds> Play<(), View> for LoadField<E> {
    ghost use Rattle.safepoint_gate.specs.Singles.{loads_field};

    ghost then = { loads_field E.event };
}

pub struct StoreField<E> {
    event: PhantomData<E>,
}

impl<E: Adds> Play<(), View> for StoreField<E> {
    ghost use Rattle.safepoint_gate.specs.Singles.{stores_field};

    ghost then = { stores_field E.event };
}

pub struct SetReader;

impl Play<(), View> for SetReader {
    ghost use Rattle.safepoint_gate.specs.Singles.{sets_reader};

    ghost then = { sets_reader };
}

/// The first thread for which a seat stands gets a seat of its own, and a seat takes in the threads of another.
pub struct FirstThread;

impl Split<View> for FirstThread {
    ghost use Rattle.safepoint_gate.specs.Steps.{of_others, of_first};

    ghost left = { of_others };

    ghost right = { of_first };
}

impl Join<View> for FirstThread {
    ghost use Rattle.safepoint_gate.specs.Steps.{of_both, of_none};

    ghost both = { of_both };

    ghost spent = { of_none };
}
