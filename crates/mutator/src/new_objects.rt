//! New objects, made by a thread that waits for nobody, on a seat that is inside.
ghost use Rattle.std.specs.Prelude.{◌≡◌, ◌<◌, ◌≤◌, ◌+◌, ℕ, List, [], IfErr, IfOk, ◌^◌, MatchOption, length as list_length};
ghost use Rattle.std.specs.List.{All};
ghost use Rattle.object_layout.specs.declared.TheConstants.{MAX_FIELDS, MAX_SERIAL, OBJECT_WORDS};
ghost use Rattle.object_layout.specs.declared.calls.Call.TheVariants as the_call;
ghost use Rattle.object_layout.specs.declared.replies.Reply.TheVariants as the_reply;
ghost use Rattle.object_layout.specs.Layout.{IsHeader, IsName};
ghost use Rattle.heap_words.specs.declared.TheConstants.{STACK_SLOTS};
ghost use Rattle.heap_words.specs.Map.{heap_at, max_depth};
ghost use Rattle.epoch_lattice.specs.Lattice.{inner_of};
ghost use Rattle.calls_in_flight.specs.Actors.{Shows};
ghost use Rattle.calls_in_flight.specs.declared.notes.Cover.{Cover};
ghost use Rattle.calls_in_flight.specs.OwnStores.{Placing, front_of};
ghost use Rattle.calls_in_flight.specs.Steps.{made_at};
ghost use Rattle.safepoint_gate.specs.Seats.{IsOf};
ghost use Rattle.safepoint_gate.specs.Singles.{IsQuiet, actor};
ghost use Rattle.mutator.specs.Making.{ClaimsNone, ClaimsRoom, EntersPage, FindsNone, FindsRoom, GetsNone, GetsRoom, HasRoom, WritesObject};
ghost use Rattle.mutator.specs.Quick.{Answers, AnswersNew, FindsNoPage};

use crate::quick_calls::{refuse, stack_length, tell, told};
use barriers::{current_place, depth_place, length_place, made_place, slot_place};
use epoch_lattice::{Space, index_of, inner};
use heap_words::STACK_SLOTS;
use object_layout::{
    Addr, Call, Header, MAX_FIELDS, MAX_SERIAL, Name, NoPage, OBJECT_WORDS, PAGE_WORDS, Refusal,
    Reply, Value, encode_header, encode_name, encode_value,
};
use region_pages::{CLAIM_COUNTER, POOL_LENGTH, SPACE_WORD, USED_MARK};
use safepoint_gate::{Gate, Inside};

/// Where an object is placed: the page, its used words, and whether it was claimed for it.
#[derive(Clone, Copy, Drop)]
struct Room {
    page: u32,
    used: u64,
    claimed: bool,
}

// The room behind the used words of the thread's current page in its innermost space, if the object fits there.
fn room_in_current(inside: &mut Inside, gate: &Gate, depth: u8, size: u64) -> Option<Room>
    requires gate { IsOf gate.now inside.old.seat.table_id inside.old.seat.me.0 }
    requires quiet { IsQuiet inside.old.seat.me.0 }
    requires depth { depth ≡ (actor inside.old.seat.me.0).told.depth }
    requires deep { depth ≤ max_depth inside.old.seat.me.0.map }
    requires size { size < 2 ^ 32 }
    ensures gate { IsOf gate.now inside.new.seat.table_id inside.new.seat.me.0 }
    ensures found { MatchOption result (FindsNone inside.old.seat.me.0 size inside.new.seat.me.0) (λ room. FindsRoom inside.old.seat.me.0 size room inside.new.seat.me.0) }
    ensures thread { inside.new.thread ≡ inside.old.thread }
{
    let current = inside.load_own(
        gate,
        current_place(gate.map(), inside.thread(), depth),
        None,
    );
    if current == 0 {
        return None;
    }
    let page = current as u32 - 1;
    let used = inside.load_own(gate, gate.map().page(page) + USED_MARK, None);
    if used + size > u64::from(PAGE_WORDS) {
        return None;
    }
    Some(Room {
        page,
        used,
        claimed: false,
    })
}

// The room of a page that is claimed, if one is left.
fn claim_room(inside: &mut Inside, gate: &Gate) -> Result<Room, NoPage>
    requires gate { IsOf gate.now inside.old.seat.table_id inside.old.seat.me.0 }
    requires quiet { IsQuiet inside.old.seat.me.0 }
    ensures gate { IsOf gate.now inside.new.seat.table_id inside.new.seat.me.0 }
    ensures claimed { IfOk result (λ room. ClaimsRoom inside.old.seat.me.0 room inside.new.seat.me.0) }
    ensures none { IfErr result (λ _. ClaimsNone inside.old.seat.me.0 inside.new.seat.me.0) }
    ensures thread { inside.new.thread ≡ inside.old.thread }
{
    let length = inside.load_pool(gate, POOL_LENGTH);
    if inside.load_pool(gate, CLAIM_COUNTER) >= length {
        return Err(NoPage);
    }
    let counter = inside.claim(gate);
    if counter >= length {
        return Err(NoPage);
    }
    let page = inside.load_pool(gate, gate.map().pool() + counter as usize);
    Ok(Room {
        page: page as u32,
        used: 0,
        claimed: true,
    })
}

// The room for an object of k fields, in the current page or of a page that is claimed.
fn find_room(inside: &mut Inside, gate: &Gate, depth: u8, k: u32) -> Result<Room, NoPage>
    requires gate { IsOf gate.now inside.old.seat.table_id inside.old.seat.me.0 }
    requires quiet { IsQuiet inside.old.seat.me.0 }
    requires depth { depth ≡ (actor inside.old.seat.me.0).told.depth }
    requires deep { depth ≤ max_depth inside.old.seat.me.0.map }
    requires few { k ≤ MAX_FIELDS }
    ensures gate { IsOf gate.now inside.new.seat.table_id inside.new.seat.me.0 }
    ensures found { IfOk result (λ room. GetsRoom inside.old.seat.me.0 k room inside.new.seat.me.0) }
    ensures none { IfErr result (λ _. GetsNone inside.old.seat.me.0 k inside.new.seat.me.0) }
    ensures thread { inside.new.thread ≡ inside.old.thread }
{
    let size = u64::from(k) + u64::from(OBJECT_WORDS);
    match room_in_current(inside, gate, depth, size) {
        Some(room) => Ok(room),
        None => claim_room(inside, gate),
    }
}

// Stores the words of a new object: its header, its name and words of 0.
fn write_object(inside: &mut Inside, gate: &Gate, front: usize, header: Header, name: Name)
    requires gate { IsOf gate.now inside.old.seat.table_id inside.old.seat.me.0 }
    requires placing { (p : Placing inside.old.seat.me.0.map (actor inside.old.seat.me.0)) × (front ≡ front_of p) × (header.fields ≡ p.fields) }
    requires bare { (actor inside.old.seat.me.0).flight.covers ≡ [] }
    requires header { IsHeader header }
    requires name { IsName name }
    ensures gate { IsOf gate.now inside.new.seat.table_id inside.new.seat.me.0 }
    ensures written { WritesObject inside.old.seat.me.0 front header name (header.fields + OBJECT_WORDS) inside.new.seat.me.0 }
    ensures thread { inside.new.thread ≡ inside.old.thread }
{
    let at = gate.map().heap() + front;
    inside.store_own(gate, at, encode_header(header), None);
    inside.store_own(gate, at + 1, encode_name(name), None);
    for i in 2..usize::from(header.fields) + usize::from(OBJECT_WORDS) {
        inside.store_own(gate, at + i, 0, None);
    }
}

// Stores what the placing of the object asks: the page's space, its used mark and the current page.
fn enter_page(inside: &mut Inside, gate: &Gate, room: Room, space: Space, depth: u8, size: u64)
    requires gate { IsOf gate.now inside.old.seat.table_id inside.old.seat.me.0 }
    requires room { (fields : ℕ) × (size ≡ fields + OBJECT_WORDS) × HasRoom inside.old.seat.me.0.map (actor inside.old.seat.me.0) room fields (actor inside.old.seat.me.0).flight.covers }
    requires object { All (λ (k : Cover). heap_at inside.old.seat.me.0.map ≤ k.place) (actor inside.old.seat.me.0).flight.covers }
    requires depth { depth ≡ (actor inside.old.seat.me.0).told.depth }
    requires space { space ≡ inner_of (actor inside.old.seat.me.0).thread depth }
    ensures gate { IsOf gate.now inside.new.seat.table_id inside.new.seat.me.0 }
    ensures entered { EntersPage inside.old.seat.me.0 room size inside.new.seat.me.0 }
    ensures thread { inside.new.thread ≡ inside.old.thread }
{
    let map = gate.map();
    let at = map.page(room.page);
    let used = room.used + size;
    if room.claimed {
        inside.store_own(gate, at + SPACE_WORD, u64::from(index_of(space)) + 1, None);
        inside.store_own(gate, at + USED_MARK, used, None);
        let current = current_place(map, inside.thread(), depth);
        inside.store_own(gate, current, u64::from(room.page) + 1, None);
    } else {
        inside.store_own(gate, at + USED_MARK, used, None);
    }
}

// Makes the object in the room.
fn make_in(
    inside: &mut Inside,
    gate: &Gate,
    room: Room,
    k: u32,
    depth: u8,
    made: u64,
    length: usize,
)
    requires gate { IsOf gate.now inside.old.seat.table_id inside.old.seat.me.0 }
    requires room { HasRoom inside.old.seat.me.0.map (actor inside.old.seat.me.0) room k [] }
    requires depth { depth ≡ (actor inside.old.seat.me.0).told.depth }
    requires made { made ≡ (actor inside.old.seat.me.0).told.made }
    requires unspent { made < MAX_SERIAL }
    requires counted { Shows (actor inside.old.seat.me.0) (made_at inside.old.seat.me.0.map (actor inside.old.seat.me.0).thread) made }
    requires length { length ≡ list_length (actor inside.old.seat.me.0).told.stack }
    requires slots { length < STACK_SLOTS }
    ensures gate { IsOf gate.now inside.new.seat.table_id inside.new.seat.me.0 }
    ensures made { Answers inside.old.seat.me.0 (the_call.New k) the_reply.Ok [] inside.new.seat.me.0 }
    ensures thread { inside.new.thread ≡ inside.old.thread }
{
    let map = gate.map();
    let thread = inside.thread();
    let space = inner(thread, depth);
    let header = Header {
        fields: k as u16,
        space: index_of(space),
    };
    let name = Name {
        thread,
        serial: made + 1,
    };
    let size = u64::from(k) + u64::from(OBJECT_WORDS);
    let front = usize::from(PAGE_WORDS) * room.page as usize + room.used as usize;
    write_object(inside, gate, front, header, name);
    enter_page(inside, gate, room, space, depth, size);
    inside.store_own(gate, made_place(map, thread), made + 1, None);
    let word = encode_value(Value::Ref(Addr(front as u32)));
    inside.store_own(gate, slot_place(map, thread, length), word, None);
    let event = Some(told(Call::New(k), Reply::Ok));
    inside.store_own(gate, length_place(map, thread), length as u64 + 1, event);
}

/// Makes an object of k null fields in the innermost space, and pushes a reference to it.
///
/// # Errors
///
/// `NoPage` exactly where no refusal applies, the object doesn't fit the current page and no page was found. Nothing but the claim
/// counter has changed then.
pub(crate) fn new_object(inside: &mut Inside, gate: &Gate, k: u32) -> Result<Reply, NoPage>
    requires gate { IsOf gate.now inside.old.seat.table_id inside.old.seat.me.0 }
    requires quiet { IsQuiet inside.old.seat.me.0 }
    ensures gate { IsOf gate.now inside.new.seat.table_id inside.new.seat.me.0 }
    ensures answered { IfOk result (λ said. AnswersNew inside.old.seat.me.0 k said inside.new.seat.me.0) }
    ensures none { IfErr result (λ _. FindsNoPage inside.old.seat.me.0 k inside.new.seat.me.0) }
    ensures thread { inside.new.thread ≡ inside.old.thread }
{
    let call = Call::New(k);
    if k > u32::from(MAX_FIELDS) {
        return Ok(refuse(inside, gate, call, Refusal::TooLong));
    }
    let length = stack_length(inside, gate);
    if length >= STACK_SLOTS {
        return Ok(refuse(inside, gate, call, Refusal::StackFull));
    }
    let counted = made_place(gate.map(), inside.thread());
    let made = inside.load_own(gate, counted, None);
    if made >= MAX_SERIAL {
        return Ok(tell(
            inside,
            gate,
            counted,
            call,
            Reply::Refused(Refusal::NamesSpent),
        ));
    }
    let depth = inside.load_own(gate, depth_place(gate.map(), inside.thread()), None) as u8;
    let room = find_room(inside, gate, depth, k)?;
    make_in(inside, gate, room, k, depth, made, length);
    Ok(Reply::Ok)
}
