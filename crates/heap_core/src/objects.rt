//! The making of objects.

ghost use Rattle.std.specs.Prelude.{◌≡◌, ◌≤◌, ◌<◌, ◌+◌, ◌*◌, ℕ, ◌⊎◌, [], length, IfOk, IfErr};
ghost use Rattle.object_layout.specs.Layout.{header_word, name_word};
ghost use Rattle.object_layout.specs.declared.TheConstants.{MAX_FIELDS, MAX_SERIAL, OBJECT_WORDS};
ghost use Rattle.heap_words.specs.declared.TheConstants.{STACK_SLOTS};
ghost use Rattle.heap_words.specs.Map.{HasThread, heap_length, page_words};
ghost use Rattle.heap_words.specs.Contents.{contents, depth_of, made_of, stack_of, Sound};
ghost use Rattle.epoch_lattice.specs.Lattice.{inner_of, space_index};
ghost use Rattle.yak_model.specs.Spaces.{SpaceState};
ghost use Rattle.yak_model.specs.Stands.{CurrentsStand, PoolStands, Stands, free_pages};
ghost use Rattle.region_pages.specs.Placement.{IsPlaced, words_left_at};
ghost use Rattle.standing_calls.specs.Turned.{Turned};
ghost use Rattle.standing_calls.specs.Room.{HasNoRoom};
ghost use Rattle.heap_core.specs.Makings.{MadeAfter, FullAfter, IsMade};
ghost use Rattle.yak_model.specs.Recorded.{SomeRecorded};
ghost use Rattle.object_layout.specs.declared.replies.Reply.TheVariants as reply;
ghost use Rattle.standing_calls.specs.Objects.{IsWritten};

use crate::calls::plain_step;
use crate::owned::Stepped;
use crate::slots::push_word;
use epoch_lattice::{index_of, inner};
use heap_words::{
    Areas, STACK_SLOTS, Words, get_depth, get_made, set_heap, set_made, stack_length,
};
use mark_compact::collect;
use object_layout::{
    Addr, Call, Header, MAX_FIELDS, MAX_SERIAL, Name, NoPage, OBJECT_WORDS, Refusal, Reply, Value,
    encode_header, encode_name, encode_value,
};
use region_pages::{census, place};

/// Writes an object of so many words with null fields: its header, its name and words of 0.
fn write_object<W: Words>(words: &mut W, map: Areas, a: usize, header: u64, name: u64, size: u16)
    requires sound { Sound map (W.words words.old) }
    requires least { OBJECT_WORDS ≤ size }
    requires within { a + size ≤ heap_length map }
    ensures written { IsWritten (contents map (W.words words.old)) (contents map (W.words words.new)) a header name size size }
    ensures sound { Sound map (W.words words.new) }
    ensures base { W.base words.new ≡ W.base words.old }
{
    set_heap(words, map, a, header);
    set_heap(words, map, a + 1, name);
    for i in 2..size as usize {
        set_heap(words, map, a + i, 0);
    }
}

/// The header of an object that a thread makes in its innermost space.
fn new_header<W: Words>(words: &mut W, map: Areas, thread: u8, fields: u16) -> u64
    requires sound { Sound map (W.words words.old) }
    requires thread { HasThread map thread }
    requires few { fields ≤ MAX_FIELDS }
    ensures header { result ≡ header_word (record { fields = fields; space = space_index (inner_of thread (depth_of (contents map (W.words words.old)) thread)) }) }
    ensures words { W.words words.new ≡ W.words words.old }
    ensures base { W.base words.new ≡ W.base words.old }
{
    let space = inner(thread, get_depth(words, map, thread));
    encode_header(Header {
        fields,
        space: index_of(space),
    })
}

/// A place for an object of so many words in a thread's innermost space.
fn new_place<W: Words>(words: &mut W, map: Areas, thread: u8, size: u16) -> Result<Addr, NoPage>
    requires sound { Sound map (W.words words.old) }
    requires thread { HasThread map thread }
    requires stands { ∥ ((state : SpaceState) × Stands map (contents map (W.words words.old)) state) ∥₁ }
    requires least { OBJECT_WORDS ≤ size }
    requires most { size ≤ page_words map }
    ensures placed { let c = contents map (W.words words.old) in IfOk result (λ a. IsPlaced map c thread (inner_of thread (depth_of c thread)) size a.0 (contents map (W.words words.new))) }
    ensures within { IfOk result (λ a. a.0 + size ≤ heap_length map) }
    ensures none { let c = contents map (W.words words.old) in IfErr result (λ _. (words_left_at map c thread (depth_of c thread) < size) × (free_pages c.heads c.pool ≡ []) × (W.words words.new ≡ W.words words.old)) }
    ensures sound { Sound map (W.words words.new) }
    ensures pool { let c = contents map (W.words words.new) in PoolStands map c.heads c.pool c.table }
    ensures currents { let c = contents map (W.words words.new) in CurrentsStand map c.currents c.table }
    ensures base { W.base words.new ≡ W.base words.old }
{
    let space = inner(thread, get_depth(words, map, thread));
    place(words, map, thread, space, size)
}

/// Makes an object of so many null fields, where nothing refuses it, and pushes a reference to it.
///
/// # Errors
///
/// `NoPage` where the current page has too few words left and no page is free: then nothing changes.
fn make<W: Words>(
    words: &mut W,
    map: Areas,
    thread: u8,
    fields: u16,
    made: u64,
) -> Result<Reply, NoPage>
    requires sound { Sound map (W.words words.old) }
    requires thread { HasThread map thread }
    requires stands { ∥ ((state : SpaceState) × Stands map (contents map (W.words words.old)) state) ∥₁ }
    requires few { fields ≤ MAX_FIELDS }
    requires slot { length (stack_of (contents map (W.words words.old)) thread) < STACK_SLOTS }
    requires made { made ≡ made_of (contents map (W.words words.old)) thread }
    requires unspent { made < MAX_SERIAL }
    ensures made { IfOk result (λ said. (said ≡ reply.Ok) × Turned map (contents map (W.words words.old)) (contents map (W.words words.new)) thread (Call.New fields) reply.Ok) }
    ensures none { IfErr result (λ _. HasNoRoom map (contents map (W.words words.old)) thread (fields + OBJECT_WORDS) × (W.words words.new ≡ W.words words.old)) }
    ensures sound { Sound map (W.words words.new) }
    ensures base { W.base words.new ≡ W.base words.old }
{
    let header = new_header(words, map, thread, fields);
    let Ok(a) = new_place(words, map, thread, fields + OBJECT_WORDS) else {
        return Err(NoPage);
    };
    let name = encode_name(Name {
        thread,
        serial: made + 1,
    });
    write_object(
        words,
        map,
        a.0 as usize,
        header,
        name,
        fields + OBJECT_WORDS,
    );
    set_made(words, map, thread, made + 1);
    Ok(push_word(words, map, thread, encode_value(Value::Ref(a))))
}

/// Makes an object after a collection of the control space, or says that the heap is full for it then.
fn make_collected<W: Words>(
    words: &mut W,
    map: Areas,
    thread: u8,
    fields: u16,
    made: u64,
) -> Stepped
    requires sound { Sound map (W.words words.old) }
    requires thread { HasThread map thread }
    requires recorded { SomeRecorded map (contents map (W.words words.old)) }
    requires few { fields ≤ MAX_FIELDS }
    requires slot { length (stack_of (contents map (W.words words.old)) thread) < STACK_SLOTS }
    requires made { made ≡ made_of (contents map (W.words words.old)) thread }
    requires unspent { made < MAX_SERIAL }
    ensures made { MadeAfter map (contents map (W.words words.old)) (contents map (W.words words.new)) thread fields result ⊎ FullAfter map (contents map (W.words words.old)) (contents map (W.words words.new)) thread fields result }
    ensures sound { Sound map (W.words words.new) }
    ensures base { W.base words.new ≡ W.base words.old }
{
    collect(words, map, thread);
    match make(words, map, thread, fields, made) {
        Ok(reply) => Stepped {
            reply,
            collected: true,
            full: None,
            shortage: None,
        },
        Err(_) => Stepped {
            reply: Reply::OutOfHeap,
            collected: true,
            full: Some(census(words, map)),
            shortage: None,
        },
    }
}

/// Makes an object of so many null fields in a thread's innermost space, and pushes a reference to it. Where the object doesn't
/// fit the current page and no page is free, the control space is collected first.
pub fn new_object<W: Words>(words: &mut W, map: Areas, thread: u8, k: u32) -> Stepped
    requires sound { Sound map (W.words words.old) }
    requires thread { HasThread map thread }
    requires recorded { SomeRecorded map (contents map (W.words words.old)) }
    ensures made { IsMade map (contents map (W.words words.old)) (contents map (W.words words.new)) thread k result }
    ensures sound { Sound map (W.words words.new) }
    ensures base { W.base words.new ≡ W.base words.old }
{
    if k > MAX_FIELDS as u32 {
        return plain_step(Reply::Refused(Refusal::TooLong));
    }
    let count = stack_length(words, map, thread);
    if count >= STACK_SLOTS {
        return plain_step(Reply::Refused(Refusal::StackFull));
    }
    let made = get_made(words, map, thread);
    if made >= MAX_SERIAL {
        return plain_step(Reply::Refused(Refusal::NamesSpent));
    }
    match make(words, map, thread, k as u16, made) {
        Ok(reply) => plain_step(reply),
        Err(_) => make_collected(words, map, thread, k as u16, made),
    }
}
