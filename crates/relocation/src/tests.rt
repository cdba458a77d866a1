//! Two objects that refer to each other, moved.

ghost use Rattle.std.specs.Prelude.{◌≡◌, ◌≤◌, ◌+◌, slice_set};
ghost use Rattle.heap_words.specs.Map.{heap_length};
ghost use Rattle.heap_words.specs.Contents.{Sound};
ghost use Rattle.relocation.specs.Moves.{heap_of};

use crate::{add_move, correct, empty_plan, move_all};
use epoch_lattice::Space;
use heap_words::{Areas, Image, Words, get_heap, set_heap};
use object_layout::{Addr, HEADER_BASE};
use std::test::Fail;

/// Puts an object of one field into the control space.
fn put_object<W: Words>(words: &mut W, map: Areas, a: usize, name: u64, field: u64)
    requires sound { Sound map (W.words words.old) }
    requires within { a + 4 ≤ heap_length map }
    ensures put { heap_of map (W.words words.new) ≡ slice_set (slice_set (slice_set (slice_set (heap_of map (W.words words.old)) a (HEADER_BASE + 1)) (a + 1) name) (a + 2) 0) (a + 3) field }
    ensures sound { Sound map (W.words words.new) }
{
    set_heap(words, map, a, HEADER_BASE + 1);
    set_heap(words, map, a + 1, name);
    set_heap(words, map, a + 2, 0);
    set_heap(words, map, a + 3, field);
}

/// Moves two objects that refer to each other, the first one into a region and over a part of its old place.
fn move_two<W: Words>(words: &mut W, map: Areas)
    requires { Sound map (W.words words.old) }
    ensures { Sound map (W.words words.new) }
{
    put_object(words, map, 10, 1, 42);
    put_object(words, map, 20, 2, 22);
    let mut plan = empty_plan(words, map);
    let region = Space::Region {
        thread: 1,
        depth: 1,
    };
    add_move(words, map, &mut plan, Addr(10), Addr(8), region);
    add_move(words, map, &mut plan, Addr(20), Addr(12), Space::Control);
    correct(words, map, &plan, map.heap() + 13);
    correct(words, map, &plan, map.heap() + 23);
    move_all(words, map, plan);
}

#[test]
fn objects_that_refer_to_each_other_are_moved(rt: HostRuntime) -> Result<(), Fail> {
    let mut image = match Image::new(rt.alloc(), 1, 1) {
        Ok(image) => image,
        Err(error) => panic!(rt; "no heap: {error}"),
    };
    let map = image.map();
    move_two(&mut image, map);
    for (a, word) in [
        (8, 65793),
        (9, 1),
        (10, 0),
        (11, 26),
        (12, 65537),
        (13, 2),
        (14, 0),
        (15, 18),
    ] {
        assert_eq!(rt; get_heap(&mut image, map, a), word, "at {a}");
    }
    Ok(())
}
