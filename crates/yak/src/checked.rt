//! Traces that are made and checked.

use crate::plain::{KeptHeap, plain};
use crate::tests::split_words;
use object_layout::{Call, Reply};
use std::test::Fail;
use yak_io::{MemorySink, SureSource};
use yak_model::SpaceState;

#[test]
fn traces_are_made_and_checked(rt: HostRuntime) -> Result<(), Fail> {
    let alloc = rt.alloc();
    for (word, text, status, written) in [
        (
            "check",
            "heap 4 1\n1 int 7\n1 get 1\n==\n2 ok\n3 int 7\n",
            0,
            "lawful\n",
        ),
        (
            "check",
            "heap 4 1\n1 int 7\n1 get 1\n==\n2 ok\n3 int 8\n",
            10,
            "entry 2\n",
        ),
        (
            "check",
            "heap 4 1\n1 int 7\n1 get 1\n==\n2 ok\n",
            10,
            "entry 2\n",
        ),
        (
            "check",
            "heap 4 1\n1 int 7\n1 get 1\n==\n2 ok\n3 seven\n",
            9,
            "line 6: bad trace\n",
        ),
        (
            "check",
            "heap 4 1\n1 int 7\n1 get 1\n",
            9,
            "line 4: bad trace\n",
        ),
        (
            "trace",
            "heap 1 1\n1 new 234\n1 new 0\n1 pop\n1 new 0\n",
            0,
            "heap 1 1\n1 new 234\n1 new 0\n1 pop\n1 new 0\n==\n2 ok\ncollected 1\n3 out of heap\n4 ok\ncollected 1\n5 ok\n",
        ),
        (
            "check",
            "heap 1 1\n1 new 234\n1 new 0\n1 pop\n1 new 0\n==\n2 ok\ncollected 1\n3 out of heap\n4 ok\ncollected 1\n5 ok\n",
            0,
            "lawful\n",
        ),
        (
            "check",
            "heap 1 1\n1 new 234\n1 new 0\n1 pop\n1 new 0\n==\n2 ok\n3 out of heap\n4 ok\ncollected 1\n5 ok\n",
            10,
            "entry 2\n",
        ),
        (
            "check",
            "heap 4 2\n1 null\n2 null\n==\n\n# in another order\n 3 ok \n2\tok",
            0,
            "lawful\n",
        ),
        (
            "check",
            "heap 4 2\n1 null\n1 pop\n==\n3 ok\n2 ok\n",
            10,
            "entry 1\n",
        ),
        (
            "check",
            "heap 4 1\n1 null\n==\n2 ok\ncollected 1\n",
            10,
            "entry 3\n",
        ),
        (
            "check",
            "heap 4 1\n1 null\n==\ncollected 2\n",
            9,
            "line 4: bad trace\n",
        ),
        (
            "check",
            "heap 4 1\n2 null\n==\n3 seven\n",
            2,
            "line 2: bad thread\n",
        ),
        ("check", "", 2, "line 1: bad header\n"),
        ("trace", "heap 4 1\n1 nil\n", 2, "line 2: bad command\n"),
        ("trace", "heap 4 1", 0, "heap 4 1\n==\n"),
    ] {
        let args = split_words(alloc, word)?;
        let mut source = SureSource::new(Vec::from_slice(alloc, text.as_bytes())?);
        let mut sink = MemorySink::new(alloc, 1000, Vec::new(alloc))?;
        let mut kept = KeptHeap::Nothing;
        let ended = plain(alloc, &args, &mut source, &mut sink, &mut kept);
        assert_eq!(rt; ended, status, "{text}");
        assert_eq!(rt; sink.written(), written.as_bytes(), "{text}");
    }
    Ok(())
}

#[test]
fn escaping_words_are_counted(rt: HostRuntime) -> Result<(), Fail> {
    let mut spaces = SpaceState::new(rt.alloc(), 1)?;
    assert!(rt; spaces.call(1, Call::Begin, Reply::Ok)?);
    assert!(rt; spaces.call(1, Call::New(0), Reply::Ok)?);
    assert_eq!(rt; spaces.escape_words(1)?, 3);
    Ok(())
}
