//! Heaps of one owner, called.
ghost use Rattle.std.specs.Prelude.{◌≡◌, ◌≤◌, ℕ};
ghost use Rattle.heap_words.specs.Map.{HasThread};
ghost use Rattle.heap_words.specs.Contents.{contents, depth_of, Sound};
ghost use Rattle.yak_model.specs.Recorded.{SomeRecorded};

use crate::Core;
use epoch_lattice::Space;
use escape_closure::{plan_moves, targets};
use heap_words::{Areas, Image, Words};
use object_layout::{Addr, Call, Census, Refusal, Reply, Shortage};
use region_pages::{free_count, release_space};
use remember_sets::{file_logs, first_slot, next_slot};
use std::alloc::Global;
use std::test::Fail;
use thread_stacks::depth;

// The first two slots of the chain of thread 1's region of depth 1, once the store buffers are filed.
fn recorded_slots(core: Core<Image>) -> (Option<Addr>, Option<Addr>) {
    let mut image = core.into_words();
    let map = image.map();
    file_logs(&mut image, map);
    let region = Space::Region {
        thread: 1,
        depth: 1,
    };
    match first_slot(&mut image, map, region) {
        Some(first) => (Some(first), next_slot(&mut image, map, first)),
        None => (None, None),
    }
}

#[test]
fn a_slot_that_crosses_is_recorded_once(rt: HostRuntime) -> Result<(), Fail> {
    for again in [false, true] {
        let mut core = match Core::new(rt.alloc(), 4, 1) {
            Ok(core) => core,
            Err(error) => panic!(rt; "no heap: {error}"),
        };
        assert_eq!(rt; core.step(1, Call::Begin).reply, Reply::Ok);
        assert_eq!(rt; core.step(1, Call::New(0)).reply, Reply::Ok);
        assert_eq!(rt; core.step(1, Call::Store(0, 0, 1)).reply, Reply::Ok);
        assert_eq!(rt; core.step(1, Call::Store(0, 1, 0)).reply, Reply::Ok);
        if again {
            assert_eq!(rt; core.step(1, Call::Store(0, 0, 1)).reply, Reply::Ok);
        }
        assert_eq!(rt; recorded_slots(core), (Some(Addr(3)), None));
    }
    Ok(())
}

// How many objects the end of a thread's innermost epoch would move, where the pages are enough.
fn plan_end<W: Words>(words: &mut W, map: Areas, thread: u8) -> Option<u32>
    requires sound { Sound map (W.words words.old) }
    requires thread { HasThread map thread }
    requires depth { 1 ≤ depth_of (contents map (W.words words.old)) thread }
    requires recorded { SomeRecorded map (contents map (W.words words.old)) }
{
    file_logs(words, map);
    targets(words, map, thread);
    match plan_moves(words, map, thread) {
        Ok(plan) => Some(plan.count),
        Err(_) => None,
    }
}

// How many objects the end of thread 1's innermost epoch would move.
fn planned_moves(core: Core<Image>) -> Option<u32> {
    let mut image = core.into_words();
    let map = image.map();
    if depth(&mut image, map, 1) == 0 {
        return None;
    }
    plan_end(&mut image, map, 1)
}

// The pages that are free once those of thread 1's region of depth 1 are given back.
fn free_without_region(core: Core<Image>) -> u32 {
    let mut image = core.into_words();
    let map = image.map();
    let region = Space::Region {
        thread: 1,
        depth: 1,
    };
    release_space(&mut image, map, region);
    free_count(&mut image, map)
}

// A heap of four pages in which the root refers to one of two objects of an epoch.
fn open_epoch(alloc: Global) -> Option<Core<Image>> {
    let Ok(mut core) = Core::new(alloc, 4, 1) else {
        return None;
    };
    let calls = [
        Call::Begin,
        Call::New(0),
        Call::New(0),
        Call::Store(0, 0, 1),
        Call::Pop,
    ];
    for call in calls {
        if core.step(1, call).reply != Reply::Ok {
            return None;
        }
    }
    Some(core)
}

#[test]
fn an_end_moves_what_is_referred_to_from_outside(rt: HostRuntime) -> Result<(), Fail> {
    let Some(core) = open_epoch(rt.alloc()) else {
        panic!(rt; "no epoch");
    };
    assert_eq!(rt; planned_moves(core), Some(1));
    Ok(())
}

#[test]
fn the_pages_of_a_region_are_given_back(rt: HostRuntime) -> Result<(), Fail> {
    let Some(core) = open_epoch(rt.alloc()) else {
        panic!(rt; "no epoch");
    };
    assert_eq!(rt; free_without_region(core), 3);
    Ok(())
}

#[test]
fn a_new_heap_answers(rt: HostRuntime) -> Result<(), Fail> {
    let mut core = match Core::new(rt.alloc(), 4, 1) {
        Ok(core) => core,
        Err(error) => panic!(rt; "no heap: {error}"),
    };
    assert_eq!(rt; core.step(1, Call::Int(7)).reply, Reply::Ok);
    assert_eq!(rt; core.step(1, Call::Store(0, 15, 1)).reply, Reply::Ok);
    assert_eq!(rt; core.step(1, Call::Load(0, 15)).reply, Reply::Ok);
    assert_eq!(rt; core.step(1, Call::Get(2)).reply, Reply::Int(7));
    assert_eq!(rt; core.step(1, Call::Same(1, 2)).reply, Reply::Yes);
    assert_eq!(rt; core.step(1, Call::Get(0)).reply, Reply::Object(16));
    assert_eq!(rt; core.step(1, Call::Pop).reply, Reply::Ok);
    assert_eq!(rt;
        core.step(1, Call::Dup(2)).reply,
        Reply::Refused(Refusal::BadSlot)
    );
    Ok(())
}

#[test]
fn two_threads_fill_the_heap(rt: HostRuntime) -> Result<(), Fail> {
    let mut core = match Core::new(rt.alloc(), 2, 2) {
        Ok(core) => core,
        Err(error) => panic!(rt; "no heap: {error}"),
    };
    assert_eq!(rt; core.step(2, Call::New(0)).reply, Reply::Ok);
    assert_eq!(rt; core.step(1, Call::New(234)).reply, Reply::Ok);
    let made = core.step(1, Call::New(0));
    assert_eq!(rt; made.reply, Reply::Ok);
    assert_eq!(rt; made.collected, true);
    assert_eq!(rt; core.step(2, Call::Dup(1)).reply, Reply::Ok);
    assert_eq!(rt; core.step(2, Call::Same(1, 2)).reply, Reply::Yes);
    assert_eq!(rt;
        core.step(2, Call::Store(1, 0, 0)).reply,
        Reply::Refused(Refusal::BadField)
    );
    Ok(())
}

#[test]
fn a_full_heap_says_so(rt: HostRuntime) -> Result<(), Fail> {
    let mut core = match Core::new(rt.alloc(), 1, 1) {
        Ok(core) => core,
        Err(error) => panic!(rt; "no heap: {error}"),
    };
    assert_eq!(rt; core.step(1, Call::New(234)).reply, Reply::Ok);
    let full = core.step(1, Call::New(0));
    assert_eq!(rt; full.reply, Reply::OutOfHeap);
    assert_eq!(rt;
        full.full,
        Some(Census {
            free: 0,
            region: 0,
            control: 1
        })
    );
    assert_eq!(rt; core.step(1, Call::Pop).reply, Reply::Ok);
    assert_eq!(rt; core.step(1, Call::New(0)).reply, Reply::Ok);
    Ok(())
}

#[test]
fn an_end_may_be_tight(rt: HostRuntime) -> Result<(), Fail> {
    let mut core = match Core::new(rt.alloc(), 2, 1) {
        Ok(core) => core,
        Err(error) => panic!(rt; "no heap: {error}"),
    };
    assert_eq!(rt; core.step(1, Call::New(234)).reply, Reply::Ok);
    assert_eq!(rt; core.step(1, Call::Begin).reply, Reply::Ok);
    assert_eq!(rt; core.step(1, Call::New(10)).reply, Reply::Ok);
    assert_eq!(rt; core.step(1, Call::Store(0, 0, 2)).reply, Reply::Ok);
    let ended = core.step(1, Call::End);
    assert_eq!(rt;
        ended.reply,
        Reply::Ended {
            moved: 1,
            tight: true
        }
    );
    assert_eq!(rt; ended.collected, true);
    assert_eq!(rt; ended.shortage, Some(Shortage { needed: 1, free: 0 }));
    assert_eq!(rt;
        core.step(1, Call::Census).reply,
        Reply::Pages {
            free: 0,
            region: 0,
            control: 2
        }
    );
    Ok(())
}
