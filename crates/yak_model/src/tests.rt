//! Both machines over worked cases: each reply is allowed, and each number of objects moved is that of the machine.
ghost use Rattle.std.specs.Prelude.{◌≡◌, ◌≤◌, ◌↔◌, IsTrue, length};
ghost use Rattle.object_layout.specs.Calls.{IsCall};
ghost use Rattle.yak_model.specs.Graph.{IsThread};

use crate::{GraphState, SpaceState};
use object_layout::{Call, MAX_INT, MAX_THREADS, NoMemory, Refusal, Reply};
use std::alloc::Global;
use std::test::Fail;

/// A thread, whether its call collects the control space before it, the call and its reply.
type Row = (u8, bool, Call, Reply);

/// Refusals.
const REFUSALS: [Row; 10] = [
    (1, false, Call::End, Reply::Refused(Refusal::NoEpoch)),
    (1, false, Call::Int(5), Reply::Ok),
    (
        1,
        false,
        Call::Load(1, 0),
        Reply::Refused(Refusal::NotAReference),
    ),
    (
        1,
        false,
        Call::Load(0, 16),
        Reply::Refused(Refusal::BadField),
    ),
    (1, false, Call::Get(2), Reply::Refused(Refusal::BadSlot)),
    (1, false, Call::New(254), Reply::Refused(Refusal::TooLong)),
    (1, false, Call::Pop, Reply::Ok),
    (1, false, Call::Pop, Reply::Ok),
    (1, false, Call::Pop, Reply::Refused(Refusal::StackEmpty)),
    (1, false, Call::Get(0), Reply::Refused(Refusal::BadSlot)),
];

/// Placement per thread.
const PLACEMENT_PER_THREAD: [Row; 6] = [
    (2, false, Call::New(0), Reply::Ok),
    (1, false, Call::New(234), Reply::Ok),
    (1, false, Call::New(0), Reply::Ok),
    (2, false, Call::Dup(1), Reply::Ok),
    (2, false, Call::Same(1, 2), Reply::Yes),
    (
        2,
        false,
        Call::Store(1, 0, 0),
        Reply::Refused(Refusal::BadField),
    ),
];

/// Collection frees the popped.
const COLLECTION_FREES_THE_POPPED: [Row; 4] = [
    (1, false, Call::New(234), Reply::Ok),
    (1, true, Call::New(0), Reply::OutOfHeap),
    (1, false, Call::Pop, Reply::Ok),
    (1, false, Call::New(0), Reply::Ok),
];

/// Slide keeps the reached.
const SLIDE_KEEPS_THE_REACHED: [Row; 9] = [
    (1, false, Call::New(0), Reply::Ok),
    (1, false, Call::New(0), Reply::Ok),
    (1, false, Call::Store(0, 0, 2), Reply::Ok),
    (1, false, Call::Pop, Reply::Ok),
    (1, false, Call::Pop, Reply::Ok),
    (1, false, Call::Collect, Reply::Ok),
    (1, false, Call::Load(0, 0), Reply::Ok),
    (1, false, Call::Get(1), Reply::Object(0)),
    (
        1,
        false,
        Call::Census,
        Reply::Pages {
            free: 1,
            region: 0,
            control: 1,
        },
    ),
];

/// Popped object dies.
const POPPED_OBJECT_DIES: [Row; 4] = [
    (1, false, Call::Begin, Reply::Ok),
    (1, false, Call::New(1), Reply::Ok),
    (1, false, Call::Pop, Reply::Ok),
    (
        1,
        false,
        Call::End,
        Reply::Ended {
            moved: 0,
            tight: false,
        },
    ),
];

/// Cycle moves whole.
const CYCLE_MOVES_WHOLE: [Row; 11] = [
    (1, false, Call::Begin, Reply::Ok),
    (1, false, Call::New(1), Reply::Ok),
    (1, false, Call::New(1), Reply::Ok),
    (1, false, Call::Store(1, 0, 2), Reply::Ok),
    (1, false, Call::Store(2, 0, 1), Reply::Ok),
    (1, false, Call::Pop, Reply::Ok),
    (
        1,
        false,
        Call::End,
        Reply::Ended {
            moved: 2,
            tight: false,
        },
    ),
    (1, false, Call::Load(1, 0), Reply::Ok),
    (1, false, Call::Load(2, 0), Reply::Ok),
    (1, false, Call::Same(1, 3), Reply::Yes),
    (1, false, Call::Same(1, 2), Reply::No),
];

/// Inner object dies with outer.
const INNER_OBJECT_DIES_WITH_OUTER: [Row; 11] = [
    (1, false, Call::Begin, Reply::Ok),
    (1, false, Call::New(1), Reply::Ok),
    (1, false, Call::Begin, Reply::Ok),
    (1, false, Call::New(0), Reply::Ok),
    (1, false, Call::Store(1, 0, 2), Reply::Ok),
    (1, false, Call::Pop, Reply::Ok),
    (
        1,
        false,
        Call::End,
        Reply::Ended {
            moved: 1,
            tight: false,
        },
    ),
    (1, false, Call::Get(1), Reply::Object(1)),
    (1, false, Call::Pop, Reply::Ok),
    (
        1,
        false,
        Call::End,
        Reply::Ended {
            moved: 0,
            tight: false,
        },
    ),
    (
        1,
        false,
        Call::Census,
        Reply::Pages {
            free: 7,
            region: 0,
            control: 1,
        },
    ),
];

/// Join of outer and control.
const JOIN_OF_OUTER_AND_CONTROL: [Row; 12] = [
    (1, false, Call::Begin, Reply::Ok),
    (1, false, Call::New(1), Reply::Ok),
    (1, false, Call::Begin, Reply::Ok),
    (1, false, Call::New(0), Reply::Ok),
    (1, false, Call::Store(1, 0, 2), Reply::Ok),
    (1, false, Call::Store(0, 0, 2), Reply::Ok),
    (1, false, Call::Pop, Reply::Ok),
    (
        1,
        false,
        Call::End,
        Reply::Ended {
            moved: 1,
            tight: false,
        },
    ),
    (1, false, Call::Pop, Reply::Ok),
    (
        1,
        false,
        Call::End,
        Reply::Ended {
            moved: 0,
            tight: false,
        },
    ),
    (1, false, Call::Load(0, 0), Reply::Ok),
    (1, false, Call::Get(1), Reply::Object(0)),
];

/// Other region is target.
const OTHER_REGION_IS_TARGET: [Row; 19] = [
    (2, false, Call::Begin, Reply::Ok),
    (2, false, Call::New(1), Reply::Ok),
    (1, false, Call::Begin, Reply::Ok),
    (1, false, Call::New(0), Reply::Ok),
    (1, false, Call::Store(0, 0, 1), Reply::Ok),
    (2, false, Call::Load(0, 0), Reply::Ok),
    (2, false, Call::Store(1, 0, 2), Reply::Ok),
    (2, false, Call::Pop, Reply::Ok),
    (1, false, Call::Null, Reply::Ok),
    (1, false, Call::Store(0, 0, 2), Reply::Ok),
    (1, false, Call::Pop, Reply::Ok),
    (1, false, Call::Pop, Reply::Ok),
    (
        1,
        false,
        Call::End,
        Reply::Ended {
            moved: 1,
            tight: false,
        },
    ),
    (2, false, Call::Load(1, 0), Reply::Ok),
    (2, false, Call::Get(2), Reply::Object(0)),
    (2, false, Call::Pop, Reply::Ok),
    (2, false, Call::Pop, Reply::Ok),
    (
        2,
        false,
        Call::End,
        Reply::Ended {
            moved: 0,
            tight: false,
        },
    ),
    (
        2,
        false,
        Call::Census,
        Reply::Pages {
            free: 7,
            region: 0,
            control: 1,
        },
    ),
];

/// Other stack alone holds.
const OTHER_STACK_ALONE_HOLDS: [Row; 10] = [
    (1, false, Call::Begin, Reply::Ok),
    (1, false, Call::New(2), Reply::Ok),
    (1, false, Call::Store(0, 0, 1), Reply::Ok),
    (2, false, Call::Load(0, 0), Reply::Ok),
    (1, false, Call::Null, Reply::Ok),
    (1, false, Call::Store(0, 0, 2), Reply::Ok),
    (1, false, Call::Pop, Reply::Ok),
    (1, false, Call::Pop, Reply::Ok),
    (
        1,
        false,
        Call::End,
        Reply::Ended {
            moved: 1,
            tight: false,
        },
    ),
    (2, false, Call::Get(1), Reply::Object(2)),
];

/// Reader bit alone moves nothing.
const READER_BIT_ALONE_MOVES_NOTHING: [Row; 11] = [
    (1, false, Call::Begin, Reply::Ok),
    (1, false, Call::New(2), Reply::Ok),
    (1, false, Call::Store(0, 0, 1), Reply::Ok),
    (2, false, Call::Load(0, 0), Reply::Ok),
    (1, false, Call::Null, Reply::Ok),
    (1, false, Call::Store(0, 0, 2), Reply::Ok),
    (1, false, Call::Pop, Reply::Ok),
    (1, false, Call::Pop, Reply::Ok),
    (2, false, Call::Pop, Reply::Ok),
    (
        1,
        false,
        Call::End,
        Reply::Ended {
            moved: 0,
            tight: false,
        },
    ),
    (
        1,
        false,
        Call::Census,
        Reply::Pages {
            free: 7,
            region: 0,
            control: 1,
        },
    ),
];

/// Control room is no use to region.
const CONTROL_ROOM_IS_NO_USE_TO_REGION: [Row; 7] = [
    (1, false, Call::New(234), Reply::Ok),
    (1, false, Call::Pop, Reply::Ok),
    (1, false, Call::Begin, Reply::Ok),
    (1, false, Call::New(253), Reply::Ok),
    (1, true, Call::New(0), Reply::OutOfHeap),
    (
        1,
        true,
        Call::End,
        Reply::Ended {
            moved: 1,
            tight: true,
        },
    ),
    (
        1,
        false,
        Call::Census,
        Reply::Pages {
            free: 0,
            region: 0,
            control: 2,
        },
    ),
];

/// Whether the number of an `Int` call is one that a value can hold.
fn is_call(call: Call) -> bool
    ensures { IsTrue result ↔ IsCall call }
{
    match call {
        Call::Int(i) => i <= MAX_INT,
        _ => true,
    }
}

/// Makes a call of the machine of the spaces, and tells whether the reply is right.
fn turn(state: &mut SpaceState, thread: u8, call: Call, reply: Reply) -> Result<bool, NoMemory>
    requires thread { IsThread state.old.graph thread }
    requires number { IsCall call }
    ensures threads { length state.new.graph.threads ≡ length state.old.graph.threads }
{
    match call {
        Call::End => {
            let tight = matches!(reply, Reply::Ended { tight: true, .. });
            Ok(match state.end(thread, tight)? {
                Some(moved) => reply == Reply::Ended { moved, tight },
                None => reply == Reply::Refused(Refusal::NoEpoch),
            })
        }
        Call::Collect => {
            state.collect()?;
            Ok(reply == Reply::Ok)
        }
        _ => state.call(thread, call, reply),
    }
}

/// The first row with a reply that a machine doesn't allow.
fn first_wrong(alloc: Global, threads: u8, rows: &[Row]) -> Result<Option<usize>, NoMemory>
    requires first { 1 ≤ threads }
    requires last { threads ≤ MAX_THREADS }
{
    let mut graph = GraphState::new(alloc, threads)?;
    let mut spaces = SpaceState::new(alloc, threads)?;
    for (i, row) in rows.iter().enumerate() {
        let (thread, collects, call, reply) = *row;
        if thread == 0 || thread > threads || !is_call(call) {
            return Ok(Some(i));
        }
        if collects {
            spaces.collect()?;
        }
        if !graph.step(thread, call, reply)? || !turn(&mut spaces, thread, call, reply)? {
            return Ok(Some(i));
        }
    }
    Ok(None)
}

#[test]
fn worked_cases(rt: HostRuntime) -> Result<(), Fail> {
    let alloc = rt.alloc();
    assert_eq!(rt; first_wrong(alloc, 1, &REFUSALS)?, None, "refusals");
    assert_eq!(rt;
        first_wrong(alloc, 2, &PLACEMENT_PER_THREAD)?,
        None,
        "placement per thread"
    );
    assert_eq!(rt;
        first_wrong(alloc, 1, &COLLECTION_FREES_THE_POPPED)?,
        None,
        "collection frees the popped"
    );
    assert_eq!(rt;
        first_wrong(alloc, 1, &SLIDE_KEEPS_THE_REACHED)?,
        None,
        "slide keeps the reached"
    );
    assert_eq!(rt;
        first_wrong(alloc, 1, &POPPED_OBJECT_DIES)?,
        None,
        "popped object dies"
    );
    assert_eq!(rt;
        first_wrong(alloc, 1, &CYCLE_MOVES_WHOLE)?,
        None,
        "cycle moves whole"
    );
    assert_eq!(rt;
        first_wrong(alloc, 1, &INNER_OBJECT_DIES_WITH_OUTER)?,
        None,
        "inner object dies with outer"
    );
    assert_eq!(rt;
        first_wrong(alloc, 1, &JOIN_OF_OUTER_AND_CONTROL)?,
        None,
        "join of outer and control"
    );
    assert_eq!(rt;
        first_wrong(alloc, 2, &OTHER_REGION_IS_TARGET)?,
        None,
        "other region is target"
    );
    assert_eq!(rt;
        first_wrong(alloc, 2, &OTHER_STACK_ALONE_HOLDS)?,
        None,
        "other stack alone holds"
    );
    assert_eq!(rt;
        first_wrong(alloc, 2, &READER_BIT_ALONE_MOVES_NOTHING)?,
        None,
        "reader bit alone moves nothing"
    );
    assert_eq!(rt;
        first_wrong(alloc, 1, &CONTROL_ROOM_IS_NO_USE_TO_REGION)?,
        None,
        "control room is no use to region"
    );
    Ok(())
}

#[test]
fn graph_allows_what_it_shows(rt: HostRuntime) -> Result<(), Fail> {
    let mut graph = GraphState::new(rt.alloc(), 1)?;
    assert!(rt; graph.step(1, Call::Int(7), Reply::Ok)?);
    assert!(rt; !graph.step(1, Call::Get(1), Reply::Null)?);
    assert!(rt; graph.step(1, Call::Get(1), Reply::Int(7))?);
    Ok(())
}

#[test]
fn spaces_end_no_epoch_that_is_not_open(rt: HostRuntime) -> Result<(), Fail> {
    let mut spaces = SpaceState::new(rt.alloc(), 1)?;
    assert!(rt; spaces.call(1, Call::Int(7), Reply::Ok)?);
    spaces.collect()?;
    assert_eq!(rt; spaces.end(1, false)?, None);
    Ok(())
}
