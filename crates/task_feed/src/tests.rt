ghost use Rattle.std.specs.Prelude.{◌≡◌, ◌<◌, All, IfOk, length};
ghost use Rattle.task_feed.specs.Takers.{IsTakerOf};

use crate::{Feed, Taken, Taker};
use std::alloc::{AllocError, Global};
use std::sync::Wait;
use std::sync::atomic::{AtomicU64, Ordering};
use std::test::Fail;
use std::thread;
use std::thread::Threads;

const TURNS: u32 = 100000000;

/// Takes with one of two takers.
fn take_with<R: Wait>(rt: &R, feed: &Feed, takers: &mut Vec<Taker>, second: bool) -> Option<u32>
    requires two { length takers.old.items ≡ 2 }
    requires made { All (IsTakerOf feed.now) takers.old.items }
    ensures two { length takers.new.items ≡ 2 }
    ensures made { All (IsTakerOf feed.now) takers.new.items }
{
    let taker = &mut takers[usize::from(second)];
    taker.take(rt, feed)
}

/// The tasks of a taker.
fn row(taken: &Taken, taker: usize) -> &[u32]
    requires { taker < length taken.now.rows }
{
    &taken.rows[taker]
}

/// Waits until so many have come, for so many turns.
fn meet(come: &AtomicU64, many: u64) -> bool {
    come.fetch_add(1, Ordering::SeqCst);
    for _ in 0..TURNS {
        if come.load(Ordering::SeqCst) >= many {
            return true;
        }
        thread::yield_now();
    }
    false
}

/// Takes a task, waits until the other has taken one too, and takes until there is none.
fn take_all<R: Wait>(rt: &R, feed: &Feed, come: &AtomicU64, mut taker: Taker) -> (Taker, bool)
    requires { IsTakerOf feed.now taker }
    ensures { IsTakerOf feed.now result.0 }
{
    let first = taker.take(rt, feed);
    let met = meet(come, 2);
    for _ in rt.forever() {
        if taker.take(rt, feed).is_none() {
            break;
        }
    }
    (taker, met && first.is_some())
}

/// Two threads take together.
fn take_together<R: Threads + Wait + Sync>(
    rt: &R,
    feed: &Feed,
    one: Taker,
    other: Taker,
) -> (Taker, Taker, bool)
    requires { IsTakerOf feed.now one × IsTakerOf feed.now other }
    ensures { IsTakerOf feed.now result.0 × IsTakerOf feed.now result.1 }
{
    let come = &AtomicU64::new(0);
    let (one, other) = thread::join(
        rt,
        move ||
            requires { IsTakerOf feed.now one }
            ensures { IsTakerOf feed.entry.now result.0 }
        { take_all(rt, feed, come, one) },
        move ||
            requires { IsTakerOf feed.now other }
            ensures { IsTakerOf feed.entry.now result.0 }
        { take_all(rt, feed, come, other) },
    );
    (one.0, other.0, one.1 && other.1)
}

/// What two threads took of so many tasks, and whether both took before either was done.
fn share_out<R: Threads + Wait + Sync>(
    rt: &R,
    alloc: Global,
    tasks: u32,
) -> Result<(Taken, bool), AllocError>
    ensures { IfOk result (λ shared. length shared.0.rows ≡ 2) }
{
    let mut both = Vec::with_capacity(alloc, 2)?;
    let Ok((feed, mut takers)) = Feed::new(rt, alloc, tasks, 2) else {
        return Err(AllocError);
    };
    let one = takers.remove(0);
    let other = takers.remove(0);
    let (one, other, met) = take_together(rt, &feed, one, other);
    both.push_reserved(one);
    both.push_reserved(other);
    Ok((feed.done(rt, both), met))
}

#[test]
fn the_first_taker_takes_all(rt: HostRuntime) -> Result<(), Fail> {
    let Ok((feed, mut takers)) = Feed::new(&rt, rt.alloc(), 3, 2) else {
        panic!(rt; "no memory");
    };
    for want in [Some(0), Some(1), Some(2), None, None] {
        assert_eq!(rt; take_with(&rt, &feed, &mut takers, false), want);
    }
    assert_eq!(rt; takers[0].taken(), [0, 1, 2].as_slice());
    let taken = feed.done(&rt, takers);
    assert_eq!(rt; row(&taken, 0), [0, 1, 2].as_slice());
    assert_eq!(rt; row(&taken, 1), [].as_slice());
    assert_eq!(rt; taken.left.as_slice(), [].as_slice());
    Ok(())
}

#[test]
fn what_nobody_takes_is_left(rt: HostRuntime) -> Result<(), Fail> {
    let Ok((feed, takers)) = Feed::new(&rt, rt.alloc(), 3, 2) else {
        panic!(rt; "no memory");
    };
    let taken = feed.done(&rt, takers);
    assert_eq!(rt; taken.left.as_slice(), [0, 1, 2].as_slice());
    let Ok((feed, mut takers)) = Feed::new(&rt, rt.alloc(), 3, 2) else {
        panic!(rt; "no memory");
    };
    assert_eq!(rt; take_with(&rt, &feed, &mut takers, true), Some(0));
    assert_eq!(rt; take_with(&rt, &feed, &mut takers, false), Some(1));
    let taken = feed.done(&rt, takers);
    assert_eq!(rt; row(&taken, 0), [1].as_slice());
    assert_eq!(rt; row(&taken, 1), [0].as_slice());
    assert_eq!(rt; taken.left.as_slice(), [2].as_slice());
    Ok(())
}

#[test]
fn two_threads_take_together(rt: HostRuntime) -> Result<(), Fail> {
    for tasks in [2, 3, 1000] {
        let (taken, met) = share_out(&rt, rt.alloc(), tasks)?;
        assert!(rt; met, "both take before either is done");
        assert_eq!(rt; row(&taken, 0).len() + row(&taken, 1).len(), tasks as usize);
        assert_eq!(rt; taken.left.len(), 0);
    }
    Ok(())
}
