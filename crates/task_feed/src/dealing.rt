//! Making a feed, and what it knows in the end.
ghost use Rattle.std.specs.Prelude.{◌≡◌, ◌≤◌, ◌+◌, ◌<◌, ℕ, [], true, false, All, Any, IfOk, cond, length, map, nat_lt, sum_by};
ghost use Rattle.std.specs.Vec.{vec_capacity};
ghost use Rattle.crossbeam_queue.specs.Passes.{IsPassOf, ruled_capacity, view};
ghost use Rattle.task_feed.specs.Dealt.{IsDealt, places};
ghost use Rattle.task_feed.specs.Hands.{IsWhole, hand};
ghost use Rattle.task_feed.specs.FeedContents.{lists_in};
ghost use Rattle.task_feed.specs.Takers.{IsFresh, IsTakerOf, TakesFrom, has_ended, row_of, takers_of, tasks_of};

use crate::feed::{Feed, Taken, TaskQueue};
use crate::rule::{HandPass, Puts, Queue, Shares, Takes};
use crate::takers::Taker;
use object_layout::NoMemory;
use std::alloc::Global;
use std::sync::Wait;

/// Puts the tasks, in ascending order.
fn put_tasks<R: Wait>(rt: &R, queue: &Queue, pass: &mut HandPass, tasks: u32)
    requires pass { IsPassOf queue.now pass.old }
    requires hand { view pass.old ≡ hand 1 1 0 0 0 [] }
    requires room { tasks ≤ ruled_capacity queue.now }
    ensures pass { IsPassOf queue.now pass.new }
    ensures hand { view pass.new ≡ hand 1 1 tasks 0 0 [] }
{
    for task in 0..tasks {
        if queue.push_as::<Puts, R>(rt, pass, Some(task)).is_err() {
            unreachable!();
        }
    }
}

/// Puts a sign of the end for each taker behind the tasks.
fn put_signs<R: Wait>(rt: &R, queue: &Queue, pass: &mut HandPass, tasks: u32, takers: u8)
    requires pass { IsPassOf queue.now pass.old }
    requires hand { view pass.old ≡ hand 1 1 tasks 0 0 [] }
    requires some { 1 ≤ takers }
    requires room { tasks + takers ≤ ruled_capacity queue.now }
    ensures pass { IsPassOf queue.now pass.new }
    ensures hand { view pass.new ≡ hand takers takers tasks takers 0 [] }
{
    for _sign in 0..takers {
        if queue.push_as::<Puts, R>(rt, pass, None).is_err() {
            unreachable!();
        }
    }
}

/// A queue of the tasks, with the signs of the end behind them, and the pass that has all parts.
fn fill_queue<R: Wait>(
    rt: &R,
    alloc: Global,
    tasks: u32,
    takers: u8,
) -> Result<(TaskQueue, HandPass), NoMemory>
    requires some { 1 ≤ takers }
    ensures numbers { IfOk result (λ filled. (filled.0.tasks ≡ tasks) × (filled.0.takers ≡ takers)) }
    ensures pass { IfOk result (λ filled. IsPassOf filled.0.queue filled.1) }
    ensures hand { IfOk result (λ filled. view filled.1 ≡ hand takers takers tasks takers 0 []) }
{
    let room = tasks as usize + usize::from(takers);
    let Ok((queue, mut pass)) = Queue::ruled(alloc, room) else {
        return Err(NoMemory);
    };
    put_tasks(rt, &queue, &mut pass, tasks);
    put_signs(rt, &queue, &mut pass, tasks, takers);
    let tasks = TaskQueue {
        queue,
        tasks,
        takers,
    };
    Ok((tasks, pass))
}

/// A taker with a pass and room for all tasks.
fn make_taker(alloc: Global, tasks: &TaskQueue, pass: HandPass) -> Result<Taker, NoMemory>
    requires pass { IsPassOf tasks.now.queue pass }
    requires hand { view pass ≡ hand 1 tasks.now.takers tasks.now.tasks 1 0 [] }
    ensures taker { IfOk result (λ taker. TakesFrom tasks.now taker × IsFresh taker) }
{
    let Ok(taken) = Vec::with_capacity(alloc, tasks.tasks as usize) else {
        return Err(NoMemory);
    };
    Ok(Taker {
        pass,
        taken,
        ended: false,
    })
}

/// The takers, each with a part. The last has the pass that is left.
fn make_takers(alloc: Global, tasks: &TaskQueue, mut pass: HandPass) -> Result<Vec<Taker>, NoMemory>
    requires pass { IsPassOf tasks.now.queue pass }
    requires hand { view pass ≡ hand tasks.now.takers tasks.now.takers tasks.now.tasks tasks.now.takers 0 [] }
    requires some { 1 ≤ tasks.now.takers }
    ensures takers { IfOk result (λ made. (length made.items ≡ tasks.now.takers) × All (λ taker. TakesFrom tasks.now taker × IsFresh taker) made.items) }
{
    let Ok(mut made) = Vec::with_capacity(alloc, usize::from(tasks.takers)) else {
        return Err(NoMemory);
    };
    for _taker in 1..tasks.takers {
        let theirs = tasks.queue.another::<Shares>(&mut pass);
        made.push_reserved(make_taker(alloc, tasks, theirs)?);
    }
    made.push_reserved(make_taker(alloc, tasks, pass)?);
    Ok(made)
}

/// A feed over a filled queue, with room for what `done` tells.
fn make_feed(alloc: Global, tasks: TaskQueue) -> Result<Feed, NoMemory>
    requires some { 1 ≤ tasks.takers }
    ensures tasks { IfOk result (λ feed. feed.tasks ≡ tasks) }
{
    let Ok(rows) = Vec::with_capacity(alloc, usize::from(tasks.takers)) else {
        return Err(NoMemory);
    };
    let Ok(left) = Vec::with_capacity(alloc, tasks.tasks as usize) else {
        return Err(NoMemory);
    };
    Ok(Feed { tasks, rows, left })
}

/// Puts the rows of all takers together, and what their passes know.
fn gather(tasks: &TaskQueue, mut takers: Vec<Taker>, rows: &mut Vec<Vec<u32>>) -> HandPass
    requires some { 1 ≤ tasks.now.takers }
    requires all { length takers.items ≡ tasks.now.takers }
    requires made { All (TakesFrom tasks.now) takers.items }
    requires rows { rows.old.items ≡ [] }
    requires room { tasks.now.takers ≤ vec_capacity rows.old }
    ensures pass { IsPassOf tasks.now.queue result }
    ensures whole { IsWhole (view result) }
    ensures put { (view result).put ≡ tasks.now.tasks }
    ensures rows { lists_in rows.new.items ≡ map row_of takers.items }
    ensures taken { (task : ℕ) → places task (view result).taken ≡ sum_by (places task) (map row_of takers.items) }
    ensures ended { Any (λ taker. has_ended taker ≡ true) takers.items → 0 < (view result).ends }
{
    let Taker {
        mut pass,
        taken,
        ..
    } = takers.remove(0);
    rows.push_reserved(taken);
    while !takers.is_empty() {
        let Taker {
            pass: theirs,
            taken,
            ..
        } = takers.remove(0);
        tasks.queue.absorb::<Shares>(&mut pass, theirs);
        rows.push_reserved(taken);
    }
    pass
}

/// Takes what is left in the queue.
fn drain<R: Wait>(rt: &R, queue: &Queue, mut pass: HandPass, left: &mut Vec<u32>)
    requires pass { IsPassOf queue.now pass }
    requires whole { IsWhole (view pass) }
    requires left { left.old.items ≡ [] }
    requires room { (view pass).put ≤ vec_capacity left.old }
    ensures once { (task : ℕ) → places task (view pass).taken + places task left.new.items ≡ cond (nat_lt task (view pass).put) 1 0 }
    ensures ended { 0 < (view pass).ends → left.new.items ≡ [] }
{
    for _ in rt.forever() {
        match queue.pop_as::<Takes, R>(rt, &mut pass) {
            Some(Some(task)) => left.push_reserved(task),
            Some(None) => return,
            None => return,
        }
    }
    unreachable!()
}

impl Feed {
    /// A feed of tasks, by their numbers from 0 on, and its takers. All memory that they need is taken here.
    ///
    /// # Errors
    ///
    /// `NoMemory` where an allocation was refused.
    pub fn new<R: Wait>(
        rt: &R,
        alloc: Global,
        tasks: u32,
        takers: u8,
    ) -> Result<(Feed, Vec<Taker>), NoMemory>
        requires some { 1 ≤ takers }
        ensures feed { IfOk result (λ made. (tasks_of made.0 ≡ tasks) × (takers_of made.0 ≡ takers)) }
        ensures takers { IfOk result (λ made. (length made.1.items ≡ takers) × All (λ taker. IsTakerOf made.0 taker × IsFresh taker) made.1.items) }
    {
        let (tasks, pass) = fill_queue(rt, alloc, tasks, takers)?;
        let made = make_takers(alloc, &tasks, pass)?;
        let feed = make_feed(alloc, tasks)?;
        Ok((feed, made))
    }

    /// What each of the takers took, and what nobody took. They are all the takers of this feed. It takes no memory.
    pub fn done<R: Wait>(self, rt: &R, takers: Vec<Taker>) -> Taken
        requires made { All (IsTakerOf self) takers.items }
        requires all { length takers.items ≡ takers_of self }
        ensures rows { result.rows ≡ map row_of takers.items }
        ensures count { length result.rows ≡ takers_of self }
        ensures dealt { IsDealt (tasks_of self) result.rows result.left }
        ensures ended { Any (λ taker. has_ended taker ≡ true) takers.items → result.left ≡ [] }
    {
        let Feed {
            tasks,
            mut rows,
            mut left,
            ..
        } = self;
        let pass = gather(&tasks, takers, &mut rows);
        drain(rt, &tasks.queue, pass, &mut left);
        Taken { rows, left }
    }
}
