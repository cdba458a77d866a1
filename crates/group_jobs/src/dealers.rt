//! Where the tasks of a worker come from.
ghost use Rattle.std.specs.Prelude.{◌≡◌, ◌≤◌, ◌<◌, ◌++◌, ℕ, List, All, IfNone, option_to_list};
ghost use Rattle.task_feed.specs.Dealt.{IsAscending};
ghost use Rattle.task_feed.specs.Takers.{IsTakerOf};

use std::sync::Wait;
use task_feed::{Feed, Taker};

/// Deals tasks to a worker, by their numbers.
pub(crate) trait Dealing {
    // the type of what is dealt, and how
    ghost Deal: { Type 0 };

    // what is dealt, and how
    ghost deal: { Self → Deal };

    // how many tasks there are
    ghost count: { Deal → ℕ };

    // the tasks that were dealt to the worker so far, in order
    ghost dealt: { Self → List ℕ };

    // whether no task comes any more
    ghost ended: { Self → Type 0 };

    /// The next task of the worker, if one is left for it.
    fn next<R: Wait>(&mut self, rt: &R) -> Option<usize>
        ensures deal { deal self.new ≡ deal self.old }
        ensures dealt { dealt self.new ≡ dealt self.old ++ option_to_list result }
        ensures ended { IfNone result (ended self.new) };

    // the worker's tasks are some of them, in ascending order
    ghost in_order: { (s : Self) → IsAscending (dealt s) × All (λ task. task < count (deal s)) (dealt s) };
}

/// The fixed share of a worker, numbered from 0: each task goes to the worker that its number leaves as a remainder.
#[derive(Drop)]
pub(crate) struct FixedShare {
    pub(crate) tasks: usize,
    pub(crate) workers: usize,
    pub(crate) worker: usize,
    pub(crate) next: usize,
    pub ghost some: { 1 ≤ workers },
    pub ghost within: { next ≤ tasks },
}

impl Dealing for FixedShare {
    ghost use Rattle.task_feed.specs.Shares.{share_of};
    ghost use Rattle.task_feed.proofs.Shares.{share_in_order};

    ghost Deal = { ℕ × ℕ × ℕ };

    ghost deal = { λ s. (s.tasks, s.workers, s.worker) };

    ghost count = { λ d. d.0 };

    ghost dealt = { λ s. share_of s.next s.workers s.worker };

    ghost ended = { λ s. s.next ≡ s.tasks };

    fn next<R: Wait>(&mut self, _rt: &R) -> Option<usize> {
        'tasks: while self.next < self.tasks {
            let task = self.next;
            self.next += 1;
            if task % self.workers == self.worker {
                return Some(task);
            }
        }
        None
    }

    ghost in_order = { λ s. share_in_order s.next s.tasks s.workers s.worker s.within };
}

/// A taker with its feed.
#[derive(Drop)]
pub(crate) struct Taking<'f> {
    pub(crate) feed: &'f Feed,
    pub(crate) taker: Taker,
    pub ghost made: { IsTakerOf feed.now taker },
}

impl<'f> Dealing for Taking<'f> {
    ghost use Rattle.std.specs.Prelude.{true};
    ghost use Rattle.task_feed.specs.declared.feed.Feed.{Feed};
    ghost use Rattle.task_feed.specs.Takers.{has_ended, row_of, tasks_of};

    ghost Deal = { Feed };

    ghost deal = { λ s. s.feed.now };

    ghost count = { tasks_of };

    ghost dealt = { λ s. row_of s.taker };

    ghost ended = { λ s. has_ended s.taker ≡ true };

    fn next<R: Wait>(&mut self, rt: &R) -> Option<usize> {
        match self.taker.take(rt, self.feed) {
            Some(task) => Some(task as usize),
            None => None,
        }
    }

    ghost in_order = { λ s. (s.made.ascending, s.made.within) };
}
