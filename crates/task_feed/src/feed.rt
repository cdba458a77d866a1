//! Feeds.
ghost use Rattle.std.specs.Prelude.{◌≡◌, ◌≤◌, []};
ghost use Rattle.std.specs.Vec.{vec_capacity};

use crate::rule::Queue;
use std::marker::Model;

/// The queue of a feed, filled, with the numbers of its tasks and of its takers.
#[derive(Drop)]
pub struct TaskQueue {
    pub(crate) queue: Queue,
    pub(crate) tasks: u32,
    pub(crate) takers: u8,
}

/// Tasks that takers take from a shared queue, each once.
#[derive(Drop)]
pub struct Feed {
    pub(crate) tasks: TaskQueue,
    pub(crate) rows: Vec<Vec<u32>>,
    pub(crate) left: Vec<u32>,
    ghost some_taker: { 1 ≤ tasks.takers },
    ghost no_rows: { rows.items ≡ [] },
    ghost rows_room: { tasks.takers ≤ vec_capacity rows },
    ghost none_left: { left.items ≡ [] },
    ghost left_room: { tasks.tasks ≤ vec_capacity left },
}

/// Which tasks each taker took, by the number of the taker and in order, and which nobody took.
#[derive(Drop)]
pub struct Taken {
    pub rows: Vec<Vec<u32>>,
    pub left: Vec<u32>,
}

impl Model for Taken {
    ghost use Rattle.task_feed.specs.FeedContents.{FeedContents, lists_in};

    ghost Value = { FeedContents };

    ghost view = { λ s. record { rows = lists_in s.rows.items; left = s.left.items } };
}
