//! The rule of a feed's queue, and what each call on it tells.
use crate::hands::Hand;
use crossbeam_queue::protocol::{Join, Lesson, Outcome, Protocol, Split};
use crossbeam_queue::{Pass, RuledArrayQueue};

/// Each task is in the queue or with one pass, and the tasks leave in ascending order.
pub struct Dealing;

impl Protocol<Option<u32>, Hand> for Dealing {
    ghost use Rattle.std.specs.Prelude.{[]};
    ghost use Rattle.task_feed.specs.Hands.{Deals, hand};

    ghost holds = { Deals };

    ghost first = { hand 1 1 0 0 0 [] };
}

/// A part for a taker, with the sign of the end that waits for it.
pub struct Shares;

impl Split<Hand> for Shares {
    ghost use Rattle.task_feed.specs.Hands.{left_share, right_share};

    ghost left = { left_share };

    ghost right = { right_share };
}

impl Join<Hand> for Shares {
    ghost use Rattle.task_feed.specs.Hands.{idle, together};

    ghost both = { together };

    ghost spent = { idle };
}

/// A task is put behind the others, or the sign of the end behind all tasks.
pub struct Puts;

impl Outcome<Option<u32>, Hand> for Puts {
    ghost use Rattle.task_feed.specs.Hands.{HasPut};

    ghost then = { HasPut };
}

impl Lesson<Option<u32>, Hand> for Puts {
    ghost use Rattle.task_feed.specs.Hands.{HasRoom};

    ghost fact = { HasRoom };
}

/// The next task is taken, or a sign of the end.
pub struct Takes;

impl Outcome<Option<u32>, Hand> for Takes {
    ghost use Rattle.task_feed.specs.Hands.{HasTaken};

    ghost then = { HasTaken };
}

impl Lesson<Option<u32>, Hand> for Takes {
    ghost use Rattle.task_feed.specs.Hands.{HasLeft};

    ghost fact = { HasLeft };
}

/// The queue of a feed: tasks by their numbers, and a `None` for each taker behind all of them.
pub type Queue = RuledArrayQueue<Option<u32>, Hand, Dealing>;

/// What a taker knows of the queue. It has no bytes.
pub type HandPass = Pass<Option<u32>, Hand>;
