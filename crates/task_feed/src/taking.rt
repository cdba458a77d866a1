//! Taking tasks.
ghost use Rattle.std.specs.Prelude.{◌≡◌, ◌<◌, ◌++◌, true, false, None, All, IfNone, IfSome, option_to_list};
ghost use Rattle.std.specs.Option.{is_some};
ghost use Rattle.task_feed.specs.Takers.{IsTakerOf, has_ended, row_of, tasks_of};

use crate::feed::Feed;
use crate::rule::Takes;
use crate::takers::Taker;
use std::sync::Wait;

impl Taker {
    /// Takes the next task. None comes only where no task was left in the queue at a moment of this call, and since none is put
    /// later, all tasks were taken then.
    pub fn take<R: Wait>(&mut self, rt: &R, feed: &Feed) -> Option<u32>
        requires made { IsTakerOf feed.now self.old }
        ensures made { IsTakerOf feed.now self.new }
        ensures row { row_of self.new ≡ row_of self.old ++ option_to_list result }
        ensures some { IfSome result (λ task. (task < tasks_of feed.now) × All (λ earlier. earlier < task) (row_of self.old) × (has_ended self.new ≡ false)) }
        ensures none { IfNone result (has_ended self.new ≡ true) }
        ensures stays { has_ended self.old ≡ true → result ≡ None }
    {
        if self.ended {
            return None;
        }
        match feed.tasks.queue.pop_as::<Takes, R>(rt, &mut self.pass) {
            Some(Some(task)) => {
                self.taken.push_reserved(task);
                Some(task)
            }
            Some(None) => {
                self.ended = true;
                None
            }
            None => unreachable!(),
        }
    }

    /// The tasks that this taker took, in order.
    pub fn taken(&self) -> &[u32]
        ensures { result.now ≡ row_of self.now }
    {
        &self.taken
    }
}
