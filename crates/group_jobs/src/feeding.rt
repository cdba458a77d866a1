//! A count by several workers that take the tasks from a shared queue.
ghost use Rattle.std.specs.Prelude.{◌≡◌, ◌≤◌, ◌*◌, ℕ, List, [], IfOk, IfErr, false, length};
ghost use Rattle.heap_words.specs.Map.{IsAreas, page_words};
ghost use Rattle.yak_model.specs.Room.{least_room};
ghost use Rattle.yak_model.specs.Texts.{counts_of, words_of};
ghost use Rattle.task_feed.specs.FeedContents.{lists_in};
ghost use Rattle.task_feed.specs.Dealt.{IsDealt};
ghost use Rattle.group_jobs.specs.LongWords.{has_long_word};
ghost use Rattle.group_jobs.specs.Shared.{IsCountedFed, TellsWhyShared};
ghost use Rattle.group_jobs.specs.Tasks.{AreTasks};
ghost use Rattle.group_jobs.specs.declared.tasks.Task.{Task};
ghost use Rattle.yak_io.specs.declared.TheConstants.{INPUT_LIMIT};

use crate::count::CountError;
use crate::many::{Counts, Opened, close_team, open_team, sum_up};
use crate::pairs::feed_team;
use heap_tables::WordCount;
use safepoint_gate::Finished;
use std::alloc::Global;
use std::sync::Wait;
use std::thread::Threads;
use task_feed::Feed;
use yak_io::Brake;

/// The counts of a text by several workers, the numbers of the tasks that each of them took, and the heap as they left it.
#[derive(Drop)]
pub struct Fed {
    pub list: Vec<WordCount>,
    pub taken: Vec<Vec<u32>>,
    pub finished: Finished,
}

/// Counts the words of a text in a heap of so many pages, by several workers, each in a thread of its own, in tasks of so many lines
/// that the workers take from a shared queue. Before each task that a worker has taken the brake is asked, while its thread rests.
///
/// # Errors
///
/// `OutOfHeap` where the heap had no room for an object, with the pages at that call and the heap as all workers left it; `Memory`
/// where an allocation was refused.
pub fn count_fed<R: Threads + Wait + Sync, B: Brake + Sync>(
    rt: &R,
    alloc: Global,
    pages: u32,
    workers: u8,
    lines: u32,
    bytes: &[u8],
    brake: &B,
) -> Result<Fed, CountError<Finished>>
    requires size { IsAreas (record { pages = pages; threads = workers }) }
    requires some_lines { 1 ≤ lines }
    requires short { length bytes.now ≤ INPUT_LIMIT }
    requires words { has_long_word bytes.now ≡ false }
    ensures list { IfOk result (λ fed. fed.list.items ≡ counts_of (words_of bytes.now)) }
    ensures dealt { IfOk result (λ fed. (tasks : List Task) → AreTasks bytes.now lines tasks → IsDealt (length tasks) (lists_in fed.taken.items) []) }
    ensures counted { IfOk result (λ fed. IsCountedFed (record { pages = pages; threads = workers }) lines bytes.now (lists_in fed.taken.items) fed.finished.seat.me.0) }
    ensures room { IfOk result (λ _. least_room (words_of bytes.now) ≤ page_words (record { pages = pages; threads = workers }) * pages) }
    ensures why { IfErr result (λ error. TellsWhyShared (record { pages = pages; threads = workers }) lines bytes.now error) }
{
    let Ok(opened) = open_team(alloc, pages, workers, lines, bytes) else {
        return Err(CountError::Memory);
    };
    let Opened {
        tasks,
        heap,
        team,
        back,
    } = opened;
    let Ok((feed, takers)) = Feed::new(rt, alloc, tasks.len() as u32, workers) else {
        return Err(CountError::Memory);
    };
    let fed = feed_team(rt, alloc, &heap, bytes, &tasks, feed, takers, team, brake);
    let Ok((mut team, taken)) = fed else {
        return Err(CountError::Memory);
    };
    let counted = sum_up(rt, alloc, &heap, team.as_mut_slice());
    match close_team(heap, team, back, counted) {
        Ok(Counts { list, finished }) => Ok(Fed {
            list,
            taken: taken.rows,
            finished,
        }),
        Err(error) => Err(error),
    }
}
