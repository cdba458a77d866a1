//! Cutting a text into tasks.
ghost use Rattle.std.specs.Prelude.{◌≡◌, ◌≤◌, ◌<◌, ◌⊎◌, IfOk, length, take, count_by};
ghost use Rattle.std.specs.List.{flat_map};
ghost use Rattle.yak_model.specs.Texts.{words_of};
ghost use Rattle.group_jobs.specs.Tasks.{AreTasks, AreWholeLines, AreFewerLines, task_bytes};

use object_layout::NoMemory;
use std::alloc::Global;
use yak_io::INPUT_LIMIT;

/// The bytes of a text from a place up to another.
#[derive(Clone, Copy, Debug, PartialEq, Eq, Drop)]
pub struct Task {
    pub start: u32,
    pub end: u32,
}

/// How many bytes so many lines take at the front of a text: all where there are fewer lines.
fn size_of_lines(bytes: &[u8], lines: u32) -> usize
    requires some_bytes { 0 < length bytes.now }
    requires some_lines { 1 ≤ lines }
    ensures some { 0 < result }
    ensures within { result ≤ length bytes.now }
    ensures cut { AreWholeLines lines (take result bytes.now) ⊎ ((result ≡ length bytes.now) × AreFewerLines lines bytes.now) }
{
    let mut left = lines;
    for (i, byte) in bytes.iter().enumerate() {
        if *byte == b'\n' {
            left -= 1;
            if left == 0 {
                return i + 1;
            }
        }
    }
    bytes.len()
}

/// Cuts a text into tasks of so many lines. The last task may have fewer lines, and its last line may lack its line feed.
pub fn cut_tasks(alloc: Global, bytes: &[u8], lines: u32) -> Result<Vec<Task>, NoMemory>
    requires short { length bytes.now ≤ INPUT_LIMIT }
    requires some_lines { 1 ≤ lines }
    ensures tasks { IfOk result (λ tasks. AreTasks bytes.now lines tasks.items) }
    ensures words { IfOk result (λ tasks. flat_map (λ task. words_of (task_bytes bytes.now task)) tasks.items ≡ words_of bytes.now) }
{
    let mut tasks = Vec::new(alloc);
    let mut start = 0;
    'tasks: while start < bytes.len() {
        let end = start + size_of_lines(&bytes[start..], lines);
        let task = Task {
            start: start as u32,
            end: end as u32,
        };
        if tasks.push(task).is_err() {
            return Err(NoMemory);
        }
        start = end;
    }
    Ok(tasks)
}
