//! The next line of each thread.
ghost use Rattle.std.specs.Prelude.{◌≡◌, ◌≢◌, ◌<◌, ◌≤◌, ◌+◌, ℕ, [], IfOk, IfSome, IfNone, drop, length, slice_index};
ghost use Rattle.trace_check.specs.Cursors.{IsNextPlace, PointAtNext, line_at};
ghost use Rattle.trace_check.specs.Traces.{own};

use object_layout::NoMemory;
use script_text::Line;
use std::alloc::Global;

/// The place of the first line of a thread from a place on, or the end of the lines.
pub(crate) fn next_place(lines: &[Line], thread: u8, from: usize) -> usize
    requires { from ≤ length lines.now }
    ensures next { IsNextPlace lines.now thread result }
    ensures same { own thread (drop result lines.now) ≡ own thread (drop from lines.now) }
{
    let mut place = from;
    while place < lines.len() && lines[place].thread != thread {
        place += 1;
    }
    place
}

/// The place of the first line of each of so many threads.
pub(crate) fn first_places(
    alloc: Global,
    lines: &[Line],
    threads: u8,
) -> Result<Vec<usize>, NoMemory>
    ensures { IfOk result (λ cursors. PointAtNext lines.now threads [] cursors.items) }
{
    let mut cursors = Vec::new(alloc);
    for i in 0..threads {
        let place = next_place(lines, i + 1, 0);
        cursors.push(place).map_err(|_| NoMemory)?;
    }
    Ok(cursors)
}

/// Which of the cursors points at the line of a number, the first one being 0.
pub(crate) fn cursor_at(lines: &[Line], cursors: &[usize], number: u32) -> Option<usize>
    ensures place { IfSome result (λ i. i < length cursors.now) }
    ensures within { IfSome result (λ i. slice_index cursors.now i < length lines.now) }
    ensures number { IfSome result (λ i. (line_at lines.now (slice_index cursors.now i)).number ≡ number) }
    ensures none { IfNone result ((i : ℕ) → i < length cursors.now → slice_index cursors.now i < length lines.now → (line_at lines.now (slice_index cursors.now i)).number ≢ number) }
{
    for (i, place) in cursors.iter().enumerate() {
        let place = *place;
        if place < lines.len() && lines[place].number == number {
            return Some(i);
        }
    }
    None
}
