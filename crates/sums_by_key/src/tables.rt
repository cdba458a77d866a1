//! Sums in a table of a heap, by whatever caller.
ghost use Rattle.std.specs.Prelude.{◌≡◌, ◌+◌, ◌*◌, ◌≤◌, ◌++◌, ◌∷◌, [], ℕ, List, length, OnOk};
ghost use Rattle.object_layout.specs.declared.TheConstants.{MAX_INT, WORD_LIMIT};
ghost use Rattle.yak_model.specs.Private.{KnownObjects};
ghost use Rattle.heap_tables.specs.Runs.{stack_in};
ghost use Rattle.heap_tables.specs.declared.TheConstants.{MOST_MADE};
ghost use Rattle.sums_by_key.specs.Held.{AreSummable, HoldsSums};
ghost use Rattle.sums_by_key.specs.declared.lines.Line.{Line};

use crate::lines::Line;
use crate::{LINES, TABLE_SLOT};
use heap_tables::{add, begin, end};
use object_layout::OutOfHeap;
use yak_model::Caller;

/// Adds the number of a line to the sum of its key.
fn add_line<C: Caller>(caller: &mut C, line: Line) -> Result<(), OutOfHeap>
    requires held { (done : List Line) × HoldsSums (C.standing caller.old) (C.knows caller.old) done × AreSummable (done ++ line ∷ []) }
    requires word { length line.key.now ≤ WORD_LIMIT }
    requires names { (C.standing caller.old).own.made ≤ MOST_MADE }
    requires slots { length (stack_in (C.standing caller.old)) ≡ TABLE_SLOT + 1 }
    ensures slots { OnOk result (length (stack_in (C.standing caller.new)) ≡ TABLE_SLOT + 1) }
    ensures depth { OnOk result ((C.standing caller.new).own.depth ≡ (C.standing caller.old).own.depth) }
    ensures made { OnOk result ((C.standing caller.new).own.made ≤ (C.standing caller.old).own.made + 2) }
    ensures added { OnOk result ((done : List Line) → HoldsSums (C.standing caller.old) (C.knows caller.old) done → AreSummable (done ++ line.entry ∷ []) → HoldsSums (C.standing caller.new) (C.knows caller.new) (done ++ line.entry ∷ [])) }
{
    add(caller, TABLE_SLOT, line.key, line.number)
}

/// Adds the numbers of lines to the sums of their keys.
fn add_lines<C: Caller>(caller: &mut C, lines: &[Line]) -> Result<(), OutOfHeap>
    requires held { (done : List Line) × HoldsSums (C.standing caller.old) (C.knows caller.old) done × AreSummable (done ++ lines.now) }
    requires names { (C.standing caller.old).own.made + 2 * length lines.now ≤ MOST_MADE }
    requires slots { length (stack_in (C.standing caller.old)) ≡ TABLE_SLOT + 1 }
    ensures slots { OnOk result (length (stack_in (C.standing caller.new)) ≡ TABLE_SLOT + 1) }
    ensures depth { OnOk result ((C.standing caller.new).own.depth ≡ (C.standing caller.old).own.depth) }
    ensures made { OnOk result ((C.standing caller.new).own.made ≤ (C.standing caller.old).own.made + 2 * length lines.now) }
    ensures added { OnOk result ((done : List Line) → HoldsSums (C.standing caller.old) (C.knows caller.old) done → AreSummable (done ++ lines.now) → HoldsSums (C.standing caller.new) (C.knows caller.new) (done ++ lines.now)) }
{
    'lines: for line in lines {
        add_line(caller, *line)?;
    }
    Ok(())
}

/// Adds the numbers of lines to the sums of their keys, in an epoch of its own.
fn add_epoch<C: Caller>(caller: &mut C, lines: &[Line]) -> Result<(), OutOfHeap>
    requires held { (done : List Line) × HoldsSums (C.standing caller.old) (C.knows caller.old) done × AreSummable (done ++ lines.now) }
    requires names { (C.standing caller.old).own.made + 2 * length lines.now ≤ MOST_MADE }
    requires slots { length (stack_in (C.standing caller.old)) ≡ TABLE_SLOT + 1 }
    requires outside { (C.standing caller.old).own.depth ≡ 0 }
    ensures slots { OnOk result (length (stack_in (C.standing caller.new)) ≡ TABLE_SLOT + 1) }
    ensures depth { OnOk result ((C.standing caller.new).own.depth ≡ 0) }
    ensures made { OnOk result ((C.standing caller.new).own.made ≤ (C.standing caller.old).own.made + 2 * length lines.now) }
    ensures added { OnOk result ((done : List Line) → HoldsSums (C.standing caller.old) (C.knows caller.old) done → AreSummable (done ++ lines.now) → HoldsSums (C.standing caller.new) (C.knows caller.new) (done ++ lines.now)) }
{
    begin(caller);
    add_lines(caller, lines)?;
    end(caller);
    Ok(())
}

/// Adds the numbers of lines to the sums of their keys, with an epoch for every so many lines.
pub(crate) fn add_all<C: Caller>(caller: &mut C, lines: &[Line]) -> Result<(), OutOfHeap>
    requires held { HoldsSums (C.standing caller.old) (C.knows caller.old) [] }
    requires summable { AreSummable lines.now }
    requires names { (C.standing caller.old).own.made + 2 * length lines.now ≤ MOST_MADE }
    requires slots { length (stack_in (C.standing caller.old)) ≡ TABLE_SLOT + 1 }
    requires outside { (C.standing caller.old).own.depth ≡ 0 }
    ensures slots { OnOk result (length (stack_in (C.standing caller.new)) ≡ TABLE_SLOT + 1) }
    ensures depth { OnOk result ((C.standing caller.new).own.depth ≡ 0) }
    ensures added { OnOk result (HoldsSums (C.standing caller.new) (C.knows caller.new) lines.now) }
{
    let mut start = 0;
    'epochs: while start < lines.len() {
        let end = lines.len().min(start + LINES);
        add_epoch(caller, &lines[start..end])?;
        start = end;
    }
    Ok(())
}
