//! The sums of lines, in a heap of their own.
ghost use Rattle.std.specs.Prelude.{◌≡◌, IfOk, OnOk, []};
ghost use Rattle.heap_words.specs.Map.{IsAreas};
ghost use Rattle.heap_tables.specs.Runs.{KnowsSome};
ghost use Rattle.sums_by_key.specs.Held.{AreListed, AreSummable, HoldsSums, Opened, opening_own};

use crate::TABLE_SLOT;
use crate::lines::Line;
use crate::tables::add_all;
use group_jobs::sort_counts;
use heap_core::{Core, CoreCaller};
use heap_tables::{WordCount, make, read_entries};
use heap_words::{Image, MakeError};
use object_layout::{NoMemory, OutOfHeap};
use std::alloc::Global;
use yak_model::Caller;

/// Why lines weren't summed up.
#[derive(Clone, Copy, Debug, PartialEq, Eq, Drop)]
pub enum SumError {
    /// The heap had no room for a key or for its sum.
    OutOfHeap,
    /// An allocation was refused.
    Memory,
}

impl From<OutOfHeap> for SumError {
    fn from(_: OutOfHeap) -> SumError {
        SumError::OutOfHeap
    }
}

impl From<NoMemory> for SumError {
    fn from(_: NoMemory) -> SumError {
        SumError::Memory
    }
}

/// Pushes a table of no sums.
fn open_table<C: Caller>(caller: &mut C) -> Result<(), OutOfHeap>
    requires some { KnowsSome (C.knows caller.old) }
    requires own { (C.standing caller.old).own ≡ opening_own }
    ensures own { OnOk result (Opened (C.standing caller.new).own) }
    ensures held { OnOk result (HoldsSums (C.standing caller.new) (C.knows caller.new) []) }
{
    make(caller)
}

/// Sums up the numbers of lines by key, in a table of a caller that has made nothing yet.
fn sum_with<C: Caller>(
    alloc: Global,
    caller: &mut C,
    lines: &[Line],
) -> Result<Vec<WordCount>, SumError>
    requires some { KnowsSome (C.knows caller.old) }
    requires own { (C.standing caller.old).own ≡ opening_own }
    requires summable { AreSummable lines.now }
    ensures { IfOk result (λ list. AreListed lines.now list.items) }
{
    open_table(caller)?;
    add_all(caller, lines)?;
    let mut list = read_entries(alloc, caller, TABLE_SLOT)?;
    sort_counts(&mut list);
    Ok(list)
}

/// A caller for the one thread of a new heap of so many pages.
fn open_heap(alloc: Global, pages: u32) -> Result<CoreCaller<Image>, SumError>
    requires pages { IsAreas (record { pages = pages; threads = 1 }) }
    ensures knows { IfOk result (λ caller. KnowsSome (⟦<CoreCaller<Image> as Caller>⟧.knows caller)) }
    ensures own { IfOk result (λ caller. (⟦<CoreCaller<Image> as Caller>⟧.standing caller).own ≡ opening_own) }
{
    match Core::new(alloc, pages, 1) {
        Ok(core) => Ok(core.as_caller(1)),
        Err(MakeError::Memory) => Err(SumError::Memory),
        Err(MakeError::BadConfig) => unreachable!(),
    }
}

/// Sums up the numbers of lines by key, in a heap of so many pages. The keys ascend.
///
/// # Errors
///
/// `OutOfHeap` where the heap had no room for a key or for its sum; `Memory` where an allocation was refused.
pub fn sum_lines(alloc: Global, pages: u32, lines: &[Line]) -> Result<Vec<WordCount>, SumError>
    requires pages { IsAreas (record { pages = pages; threads = 1 }) }
    requires summable { AreSummable lines.now }
    ensures { IfOk result (λ list. AreListed lines.now list.items) }
{
    let mut caller = open_heap(alloc, pages)?;
    sum_with(alloc, &mut caller, lines)
}
