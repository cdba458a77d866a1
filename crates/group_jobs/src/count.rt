//! A count by one worker.
ghost use Rattle.std.specs.Prelude.{◌≡◌, ◌≤◌, ◌+◌, ◌*◌, ℕ, List, Bool, Some, false, length, IfOk, IfErr};
ghost use Rattle.std.specs.FinMap as finite;
ghost use Rattle.object_layout.specs.declared.replies.Census.{Census};
ghost use Rattle.yak_model.specs.Private.{KnownObjects};
ghost use Rattle.yak_model.specs.Room.{root_words};
ghost use Rattle.heap_core.specs.Callers.{FillsPages};
ghost use Rattle.group_jobs.specs.Tallies.{IsProgress};
ghost use Rattle.group_jobs.specs.declared.count.CountError.TheVariants as CountError;
ghost use Rattle.group_jobs.specs.declared.TheConstants.{WORKER};
ghost use Rattle.heap_words.specs.Contents.{contents};
ghost use Rattle.heap_words.specs.Map.{IsAreas, page_words};
ghost use Rattle.yak_model.specs.Texts.{counts_of, words_of};
ghost use Rattle.group_jobs.specs.Alone.{HasListed, HasRoot, HoldsCounts, IsListed, TellsWhy, opening_known, opening_standing};
ghost use Rattle.group_jobs.specs.LongWords.{has_long_word};
ghost use Rattle.yak_model.specs.Room.{least_room};
ghost use Rattle.yak_io.specs.declared.TheConstants.{INPUT_LIMIT};

use crate::counted::sort_counts;
use crate::tallies::count_tasks;
use crate::tasks::{Task, cut_tasks};
use crate::{TOTAL_SLOT, WORKER};
use heap_core::{Core, CoreCaller};
use heap_tables::{Notes, WordCount, read_entries};
use heap_words::{Image, MakeError, Words};
use object_layout::{Census, NoMemory};
use std::alloc::Global;
use yak_io::INPUT_LIMIT;
use yak_model::Caller;

/// The counts of a text by one worker, and the heap as the last task left it.
#[derive(Drop)]
pub struct CountedAlone {
    pub list: Vec<WordCount>,
    pub core: Core<Image>,
}

/// Why a text wasn't counted.
#[derive(Drop)]
pub enum CountError<H> {
    /// There was no room for an object: the pages at that call, and the heap.
    OutOfHeap(Census, H),
    Memory,
}

impl<H> From<NoMemory> for CountError<H> {
    ghost from_gives = { λ _ e. e ≡ CountError.Memory };

    fn from(_: NoMemory) -> CountError<H> {
        CountError::Memory
    }
}

/// A heap of so many pages in which one worker counts.
pub fn open_heap(alloc: Global, pages: u32) -> Result<CoreCaller<Image>, NoMemory>
    requires pages { IsAreas (record { pages = pages; threads = 1 }) }
    ensures map { IfOk result (λ caller. caller.core.map ≡ record { pages = pages; threads = 1 }) }
    ensures standing { IfOk result (λ caller. ⟦<CoreCaller<Image> as Caller>⟧.standing caller ≡ opening_standing) }
    ensures knows { IfOk result (λ caller. ⟦<CoreCaller<Image> as Caller>⟧.knows caller finite.empty) }
    ensures root { IfOk result (λ caller. ⟦<CoreCaller<Image> as Caller>⟧.knows caller opening_known) }
    ensures present { IfOk result (λ caller. caller.present ≡ root_words) }
    ensures made { IfOk result (λ caller. caller.made ≡ 0) }
{
    match Core::new(alloc, pages, 1) {
        Ok(core) => Ok(core.as_caller(WORKER)),
        Err(MakeError::Memory) => Err(NoMemory),
        Err(MakeError::BadConfig) => unreachable!(),
    }
}

/// Why the last call of a caller was refused, if it was for want of room.
fn why_refused(caller: CoreCaller<Image>) -> CountError<()>
    ensures why { (census : Census) (depth asked : ℕ) → caller.last ≡ Some (census, depth, asked) → (result ≡ CountError.OutOfHeap census tt) × FillsPages caller.core.map (caller.present + caller.made) depth }
{
    let full = caller.full();
    let _core = caller.into_core();
    match full {
        Some((census, _, _)) => CountError::OutOfHeap(census, ()),
        None => CountError::Memory,
    }
}

/// The list of the counts in the table of the total, if there is one.
fn list_counts(
    alloc: Global,
    caller: &mut CoreCaller<Image>,
    has_total: bool,
) -> Result<Vec<WordCount>, NoMemory>
    requires progress { HasListed has_total (⟦<CoreCaller<Image> as Caller>⟧.standing caller.old) (⟦<CoreCaller<Image> as Caller>⟧.knows caller.old) }
    ensures own { (⟦<CoreCaller<Image> as Caller>⟧.standing caller.new).own ≡ (⟦<CoreCaller<Image> as Caller>⟧.standing caller.old).own }
    ensures thread { (⟦<CoreCaller<Image> as Caller>⟧.standing caller.new).thread ≡ (⟦<CoreCaller<Image> as Caller>⟧.standing caller.old).thread }
    ensures base { ⟦<CoreCaller<Image> as Caller>⟧.base caller.new ≡ ⟦<CoreCaller<Image> as Caller>⟧.base caller.old }
    ensures kept { (known : KnownObjects) (done : List (List ℕ)) → ⟦<CoreCaller<Image> as Caller>⟧.knows caller.old known → IsListed has_total (⟦<CoreCaller<Image> as Caller>⟧.standing caller.old) known done → ⟦<CoreCaller<Image> as Caller>⟧.knows caller.new known }
    ensures list { IfOk result (λ list. (known : KnownObjects) (done : List (List ℕ)) → ⟦<CoreCaller<Image> as Caller>⟧.knows caller.old known → IsListed has_total (⟦<CoreCaller<Image> as Caller>⟧.standing caller.old) known done → list.items ≡ counts_of done) }
{
    if !has_total {
        return Ok(Vec::new(alloc));
    }
    let mut list = read_entries(alloc, caller, TOTAL_SLOT)?;
    sort_counts(&mut list);
    Ok(list)
}

/// The heap of a caller that has counted.
fn close_heap(caller: CoreCaller<Image>) -> Core<Image>
    requires thread { caller.thread ≡ WORKER }
    requires one { caller.core.map.threads ≡ 1 }
    requires areas { IsAreas caller.core.map }
    ensures map { result.map ≡ caller.core.map }
    ensures holds { (has : Bool) (known : KnownObjects) (done : List (List ℕ)) → ⟦<CoreCaller<Image> as Caller>⟧.knows caller known → IsProgress has (⟦<CoreCaller<Image> as Caller>⟧.standing caller) known done → HasRoot (⟦<CoreCaller<Image> as Caller>⟧.standing caller) known → (⟦<CoreCaller<Image> as Caller>⟧.standing caller).own.depth ≡ 0 → HoldsCounts result.map (contents result.map (⟦<Image as Words>⟧.words result.words)) done }
{
    caller.into_core()
}

/// Counts the words of a text in a heap of so many pages, by one worker, in tasks of so many lines.
///
/// # Errors
///
/// `OutOfHeap` where the heap had no room for an object, with the pages at that call; `Memory` where an allocation was refused.
pub fn count_one(
    alloc: Global,
    pages: u32,
    lines: u32,
    bytes: &[u8],
) -> Result<CountedAlone, CountError<()>>
    requires pages { IsAreas (record { pages = pages; threads = 1 }) }
    requires some_lines { 1 ≤ lines }
    requires short { length bytes.now ≤ INPUT_LIMIT }
    requires words { has_long_word bytes.now ≡ false }
    ensures list { IfOk result (λ counted. counted.list.items ≡ counts_of (words_of bytes.now)) }
    ensures map { IfOk result (λ counted. counted.core.map ≡ record { pages = pages; threads = 1 }) }
    ensures heap { IfOk result (λ counted. HoldsCounts counted.core.map (contents counted.core.map (⟦<Image as Words>⟧.words counted.core.words)) (words_of bytes.now)) }
    ensures room { IfOk result (λ _. least_room (words_of bytes.now) ≤ page_words (record { pages = pages; threads = 1 }) * pages) }
    ensures why { IfErr result (λ error. TellsWhy (record { pages = pages; threads = 1 }) lines bytes.now error) }
{
    let Ok(tasks) = cut_tasks(alloc, bytes, lines) else {
        return Err(CountError::Memory);
    };
    let Ok(mut caller) = open_heap(alloc, pages) else {
        return Err(CountError::Memory);
    };
    let mut notes = Notes::new(alloc);
    let Ok(has_total) = count_tasks(&mut caller, &mut notes, bytes, &tasks) else {
        return Err(why_refused(caller));
    };
    let Ok(list) = list_counts(alloc, &mut caller, has_total) else {
        return Err(CountError::Memory);
    };
    let core = close_heap(caller);
    Ok(CountedAlone { list, core })
}
