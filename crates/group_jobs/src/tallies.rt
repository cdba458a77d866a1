//! Counting the words of texts in tables of a heap, by whatever caller.
ghost use Rattle.std.specs.Prelude.{◌≡◌, ◌≢◌, ℕ, ◌+◌, ◌*◌, ◌-◌, ◌≤◌, ◌<◌, ◌∷◌, ◌++◌, [], List, true, false, cond, ◌||◌, length, OnErr, OnOk, IfOk};
ghost use Rattle.std.specs.List.{All};
ghost use Rattle.object_layout.specs.declared.names.Name.{Name};
ghost use Rattle.object_layout.specs.declared.TheConstants.{WORD_LIMIT};
ghost use Rattle.yak_model.specs.Private.{KnownObjects};
ghost use Rattle.yak_model.specs.Room.{entry_words, key_words, table_words};
ghost use Rattle.yak_model.specs.Standing.{Standing};
ghost use Rattle.yak_model.specs.Texts.{words_of};
ghost use Rattle.heap_tables.specs.declared.TheConstants.{MOST_MADE};
ghost use Rattle.heap_tables.specs.Runs.{KeepsKnown, KnowsSome, next_of, stack_in};
ghost use Rattle.heap_tables.specs.Epochs.{GrowsBy, Went};
ghost use Rattle.group_jobs.specs.Epochs.{HaltsWithin, IsHalted, IsOneEpoch, IsWithin, MakesEpochs};
ghost use Rattle.group_jobs.specs.Goings.{WentOut};
ghost use Rattle.group_jobs.specs.Tallies.{AreShort, CountsEpoch, HasProgress, HasTallies, HasTally, IsProgress, KeepsPlace, KnowsPart, KnowsProgress, KnowsTallies, KnowsTally, Tallies, Tally, AreWithin, is_busy, new_total, part_room, task_room, tasks_room, words_in, words_room};
ghost use Rattle.group_jobs.specs.Tasks.{task_bytes};
ghost use Rattle.group_jobs.specs.declared.TheConstants.{MOST_WORDS, OBJECTS_FOR_WORD, PART_SLOT, TOTAL_SLOT};

use crate::tasks::Task;
use crate::words::TextWords;
use crate::{PART_SLOT, TOTAL_SLOT};
use heap_tables::{Notes, add, begin, end, make, merge_noting, pop};
use object_layout::OutOfHeap;
use yak_model::Caller;

/// Counts a word in the table of a part.
fn count_word<C: Caller>(caller: &mut C, word: &[u8]) -> Result<(), OutOfHeap>
    requires tables { HasTallies (C.standing caller.old) (C.knows caller.old) 1 }
    requires word { length word.now ≤ WORD_LIMIT }
    requires names { (C.standing caller.old).own.made ≤ MOST_MADE }
    requires slots { length (stack_in (C.standing caller.old)) ≡ PART_SLOT + 1 }
    ensures went { OnOk result (Went C.base C.tells C.tells_known C.standing caller.old caller.new (key_words word.now + entry_words)) }
    ensures place { OnOk result (KeepsPlace (C.standing caller.old).own (C.standing caller.new).own 2) }
    ensures list { GrowsBy IsWithin (C.standing caller.old).list (C.standing caller.new).list }
    ensures counted { OnOk result ((known : KnownObjects) (name : Name) (done doing : List (List ℕ)) → C.knows caller.old known → Tallies (C.standing caller.old) known name done doing → length done + (length doing + 1) ≤ MOST_WORDS → KnowsTallies (C.standing caller.old) known (C.standing caller.new) (C.knows caller.new) name done (doing ++ word.now ∷ [])) }
    ensures out { OnErr result (WentOut C.base C.tells C.tells_known C.standing caller.old caller.new (C.standing caller.old).own.depth (key_words word.now + entry_words)) }
{
    add(caller, PART_SLOT, word, 1)
}

/// Counts the words of a text in the table of a part.
fn count_words<C: Caller>(caller: &mut C, bytes: &[u8]) -> Result<(), OutOfHeap>
    requires tables { HasTallies (C.standing caller.old) (C.knows caller.old) (length (words_of bytes.now)) }
    requires short { AreShort (words_of bytes.now) }
    requires names { (C.standing caller.old).own.made + 2 * length (words_of bytes.now) ≤ MOST_MADE }
    requires slots { length (stack_in (C.standing caller.old)) ≡ PART_SLOT + 1 }
    ensures went { OnOk result (Went C.base C.tells C.tells_known C.standing caller.old caller.new (part_room (words_of bytes.now))) }
    ensures place { OnOk result (KeepsPlace (C.standing caller.old).own (C.standing caller.new).own (2 * length (words_of bytes.now))) }
    ensures list { GrowsBy IsWithin (C.standing caller.old).list (C.standing caller.new).list }
    ensures counted { OnOk result ((known : KnownObjects) (name : Name) (done doing : List (List ℕ)) → C.knows caller.old known → Tallies (C.standing caller.old) known name done doing → length done + (length doing + length (words_of bytes.now)) ≤ MOST_WORDS → KnowsTallies (C.standing caller.old) known (C.standing caller.new) (C.knows caller.new) name done (doing ++ words_of bytes.now)) }
    ensures out { OnErr result (WentOut C.base C.tells C.tells_known C.standing caller.old caller.new (C.standing caller.old).own.depth (part_room (words_of bytes.now))) }
{
    let mut words = TextWords::of(bytes);
    'words: while let Some(word) = words.next() {
        count_word(caller, word)?;
    }
    Ok(())
}

/// Pushes a table for a part.
fn open_part<C: Caller>(caller: &mut C) -> Result<(), OutOfHeap>
    requires table { HasTally (C.standing caller.old) (C.knows caller.old) 0 }
    requires names { (C.standing caller.old).own.made ≤ MOST_MADE }
    requires slots { length (stack_in (C.standing caller.old)) ≡ PART_SLOT }
    ensures went { OnOk result (Went C.base C.tells C.tells_known C.standing caller.old caller.new table_words) }
    ensures slots { OnOk result (length (stack_in (C.standing caller.new)) ≡ PART_SLOT + 1) }
    ensures depth { OnOk result ((C.standing caller.new).own.depth ≡ (C.standing caller.old).own.depth) }
    ensures made { OnOk result ((C.standing caller.new).own.made ≡ (C.standing caller.old).own.made + 1) }
    ensures list { GrowsBy IsWithin (C.standing caller.old).list (C.standing caller.new).list }
    ensures opened { OnOk result ((known : KnownObjects) (done : List (List ℕ)) → C.knows caller.old known → Tally (C.standing caller.old) known done → KnowsTallies (C.standing caller.old) known (C.standing caller.new) (C.knows caller.new) (next_of (C.standing caller.old)) done []) }
    ensures out { OnErr result (WentOut C.base C.tells C.tells_known C.standing caller.old caller.new (C.standing caller.old).own.depth table_words) }
{
    make(caller)
}

/// Adds the counts of a part to those of the total, and drops the part's table.
fn close_part<C: Caller>(caller: &mut C, notes: &mut Notes) -> Result<(), OutOfHeap>
    requires tables { HasTallies (C.standing caller.old) (C.knows caller.old) 0 }
    requires names { (C.standing caller.old).own.made ≤ MOST_MADE }
    requires slots { length (stack_in (C.standing caller.old)) ≡ PART_SLOT + 1 }
    ensures slots { OnOk result (length (stack_in (C.standing caller.new)) ≡ PART_SLOT) }
    ensures depth { OnOk result ((C.standing caller.new).own.depth ≡ (C.standing caller.old).own.depth) }
    ensures list { GrowsBy IsWithin (C.standing caller.old).list (C.standing caller.new).list }
    ensures closed { OnOk result ((known : KnownObjects) (name : Name) (done doing : List (List ℕ)) → C.knows caller.old known → Tallies (C.standing caller.old) known name done doing → length done + length doing ≤ MOST_WORDS → KnowsPart (C.standing caller.old) known (C.standing caller.new) (C.knows caller.new) name (done ++ doing) doing × Went C.base C.tells C.tells_known C.standing caller.old caller.new (entry_words * length doing) × ((C.standing caller.new).own.made ≤ (C.standing caller.old).own.made + length doing)) }
    ensures out { OnErr result ((known : KnownObjects) (name : Name) (done doing : List (List ℕ)) → C.knows caller.old known → Tallies (C.standing caller.old) known name done doing → length done + length doing ≤ MOST_WORDS → WentOut C.base C.tells C.tells_known C.standing caller.old caller.new (C.standing caller.old).own.depth (entry_words * length doing)) }
{
    merge_noting(caller, PART_SLOT, TOTAL_SLOT, notes)?;
    pop(caller);
    Ok(())
}

/// Counts the words of a task in a table of its own, and adds the counts to those of the total.
fn count_part<C: Caller>(caller: &mut C, notes: &mut Notes, bytes: &[u8]) -> Result<(), OutOfHeap>
    requires table { HasTally (C.standing caller.old) (C.knows caller.old) (length (words_of bytes.now)) }
    requires short { AreShort (words_of bytes.now) }
    requires names { (C.standing caller.old).own.made + (3 * length (words_of bytes.now) + 1) ≤ MOST_MADE }
    requires slots { length (stack_in (C.standing caller.old)) ≡ PART_SLOT }
    ensures went { OnOk result (Went C.base C.tells C.tells_known C.standing caller.old caller.new (table_words + words_room (words_of bytes.now))) }
    ensures slots { OnOk result (length (stack_in (C.standing caller.new)) ≡ PART_SLOT) }
    ensures depth { OnOk result ((C.standing caller.new).own.depth ≡ (C.standing caller.old).own.depth) }
    ensures made { OnOk result ((C.standing caller.new).own.made ≤ (C.standing caller.old).own.made + (3 * length (words_of bytes.now) + 1)) }
    ensures list { GrowsBy IsWithin (C.standing caller.old).list (C.standing caller.new).list }
    ensures counted { OnOk result ((known : KnownObjects) (done : List (List ℕ)) → C.knows caller.old known → Tally (C.standing caller.old) known done → length done + length (words_of bytes.now) ≤ MOST_WORDS → KnowsPart (C.standing caller.old) known (C.standing caller.new) (C.knows caller.new) (next_of (C.standing caller.old)) (done ++ words_of bytes.now) (words_of bytes.now)) }
    ensures out { OnErr result (WentOut C.base C.tells C.tells_known C.standing caller.old caller.new (C.standing caller.old).own.depth (table_words + words_room (words_of bytes.now))) }
{
    open_part(caller)?;
    count_words(caller, bytes)?;
    close_part(caller, notes)
}

/// Counts the words of a task, in an epoch of its own.
fn count_epoch<C: Caller>(caller: &mut C, notes: &mut Notes, bytes: &[u8]) -> Result<(), OutOfHeap>
    requires table { HasTally (C.standing caller.old) (C.knows caller.old) (length (words_of bytes.now)) }
    requires short { AreShort (words_of bytes.now) }
    requires outside { (C.standing caller.old).own.depth ≡ 0 }
    requires names { (C.standing caller.old).own.made + (3 * length (words_of bytes.now) + 1) ≤ MOST_MADE }
    requires slots { length (stack_in (C.standing caller.old)) ≡ PART_SLOT }
    ensures went { OnOk result (Went C.base C.tells C.tells_known C.standing caller.old caller.new (table_words + words_room (words_of bytes.now))) }
    ensures slots { OnOk result (length (stack_in (C.standing caller.new)) ≡ PART_SLOT) }
    ensures depth { OnOk result ((C.standing caller.new).own.depth ≡ 0) }
    ensures made { OnOk result ((C.standing caller.new).own.made ≤ (C.standing caller.old).own.made + (3 * length (words_of bytes.now) + 1)) }
    ensures list { OnOk result (GrowsBy (IsOneEpoch (C.standing caller.old).thread) (C.standing caller.old).list (C.standing caller.new).list) }
    ensures halted { OnErr result (GrowsBy (IsHalted (C.standing caller.old).thread) (C.standing caller.old).list (C.standing caller.new).list) }
    ensures counted { OnOk result ((known : KnownObjects) (done : List (List ℕ)) → C.knows caller.old known → Tally (C.standing caller.old) known done → length done + length (words_of bytes.now) ≤ MOST_WORDS → KnowsPart (C.standing caller.old) known (C.standing caller.new) (C.knows caller.new) (next_of (C.standing caller.old)) (done ++ words_of bytes.now) (words_of bytes.now)) }
    ensures out { OnErr result (WentOut C.base C.tells C.tells_known C.standing caller.old caller.new 1 (table_words + words_room (words_of bytes.now))) }
{
    begin(caller);
    count_part(caller, notes, bytes)?;
    end(caller);
    Ok(())
}

/// Begins an epoch and ends it, for a task without words.
fn pass_epoch<C: Caller>(caller: &mut C)
    requires some { KnowsSome (C.knows caller.old) }
    requires outside { (C.standing caller.old).own.depth ≡ 0 }
    ensures went { Went C.base C.tells C.tells_known C.standing caller.old caller.new 0 }
    ensures keeps { KeepsKnown (C.knows caller.old) (C.knows caller.new) }
    ensures own { (C.standing caller.new).own ≡ (C.standing caller.old).own }
    ensures list { GrowsBy (IsOneEpoch (C.standing caller.old).thread) (C.standing caller.old).list (C.standing caller.new).list }
{
    begin(caller);
    end(caller);
}

/// Pushes the table of the total, where it isn't there yet.
fn open_total<C: Caller>(caller: &mut C, has_total: bool) -> Result<(), OutOfHeap>
    requires progress { HasProgress has_total (C.standing caller.old) (C.knows caller.old) 0 }
    requires names { (C.standing caller.old).own.made ≤ MOST_MADE }
    ensures went { OnOk result (Went C.base C.tells C.tells_known C.standing caller.old caller.new (cond has_total 0 table_words)) }
    ensures slots { OnOk result (length (stack_in (C.standing caller.new)) ≡ PART_SLOT) }
    ensures depth { OnOk result ((C.standing caller.new).own.depth ≡ (C.standing caller.old).own.depth) }
    ensures made { OnOk result ((C.standing caller.new).own.made ≤ (C.standing caller.old).own.made + 1) }
    ensures list { GrowsBy IsWithin (C.standing caller.old).list (C.standing caller.new).list }
    ensures opened { OnOk result ((known : KnownObjects) (done : List (List ℕ)) → C.knows caller.old known → IsProgress has_total (C.standing caller.old) known done → KnowsTally (C.standing caller.old) known (C.standing caller.new) (C.knows caller.new) done) }
    ensures out { OnErr result (WentOut C.base C.tells C.tells_known C.standing caller.old caller.new (C.standing caller.old).own.depth (cond has_total 0 table_words)) }
{
    if has_total {
        return Ok(());
    }
    make(caller)
}

/// Whether a text has words.
fn has_words(bytes: &[u8]) -> bool
    ensures { result ≡ is_busy (words_of bytes.now) }
{
    let mut words = TextWords::of(bytes);
    words.next().is_some()
}

/// Counts the words of a task, and tells whether there is a table of the total then.
pub(crate) fn count_task<C: Caller>(
    caller: &mut C,
    has_total: bool,
    notes: &mut Notes,
    bytes: &[u8],
) -> Result<bool, OutOfHeap>
    requires progress { HasProgress has_total (C.standing caller.old) (C.knows caller.old) (length (words_of bytes.now)) }
    requires short { AreShort (words_of bytes.now) }
    requires outside { (C.standing caller.old).own.depth ≡ 0 }
    requires names { (C.standing caller.old).own.made + OBJECTS_FOR_WORD * length (words_of bytes.now) ≤ MOST_MADE }
    ensures went { IfOk result (λ has. Went C.base C.tells C.tells_known C.standing caller.old caller.new (new_total has_total has + task_room (words_of bytes.now))) }
    ensures depth { OnOk result ((C.standing caller.new).own.depth ≡ 0) }
    ensures made { OnOk result ((C.standing caller.new).own.made ≤ (C.standing caller.old).own.made + OBJECTS_FOR_WORD * length (words_of bytes.now)) }
    ensures has { IfOk result (λ has. has ≡ (has_total || is_busy (words_of bytes.now))) }
    ensures counted { IfOk result (λ has. (known : KnownObjects) (done : List (List ℕ)) → C.knows caller.old known → IsProgress has_total (C.standing caller.old) known done → length done + length (words_of bytes.now) ≤ MOST_WORDS → KnowsProgress has (C.standing caller.old) known (C.standing caller.new) (C.knows caller.new) (done ++ words_of bytes.now)) }
    ensures epoch { OnOk result (CountsEpoch C.standing C.knows caller.old caller.new (words_of bytes.now)) }
    ensures halted { OnErr result (GrowsBy (IsHalted (C.standing caller.old).thread) (C.standing caller.old).list (C.standing caller.new).list) }
    ensures out { OnErr result (WentOut C.base C.tells C.tells_known C.standing caller.old caller.new 1 (new_total has_total true + task_room (words_of bytes.now))) }
    ensures busy { OnErr result (words_of bytes.now ≢ []) }
{
    if !has_words(bytes) {
        pass_epoch(caller);
        return Ok(has_total);
    }
    open_total(caller, has_total)?;
    count_epoch(caller, notes, bytes)?;
    Ok(true)
}

/// Counts the words of the tasks of a text, and tells whether there is a table of the total then. There is one exactly where there
/// are words.
pub(crate) fn count_tasks<C: Caller>(
    caller: &mut C,
    notes: &mut Notes,
    bytes: &[u8],
    tasks: &[Task],
) -> Result<bool, OutOfHeap>
    requires opened { HasProgress false (C.standing caller.old) (C.knows caller.old) (length (words_in bytes.now tasks.now)) }
    requires within { AreWithin bytes.now tasks.now }
    requires short { AreShort (words_in bytes.now tasks.now) }
    requires outside { (C.standing caller.old).own.depth ≡ 0 }
    requires names { (C.standing caller.old).own.made + OBJECTS_FOR_WORD * length (words_in bytes.now tasks.now) ≤ MOST_MADE }
    ensures went { OnOk result (Went C.base C.tells C.tells_known C.standing caller.old caller.new (table_words + tasks_room bytes.now tasks.now)) }
    ensures depth { OnOk result ((C.standing caller.new).own.depth ≡ 0) }
    ensures has { IfOk result (λ has. has ≡ is_busy (words_in bytes.now tasks.now)) }
    ensures counted { IfOk result (λ has. (known : KnownObjects) → C.knows caller.old known → KnowsProgress has (C.standing caller.old) known (C.standing caller.new) (C.knows caller.new) (words_in bytes.now tasks.now)) }
    ensures epochs { OnOk result (GrowsBy (MakesEpochs (C.standing caller.old).thread (length tasks.now)) (C.standing caller.old).list (C.standing caller.new).list) }
    ensures halted { OnErr result (GrowsBy (HaltsWithin (C.standing caller.old).thread (length tasks.now)) (C.standing caller.old).list (C.standing caller.new).list) }
    ensures out { OnErr result (WentOut C.base C.tells C.tells_known C.standing caller.old caller.new 1 (table_words + tasks_room bytes.now tasks.now)) }
    ensures busy { OnErr result (words_in bytes.now tasks.now ≢ []) }
{
    let mut has_total = false;
    'tasks: for task in tasks {
        has_total = count_task(
            caller,
            has_total,
            notes,
            &bytes[task.start as usize..task.end as usize],
        )?;
    }
    Ok(has_total)
}
