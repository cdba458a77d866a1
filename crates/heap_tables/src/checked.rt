//! Adding to counts that may grow too large.
ghost use Rattle.std.specs.Prelude.{◌≡◌, ◌↔◌, ◌+◌, ◌<◌, ◌≤◌, true, false, length, OnOk, IsErrOf};
ghost use Rattle.object_layout.specs.declared.TheConstants.{MAX_INT, WORD_LIMIT};
ghost use Rattle.object_layout.specs.declared.names.Name.{Name};
ghost use Rattle.heap_words.specs.declared.TheConstants.{STACK_SLOTS};
ghost use Rattle.yak_model.specs.Private.{KnownObjects};
ghost use Rattle.yak_model.specs.Texts.{WordCounts};
ghost use Rattle.heap_tables.specs.declared.TheConstants.{FREE_SLOTS, MOST_MADE};
ghost use Rattle.heap_tables.specs.declared.checked.AddError.TheVariants as AddError;
ghost use Rattle.heap_tables.specs.Adds.{AddRan, AddRanOut};
ghost use Rattle.heap_tables.specs.Asides.{KnowsWithNext, LacksTable};
ghost use Rattle.heap_tables.specs.Checked.{PassesLimit};
ghost use Rattle.heap_tables.specs.Counted.{HasTableLook, IsCounted, IsUncounted, MayCount, MayLook};
ghost use Rattle.heap_tables.specs.Runs.{Ran, stack_in};

use crate::tables::{add, count_of};
use object_layout::{MAX_INT, OutOfHeap};
use yak_model::Caller;

/// Why nothing was added to a count.
#[derive(Clone, Copy, Debug, PartialEq, Eq, Drop)]
pub enum AddError {
    /// The heap had no room for the word's key or its entry.
    OutOfHeap,
    /// The sum is greater than `MAX_INT`.
    TooLarge,
}

impl From<OutOfHeap> for AddError {
    ghost from_gives = { λ _ e. e ≡ AddError.OutOfHeap };

    fn from(_: OutOfHeap) -> AddError {
        AddError::OutOfHeap
    }
}

/// Whether a count would pass `MAX_INT`.
fn passes_limit(count: u64, n: u64) -> bool
    ensures passes { result ≡ true → MAX_INT < count + n }
    ensures stays { result ≡ false → count + n ≤ MAX_INT }
{
    n > MAX_INT || count > MAX_INT - n
}

/// Adds to the count of a word, like `add`, where the sum is at most `MAX_INT`.
///
/// # Errors
///
/// `TooLarge` where the sum is greater, and `OutOfHeap` where the word is new and the heap has no room for its key or its entry. The
/// table is unchanged then.
pub fn add_checked<C: Caller>(
    caller: &mut C,
    table: u32,
    word: &[u8],
    n: u64,
) -> Result<(), AddError>
    requires table { HasTableLook (C.standing caller.old) (C.knows caller.old) table word.now }
    requires word { length word.now ≤ WORD_LIMIT }
    requires names { (C.standing caller.old).own.made ≤ MOST_MADE }
    requires room { length (stack_in (C.standing caller.old)) + FREE_SLOTS ≤ STACK_SLOTS }
    ensures too_large { (known : KnownObjects) (name : Name) (counts : WordCounts) → C.knows caller.old known → MayLook (C.standing caller.old) known table word.now name counts → IsErrOf result AddError.TooLarge ↔ PassesLimit counts word.now n }
    ensures same { IsErrOf result AddError.TooLarge → Ran C.base C.tells C.tells_known C.standing caller.old caller.new 0 × ((C.standing caller.new).own ≡ (C.standing caller.old).own) }
    ensures keeps { IsErrOf result AddError.TooLarge → (known : KnownObjects) (name : Name) (counts : WordCounts) → C.knows caller.old known → MayLook (C.standing caller.old) known table word.now name counts → C.knows caller.new known }
    ensures apart { IsErrOf result AddError.TooLarge → (known : KnownObjects) (name : Name) (counts : WordCounts) (may : MayLook (C.standing caller.old) known table word.now name counts) (other : KnownObjects) → C.knows caller.old known → C.knows caller.old other → LacksTable other name (may.is_table).buckets → C.knows caller.new other }
    ensures ran { OnOk result (AddRan C.base C.tells C.tells_known C.standing caller.old caller.new word.now) }
    ensures ran_out { IsErrOf result AddError.OutOfHeap → AddRanOut C.base C.tells C.tells_known C.standing caller.old caller.new word.now }
    ensures stack { stack_in (C.standing caller.new) ≡ stack_in (C.standing caller.old) }
    ensures counted { OnOk result ((known : KnownObjects) (name : Name) (counts : WordCounts) (may : MayCount (C.standing caller.old) known table word.now n name counts) → C.knows caller.old known → IsCounted (C.standing caller.old) (C.standing caller.new) known table word.now n name counts may (C.knows caller.new)) }
    ensures kept { IsErrOf result AddError.OutOfHeap → (known : KnownObjects) (name : Name) (counts : WordCounts) (may : MayCount (C.standing caller.old) known table word.now n name counts) → C.knows caller.old known → IsUncounted (C.standing caller.old) known table word.now n name counts may (C.knows caller.new) }
    ensures aside { OnOk result ((known : KnownObjects) (name : Name) (counts : WordCounts) (may : MayCount (C.standing caller.old) known table word.now n name counts) (other : KnownObjects) → C.knows caller.old known → C.knows caller.old other → LacksTable other name (may.is_table).buckets → C.knows caller.new other) }
    ensures left { IsErrOf result AddError.OutOfHeap → (known : KnownObjects) (name : Name) (counts : WordCounts) (may : MayCount (C.standing caller.old) known table word.now n name counts) (other : KnownObjects) → C.knows caller.old known → C.knows caller.old other → LacksTable other name (may.is_table).buckets → KnowsWithNext (C.standing caller.old) other (C.knows caller.new) }
{
    let count = count_of(caller, table, word).unwrap_or(0);
    if passes_limit(count, n) {
        return Err(AddError::TooLarge);
    }
    add(caller, table, word, n)?;
    Ok(())
}
