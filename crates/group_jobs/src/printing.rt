//! The text of counts.
ghost use Rattle.std.specs.Prelude.{◌≡◌, ◌++◌, IfOk, OnOk};
ghost use Rattle.std.specs.List.{flat_map};
ghost use Rattle.group_jobs.specs.Printing.{count_line};

use heap_tables::WordCount;
use object_layout::NoMemory;
use std::alloc::{AllocError, Global};

/// Appends a line: a count, a space and the word.
fn push_line(alloc: Global, text: &mut Vec<u8>, counted: &WordCount) -> Result<(), AllocError>
    ensures { OnOk result (text.new.items ≡ text.old.items ++ count_line counted.now) }
{
    let count = counted.count;
    let number = format!(in alloc; "{count} ")?;
    text.extend_from_slice(number.as_bytes())?;
    text.extend_from_slice(&counted.word)?;
    text.push(b'\n')?;
    Ok(())
}

/// The text of counts, with a line for each.
pub fn print_counts(alloc: Global, list: &[WordCount]) -> Result<Vec<u8>, NoMemory>
    ensures { IfOk result (λ text. text.items ≡ flat_map count_line list.now) }
{
    let mut text = Vec::new(alloc);
    for counted in list {
        if push_line(alloc, &mut text, counted).is_err() {
            return Err(NoMemory);
        }
    }
    Ok(text)
}
