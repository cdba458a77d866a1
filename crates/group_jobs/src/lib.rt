//! The words of a text: the tasks that it is cut into, the words of each, and the list of their counts.
#![tactic(auto)]

mod count;
mod counted;
mod dealers;
mod feeding;
mod followed;
mod laws;
mod long_words;
mod many;
mod pairs;
mod printing;
mod shares;
mod sums;
mod tallies;
mod tasks;
#[cfg(test)]
mod tests;
mod words;

pub use count::{CountError, CountedAlone, count_one, open_heap};
pub use counted::sort_counts;
pub use feeding::{Fed, count_fed};
pub use heap_tables::WordCount;
pub use laws::{
    law_dealt_counts, law_dealt_room, law_dealt_tasks, law_dealt_words, law_one_cut, law_row_more,
    law_row_words,
};
pub use long_words::long_word;
pub use many::{Counts, count_many};
pub use printing::print_counts;
pub use tasks::{Task, cut_tasks};
pub use words::TextWords;

/// The most words of a text: no more than the places before, between and after its bytes.
pub const MOST_WORDS: usize = 16777217;
/// The slot of a caller's stack with the table of all that it counted. Below it is the root.
pub const TOTAL_SLOT: u32 = 1;
/// The slot with the table of the task at hand.
pub const PART_SLOT: u32 = 2;
/// The most objects that are made for a word: a key, two entries, and the tables of its task and its worker.
pub const OBJECTS_FOR_WORD: usize = 5;
/// The thread that counts alone.
pub const WORKER: u8 = 1;
