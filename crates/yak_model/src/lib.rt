//! What a heap means: objects in a graph, objects in spaces, and the histories of calls on them, with plain machines that
//! compute each step.
#![tactic(auto)]

pub mod caller;
pub mod datum;
pub mod graph;
pub mod history;
mod homes;
pub mod laws;
pub mod space_state;
mod spaces;
#[cfg(test)]
mod tests;

pub use caller::Caller;
pub use datum::Datum;
pub use graph::{GraphState, ObjectMap};
pub use history::Entry;
pub use space_state::SpaceState;

/// The most words that the objects of a heap take: each fits a page, and there are the root and what each thread made.
pub const MOST_WORDS: u64 = 576460752303421696;
/// The fields of the root object.
pub const ROOT_FIELDS: usize = 16;
/// The fields of a count table: its buckets, each null or the first entry of a chain.
pub const BUCKETS: usize = 128;
/// The fields of an entry of a count table: the next entry or null, the key and the count.
pub const ENTRY_FIELDS: usize = 3;
/// The bytes of a group in a key.
pub const GROUP_BYTES: usize = 7;
/// How many values a byte has.
pub const BYTE_VALUES: u64 = 256;
/// What the bucket of a word is multiplied by at each byte.
pub const HASH_FACTOR: u64 = 31;
