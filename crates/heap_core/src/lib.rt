//! All calls on the words of a heap, one at a time.
#![tactic(auto)]

mod barriers;
mod caller;
mod calls;
mod collections;
mod endings;
mod epochs;
mod fields;
mod made;
mod objects;
mod owned;
mod slots;
#[cfg(test)]
mod tests;

pub use caller::{CoreCaller, count_up, words_asked, words_made};
pub use owned::{Core, Stepped};
