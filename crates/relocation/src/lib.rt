//! The moving of objects: plans of moves, the correcting of references by a plan, and the moves themselves.
//!
//! A plan stands in the scratch area, three words for each move: the old address, the new address and the
//! number of the new space. While it is made, the work word of each object that it moves tells the number of
//! the move, from 1, so that a reference is corrected without a search.
#![tactic(auto)]

mod corrections;
mod fields;
mod moves;
mod pages;
mod plans;
mod slides;
#[cfg(test)]
mod tests;

pub use corrections::correct;
pub use fields::{correct_field, correct_fields, correct_moves};
pub use moves::move_all;
pub use pages::page_start;
pub use plans::{MOVE_WORDS, Move, Plan, add_move, empty_plan, read_move};
pub use slides::{SlideCursor, object_size, plan_pages};
