//! What collections and the ends of epochs share once a plan of moves is made: references that follow the plan, the page
//! table after a slide, and the records of the moved objects.
#![tactic(auto)]

mod dropping;
mod following;
mod recording;
mod regions;
mod settling;
mod stacks;

pub use dropping::drop_others;
pub use following::follow_moves;
pub use recording::record_moved;
pub use regions::correct_regions;
pub use settling::settle_pages;
pub use stacks::{correct_stack, correct_stacks};

/// The word of the control space in the page table. Those of regions are past it.
const CONTROL_WORD: u64 = 1;
