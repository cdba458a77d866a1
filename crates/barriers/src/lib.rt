//! Loads and stores of fields by a thread that waits for nobody, with what they record of the references that cross into regions.
#![tactic(auto)]

mod fields;
mod places;

pub use fields::{load_barrier, store_barrier};
pub use places::{
    current_place, depth_place, entry_place, length_place, logged_place, made_place, slot_place,
};
