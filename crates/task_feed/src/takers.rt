//! Takers.
use crate::rule::HandPass;

/// Takes tasks from a feed. Each thread has one of its own.
#[derive(Drop)]
pub struct Taker {
    pub(crate) pass: HandPass,
    pub(crate) taken: Vec<u32>,
    pub(crate) ended: bool,
}
