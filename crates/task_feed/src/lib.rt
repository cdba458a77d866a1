//! Numbered tasks that are dealt out to threads through one shared queue.
#![tactic(auto)]

mod dealing;
mod feed;
mod hands;
mod laws;
mod rule;
mod takers;
mod taking;
#[cfg(test)]
mod tests;

pub use feed::{Feed, Taken};
pub use laws::{law_fixed_shares, law_row_within, law_share_more, law_sums, law_within};
pub use takers::Taker;
