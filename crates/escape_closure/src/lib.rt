//! The end of a region: the objects that escape from it, and their targets.
#![tactic(auto)]

mod beginning;
mod carrying;
mod clearing;
mod closing;
mod ending;
mod needing;
mod planning;
mod raising;
mod references;
mod refiling;
mod regional;
mod rolling;
mod sources;
mod tight;
mod weighing;

pub use ending::targets;
pub use planning::plan_moves;
pub use regional::end_region;
pub use tight::end_tight;

/// What the work word of an object counts more while it waits on the list.
const WAITING: u64 = 128;
/// Where the work word stands in an object.
const WORK_WORD: usize = 2;
