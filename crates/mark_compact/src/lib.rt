//! The collection of the control space: which of its objects are kept, where a slide puts them, and what follows them.
#![tactic(auto)]

mod collecting;
mod marking;
mod moving;
mod resetting;
mod sliding;

pub use collecting::collect;
pub use marking::mark;
pub use sliding::plan_slide;
