//! The pages of a heap: which space each belongs to, the pool of free pages, and where objects are placed.
#![tactic(auto)]

mod claim;
mod counts;
mod freeing;
mod placement;

pub use claim::claim_page;
pub use counts::{census, free_count, packed, pages_end, pages_of};
pub use freeing::{rebuild_pool, release_pages, release_space};
pub use placement::place;

/// Where the claim counter stands in the heads.
pub const CLAIM_COUNTER: usize = 1;
/// Where the pool's length stands in the heads.
pub const POOL_LENGTH: usize = 2;
/// Where the word of the space stands in a page's entry: the space's index plus 1, or 0 where the page is free.
pub const SPACE_WORD: usize = 0;
/// Where the used mark stands in a page's entry: how many words of the page are in use.
pub const USED_MARK: usize = 1;
