//! The words of a heap: their map, what they hold area by area, and how they are read and written.
#![tactic(auto)]

mod access;
mod areas;
mod block;
mod counter;
mod map;
mod memory;

pub use access::Words;
pub use areas::{
    get_head, get_heap, get_page, get_pool, get_readers, get_scratch, get_set, set_head, set_heap,
    set_page, set_pool, set_readers, set_scratch, set_set,
};
pub use block::{
    buffer_length, clear_buffer, get_buffer, get_current, get_depth, get_first, get_made, get_rest,
    get_stack, grow_buffer, grow_stack, set_current, set_depth, set_first, set_made, set_stack,
    shrink_stack, stack_length,
};
pub use map::{Areas, areas_fill};
pub use memory::{Image, MakeError};

/// The words of a page.
pub const PAGE_WORDS: u32 = 256;
/// The greatest depth of a thread.
pub const MAX_DEPTH: u8 = 8;
/// The greatest number of pages.
pub const MAX_PAGES: u32 = 4096;
/// The greatest number of threads.
pub const MAX_THREADS: u8 = 8;
/// The words before the first block.
pub const HEAD_WORDS: usize = 8;
/// The slots of a stack.
pub const STACK_SLOTS: usize = 64;
/// The entries of a store buffer.
pub const BUFFER_ENTRIES: usize = 64;
/// The words of a block that have no use.
pub const REST_WORDS: usize = 3;
/// The words of the scratch area besides one for each word of the pages.
pub const SCRATCH_MARGIN: usize = 192;
/// Where the depth stands in a block.
pub const DEPTH_WORD: usize = 0;
/// Where the number of objects made stands in a block.
pub const MADE_WORD: usize = 1;
/// Where the length of the stack stands in a block.
pub const STACK_LENGTH: usize = 2;
/// Where the length of the store buffer stands in a block.
pub const BUFFER_LENGTH: usize = 3;
/// Where the current pages of a block begin: the control page, then the regions' by depth.
pub const CURRENT_PAGES: usize = 4;

#[cfg(test)]
mod tests {
    use super::*;
    use std::test::Fail;

    #[test]
    fn words_are_those_of_the_map(rt: HostRuntime) -> Result<(), Fail> {
        let mut image = match Image::new(rt.alloc(), 4, 1) {
            Ok(image) => image,
            Err(error) => panic!(rt; "no heap: {error}"),
        };
        let map = image.map();
        assert_eq!(rt; map.total(), 4468);
        set_heap(&mut image, map, 1023, 7);
        assert_eq!(rt; get_heap(&mut image, map, 1023), 7);
        assert_eq!(rt; image.reads(), 1);
        grow_stack(&mut image, map, 1, 0, 3);
        set_stack(&mut image, map, 1, 0, 5);
        assert_eq!(rt; get_stack(&mut image, map, 1, 0), 5);
        assert_eq!(rt; get_rest(&mut image, map, 1, 0), 0);
        let greatest = Areas {
            pages: MAX_PAGES,
            threads: MAX_THREADS,
        };
        assert_eq!(rt; greatest.total(), 4208072);
        Ok(())
    }
}
