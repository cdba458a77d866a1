//! The map of the words: where each area of a heap's words stands.

ghost use Rattle.std.specs.Prelude.{◌≡◌, ◌≤◌, ◌<◌, ◌+◌, ◌-◌, ◌*◌, ℕ, [], ◌∷◌};
ghost use Rattle.heap_words.specs.Map.{IsAreas, HasThread, HasPage, HasRegion, page_words, max_depth, block_words, heap_length, scratch_length, blocks_at, block_at, table_at, page_at, pool_at, all_readers_at, readers_at, sets_at, scratch_at, heap_at, total_of, Tile, stack_start, buffer_start, chains_start, block_rest};

use crate::{
    BUFFER_ENTRIES, CURRENT_PAGES, HEAD_WORDS, MAX_DEPTH, PAGE_WORDS, REST_WORDS, SCRATCH_MARGIN,
    STACK_SLOTS,
};

/// The map of the words of a heap of these pages and threads.
#[derive(Clone, Copy, Debug, PartialEq, Eq)]
pub struct Areas {
    pub pages: u32,
    pub threads: u8,
}

impl Areas {
    /// The words of a page.
    pub fn page_words(self) -> u32
        ensures { result ≡ page_words self }
    {
        PAGE_WORDS
    }

    /// The greatest depth of a thread.
    pub fn max_depth(self) -> u8
        ensures { result ≡ max_depth self }
    {
        MAX_DEPTH
    }

    /// The words of all pages.
    pub fn heap_length(self) -> usize
        requires { IsAreas self }
        ensures { result ≡ heap_length self }
    {
        self.page_words() as usize * self.pages as usize
    }

    /// Where the stack's slots of a block begin.
    pub(crate) fn stack_start(self) -> usize
        ensures { result ≡ stack_start self }
    {
        CURRENT_PAGES + 1 + self.max_depth() as usize
    }

    /// Where the store buffer's entries of a block begin.
    pub(crate) fn buffer_start(self) -> usize
        ensures { result ≡ buffer_start self }
    {
        self.stack_start() + STACK_SLOTS
    }

    /// Where the heads of the chains of a block begin.
    pub(crate) fn chains_start(self) -> usize
        ensures { result ≡ chains_start self }
    {
        self.buffer_start() + BUFFER_ENTRIES
    }

    /// Where the unused words of a block begin.
    pub(crate) fn block_rest(self) -> usize
        ensures { result ≡ block_rest self }
    {
        self.chains_start() + self.max_depth() as usize
    }

    /// The words of a thread's block.
    fn block_words(self) -> usize
        ensures { result ≡ block_words self }
    {
        self.block_rest() + REST_WORDS
    }

    /// Where a thread's block begins.
    pub fn block(self, thread: u8) -> usize
        requires areas { IsAreas self }
        requires thread { HasThread self thread }
        ensures { result ≡ block_at self thread }
    {
        HEAD_WORDS + self.block_words() * (thread as usize - 1)
    }

    /// Where a page's entry in the page table begins.
    pub fn page(self, page: u32) -> usize
        requires areas { IsAreas self }
        requires page { HasPage self page }
        ensures { result ≡ page_at self page }
    {
        self.table() + 2 * page as usize
    }

    /// Where the page table begins.
    fn table(self) -> usize
        requires { IsAreas self }
        ensures { result ≡ table_at self }
    {
        HEAD_WORDS + self.block_words() * self.threads as usize
    }

    /// Where the pool begins.
    pub fn pool(self) -> usize
        requires { IsAreas self }
        ensures { result ≡ pool_at self }
    {
        self.table() + 2 * self.pages as usize
    }

    /// Where a region's readers word stands.
    pub fn readers(self, thread: u8, depth: u8) -> usize
        requires areas { IsAreas self }
        requires region { HasRegion self thread depth }
        ensures { result ≡ readers_at self thread depth }
    {
        self.pool()
            + self.pages as usize
            + self.max_depth() as usize * (thread as usize - 1)
            + (depth as usize - 1)
    }

    /// Where the words begin that link the recorded slots.
    pub fn sets(self) -> usize
        requires { IsAreas self }
        ensures { result ≡ sets_at self }
    {
        self.pool() + self.pages as usize + self.max_depth() as usize * self.threads as usize
    }

    /// Where the scratch area begins.
    pub fn scratch(self) -> usize
        requires { IsAreas self }
        ensures { result ≡ scratch_at self }
    {
        self.sets() + 2 * self.heap_length()
    }

    /// Where the pages begin.
    pub fn heap(self) -> usize
        requires { IsAreas self }
        ensures { result ≡ heap_at self }
    {
        self.scratch() + self.heap_length() + SCRATCH_MARGIN
    }

    /// The number of words.
    pub fn total(self) -> usize
        requires { IsAreas self }
        ensures { result ≡ total_of self }
    {
        self.heap() + self.heap_length()
    }
}

/// The areas of a map lie end to end and fill the words, as the blocks of the threads fill theirs,
/// the entries of the pages the page table, and the readers words theirs.
pub fn areas_fill(map: Areas)
    requires { IsAreas map }
    ensures areas { Tile ((0, HEAD_WORDS) ∷ (blocks_at map, block_words map * map.threads) ∷ (table_at map, 2 * map.pages) ∷ (pool_at map, map.pages) ∷ (all_readers_at map, max_depth map * map.threads) ∷ (sets_at map, 2 * heap_length map) ∷ (scratch_at map, scratch_length map) ∷ (heap_at map, heap_length map) ∷ []) 0 (total_of map) }
    ensures blocks { (thread : ℕ) → HasThread map thread → (blocks_at map ≤ block_at map thread) × (block_at map thread + block_words map ≤ table_at map) × (block_at map (thread + 1) ≡ block_at map thread + block_words map) }
    ensures pages { (page : ℕ) → HasPage map page → (page_at map page + 2 ≤ pool_at map) × (page_at map (page + 1) ≡ page_at map page + 2) }
    ensures readers { (thread depth : ℕ) → HasRegion map thread depth → (readers_at map thread depth < sets_at map) × (readers_at map (thread + 1) depth ≡ readers_at map thread depth + max_depth map) }
{}
