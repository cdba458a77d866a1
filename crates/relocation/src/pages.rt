//! The pages of a heap.

ghost use Rattle.std.specs.Prelude.{◌≡◌, ◌*◌};
ghost use Rattle.heap_words.specs.Map.{IsAreas, HasPage, page_words};

use heap_words::Areas;

/// The heap word at which a page begins.
pub fn page_start(map: Areas, page: u32) -> usize
    requires areas { IsAreas map }
    requires page { HasPage map page }
    ensures { result ≡ page_words map * page }
{
    map.page_words() as usize * page as usize
}
