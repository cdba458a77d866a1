//! What the page table tells.
ghost use Rattle.std.specs.Prelude.{◌≡◌, ◌<◌, ◌≤◌, ℕ};
ghost use Rattle.heap_words.specs.Map.{page_words};
ghost use Rattle.heap_words.specs.Contents.{contents, Sound};
ghost use Rattle.yak_model.specs.Placed.{used_mark};
ghost use Rattle.heap_core.specs.Callers.{words_used};
ghost use Rattle.heap_picture.specs.Pages.{owner_of};

use epoch_lattice::{Space, space_at};
use heap_words::{Areas, Words, get_page};
use region_pages::USED_MARK;

/// The space that a page's entry in the page table tells by this word, and `None` for a free page.
pub fn owner_of(word: u64) -> Option<Space>
    ensures { result ≡ owner_of word }
{
    if word == 0 {
        return None;
    }
    match u8::try_from(word - 1) {
        Ok(index) => space_at(index),
        Err(_) => None,
    }
}

/// The words in use in all pages.
pub fn words_used<W: Words>(words: &mut W, map: Areas) -> u64
    requires sound { Sound map (W.words words.old) }
    requires marks { (p : ℕ) → p < map.pages → used_mark (contents map (W.words words.old)).table p ≤ page_words map }
    ensures used { result ≡ words_used (contents map (W.words words.old)).table }
    ensures words { W.words words.new ≡ W.words words.old }
    ensures base { W.base words.new ≡ W.base words.old }
{
    let mut used = 0;
    for page in 0..map.pages {
        used += get_page(words, map, page, USED_MARK);
    }
    used
}
