//! The picture of a heap.
ghost use Rattle.std.specs.Prelude.{◌≡◌, ◌<◌, ◌≤◌, ◌++◌, ℕ, OnOk, IfOk, IfSome};
ghost use Rattle.std.specs.List.{flat_map, range_with_len};
ghost use Rattle.heap_words.specs.Map.{page_words};
ghost use Rattle.heap_words.specs.Contents.{contents, Sound};
ghost use Rattle.yak_model.specs.Placed.{used_mark};
ghost use Rattle.yak_model.specs.Stands.{PoolStands};
ghost use Rattle.script_runner.specs.Runs.{held_of};
ghost use Rattle.heap_picture.specs.Pictures.{caption_of, heap_picture, page_box, page_text, picture_of};

use crate::boxes::{BASELINE, Caption, GAP, PageBox, PageCounts, box_of, boxes_height, frame_of};
use crate::pages::{owner_of, words_used};
use heap_core::Core;
use heap_words::{Areas, Image, Words, get_page};
use object_layout::NoMemory;
use region_pages::{SPACE_WORD, USED_MARK, census};
use std::alloc::Global;
use std::fmt::Display;

/// Appends a part of a picture.
fn append<P: Display>(alloc: Global, text: &mut Vec<u8>, part: &P) -> Result<(), NoMemory>
    ensures { IfSome (P.output part.now) (λ written. OnOk result (text.new.items ≡ text.old.items ++ written)) }
{
    let Ok(piece) = format!(in alloc; "{part}") else {
        return Err(NoMemory);
    };
    match text.extend_from_slice(piece.as_bytes()) {
        Ok(()) => Ok(()),
        Err(_) => Err(NoMemory),
    }
}

/// The box of a page, as the page table tells the page.
fn read_box<W: Words>(words: &mut W, map: Areas, page: u32) -> PageBox
    requires sound { Sound map (W.words words.old) }
    requires page { page < map.pages }
    requires mark { used_mark (contents map (W.words words.old)).table page ≤ page_words map }
    ensures shown { result ≡ page_box map (contents map (W.words words.old)).table page }
    ensures words { W.words words.new ≡ W.words words.old }
    ensures base { W.base words.new ≡ W.base words.old }
{
    let space = owner_of(get_page(words, map, page, SPACE_WORD));
    let used = get_page(words, map, page, USED_MARK);
    box_of(map, page, space, used)
}

/// Appends the boxes of all pages.
fn append_boxes<W: Words>(
    alloc: Global,
    words: &mut W,
    map: Areas,
    text: &mut Vec<u8>,
) -> Result<(), NoMemory>
    requires sound { Sound map (W.words words.old) }
    requires marks { (p : ℕ) → p < map.pages → used_mark (contents map (W.words words.old)).table p ≤ page_words map }
    ensures appended { OnOk result (text.new.items ≡ text.old.items ++ flat_map (page_text map (contents map (W.words words.old)).table) (range_with_len 0 map.pages)) }
    ensures words { W.words words.new ≡ W.words words.old }
    ensures base { W.base words.new ≡ W.base words.old }
{
    for page in 0..map.pages {
        let shown = read_box(words, map, page);
        append(alloc, text, &shown)?;
    }
    Ok(())
}

/// What stands below the boxes.
fn caption<W: Words>(words: &mut W, map: Areas) -> Caption
    requires sound { Sound map (W.words words.old) }
    requires marks { (p : ℕ) → p < map.pages → used_mark (contents map (W.words words.old)).table p ≤ page_words map }
    requires pool { let c = contents map (W.words words.old) in PoolStands map c.heads c.pool c.table }
    ensures { result ≡ caption_of map (contents map (W.words words.old)).table }
{
    Caption {
        left: GAP,
        baseline: boxes_height(map) + BASELINE,
        counts: PageCounts {
            census: census(words, map),
        },
        used: words_used(words, map),
        all: map.heap_length() as u64,
    }
}

/// The picture of the heap of these words.
fn picture_with<W: Words>(alloc: Global, words: &mut W, map: Areas) -> Result<Vec<u8>, NoMemory>
    requires sound { Sound map (W.words words.old) }
    requires marks { (p : ℕ) → p < map.pages → used_mark (contents map (W.words words.old)).table p ≤ page_words map }
    requires pool { let c = contents map (W.words words.old) in PoolStands map c.heads c.pool c.table }
    ensures { IfOk result (λ text. text.items ≡ picture_of map (contents map (W.words words.old)).table) }
{
    let mut text = Vec::new(alloc);
    append(alloc, &mut text, &frame_of(map))?;
    append_boxes(alloc, words, map, &mut text)?;
    append(alloc, &mut text, &caption(words, map))?;
    Ok(text)
}

/// The picture of a heap.
pub fn picture(alloc: Global, core: Core<Image>) -> Result<Vec<u8>, NoMemory>
    ensures { IfOk result (λ text. text.items ≡ heap_picture (held_of core.map (⟦<Image as Words>⟧.words core.words))) }
{
    let map = Areas {
        pages: core.pages(),
        threads: core.threads(),
    };
    let mut words = core.into_words();
    picture_with(alloc, &mut words, map)
}
