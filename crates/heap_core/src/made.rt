//! The words of a heap that has just been made.

ghost use Rattle.std.specs.Prelude.{◌≡◌, ◌≤◌, ◌<◌, ◌+◌, ◌-◌, ◌*◌, ℕ, List, [], ◌∷◌, replicate, length, IfOk, MatchResult};
ghost use Rattle.heap_words.specs.Map.{IsAreas, HasThread, total_of};
ghost use Rattle.heap_words.specs.Contents.{contents, Sound};
ghost use Rattle.yak_model.specs.Graph.{standard_limits};
ghost use Rattle.yak_model.specs.Spaces.{opening_spaces};
ghost use Rattle.heap_core.specs.Opening.{Counts, IsOpened};
ghost use Rattle.yak_model.specs.Recorded.{StandsRecorded};

use heap_words::{Areas, Words, set_current, set_head, set_heap, set_page, set_pool};
use object_layout::{Addr, Header, OBJECT_WORDS, Value, encode_header, encode_value};
use region_pages::{POOL_LENGTH, SPACE_WORD, USED_MARK};
use thread_stacks::push;
use yak_model::ROOT_FIELDS;

/// Puts the pages from 1 on into the pool.
fn fill_pool<W: Words>(words: &mut W, map: Areas)
    requires sound { Sound map (W.words words.old) }
    ensures others { contents map (W.words words.new) ≡ (let c = contents map (W.words words.old) in record c { pool = (contents map (W.words words.new)).pool }) }
    ensures counts { Counts (map.pages - 1) (contents map (W.words words.new)).pool }
    ensures sound { Sound map (W.words words.new) }
    ensures base { W.base words.new ≡ W.base words.old }
{
    for page in 1..map.pages {
        set_pool(words, map, page as usize - 1, page as u64);
    }
}

/// Lets each stack refer to the root.
fn push_roots<W: Words>(words: &mut W, map: Areas)
    requires sound { Sound map (W.words words.old) }
    requires empty { (contents map (W.words words.old)).stacks ≡ replicate map.threads [] }
    ensures pushed { contents map (W.words words.new) ≡ (let c = contents map (W.words words.old) in record c { stacks = replicate map.threads (2 ∷ []) }) }
    ensures sound { Sound map (W.words words.new) }
    ensures base { W.base words.new ≡ W.base words.old }
{
    let root = encode_value(Value::Ref(Addr(0)));
    for thread in 1..=map.threads {
        let _ = push(words, map, thread, root);
    }
}

/// Makes words that are all 0 stand for the opening state.
pub fn open_words<W: Words>(words: &mut W, map: Areas)
    requires areas { IsAreas map }
    requires zero { W.words words.old ≡ replicate (total_of map) 0 }
    ensures stands { StandsRecorded map (contents map (W.words words.new)) (opening_spaces standard_limits map.threads) }
    ensures opened { IsOpened map (contents map (W.words words.new)) }
    ensures sound { Sound map (W.words words.new) }
    ensures base { W.base words.new ≡ W.base words.old }
{
    set_head(words, map, POOL_LENGTH, map.pages as u64 - 1);
    set_page(words, map, 0, SPACE_WORD, 1);
    let root_words = OBJECT_WORDS as u64 + ROOT_FIELDS as u64;
    set_page(words, map, 0, USED_MARK, root_words);
    set_current(words, map, 1, 0, 1);
    let header = encode_header(Header {
        fields: ROOT_FIELDS as u16,
        space: 0,
    });
    set_heap(words, map, 0, header);
    fill_pool(words, map);
    push_roots(words, map);
}
