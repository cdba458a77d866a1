//! Words that are too long to be counted.
ghost use Rattle.std.specs.Prelude.{◌≡◌, ◌≤◌, length, is_some, IfSome};
ghost use Rattle.std.specs.List.{list_any, position, slice_split};
ghost use Rattle.yak_model.specs.Texts.{words_of};
ghost use Rattle.group_jobs.specs.Tasks.{is_feed};
ghost use Rattle.group_jobs.specs.LongWords.{is_long, long_word_line};

use crate::words::TextWords;
use object_layout::WORD_LIMIT;
use yak_io::INPUT_LIMIT;

/// Whether a text has a word of more than `WORD_LIMIT` bytes.
fn has_long_word(bytes: &[u8]) -> bool
    ensures { result ≡ Rattle.group_jobs.specs.LongWords.has_long_word bytes.now }
{
    let mut words = TextWords::of(bytes);
    'words: while let Some(word) = words.next() {
        if word.len() > WORD_LIMIT as usize {
            return true;
        }
    }
    false
}

/// How many lines stand before the first line that has a word of more than `WORD_LIMIT` bytes.
fn lines_before(bytes: &[u8]) -> Option<usize>
    requires short { length bytes.now ≤ INPUT_LIMIT }
    ensures place { result ≡ position Rattle.group_jobs.specs.LongWords.has_long_word (slice_split is_feed bytes.now) }
    ensures bound { IfSome result (λ before. before ≤ length bytes.now) }
{
    bytes.split(|byte| *byte == b'\n').position(has_long_word)
}

/// The line, from 1, of the first word of more than `WORD_LIMIT` bytes.
#[tactic(auto, using(crate::proofs::LongLines::some_long, crate::proofs::LongLines::line_of_place))]
pub fn long_word(bytes: &[u8]) -> Option<u32>
    requires short { length bytes.now ≤ INPUT_LIMIT }
    ensures line { result ≡ long_word_line bytes.now }
    ensures found { is_some result ≡ list_any is_long (words_of bytes.now) }
{
    let before = lines_before(bytes)?;
    Some(before as u32 + 1)
}
