//! The words of a text, one after the other.
ghost use Rattle.std.specs.Prelude.{◌≡◌, ◌∷◌, ℕ, [], List, MatchOption, IfSome, length, ◌<◌};
ghost use Rattle.yak_model.specs.Texts.{words_of};
ghost use Rattle.group_jobs.specs.Pieces.{pieces};

use std::marker::Model;

/// Whether a byte parts words: a space, a tab, a line feed or a carriage return.
fn parts_words(byte: u8) -> bool
    ensures { result ≡ Rattle.yak_model.specs.Texts.parts_words byte }
{
    byte == b' ' || byte == b'\t' || byte == b'\n' || byte == b'\r'
}

/// The bytes before the first byte that parts words, and those after it.
fn cut(bytes: &[u8]) -> Option<(&[u8], &[u8])>
    ensures pieces { MatchOption result (pieces bytes.now ≡ bytes.now ∷ []) (λ parts. pieces bytes.now ≡ parts.0.now ∷ pieces parts.1.now) }
    ensures shorter { IfSome result (λ parts. length parts.1.now < length bytes.now) }
{
    for (i, byte) in bytes.iter().enumerate() {
        if parts_words(*byte) {
            return Some((&bytes[..i], &bytes[i + 1..]));
        }
    }
    None
}

/// The words of a text that are still to come: the longest runs of bytes that part no words.
#[derive(Drop)]
pub struct TextWords<'a> {
    rest: &'a [u8],
}

impl<'a> Model for TextWords<'a> {
    ghost Value = { List (List ℕ) };

    ghost view = { λ s. words_of s.rest.now };
}

impl<'a> TextWords<'a> {
    /// All the words of a text.
    pub fn of(bytes: &'a [u8]) -> TextWords<'a>
        ensures { result ≡ words_of bytes.now }
    {
        TextWords { rest: bytes }
    }

    /// The next word.
    pub fn next(&mut self) -> Option<&'a [u8]>
        ensures value { MatchOption result ((self.old ≡ []) × (self.new ≡ [])) (λ word. self.old ≡ word.now ∷ self.new) }
        ensures some { IfSome result (λ word. 0 < length word.now) }
    {
        'blanks: while let Some((word, after)) = cut(self.rest) {
            self.rest = after;
            if !word.is_empty() {
                return Some(word);
            }
        }
        let word = self.rest;
        if word.is_empty() {
            return None;
        }
        self.rest = &[];
        Some(word)
    }
}
