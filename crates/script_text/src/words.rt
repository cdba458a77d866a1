//! The words of a line.
ghost use Rattle.std.specs.Prelude.{◌≡◌, ◌∷◌, ℕ, [], List, MatchOption, IfSome, length, ◌<◌};
ghost use Rattle.script_text.specs.Words.{words, pieces};

use std::marker::Model;

/// Whether a byte parts words: a space or a tab.
fn is_blank(byte: u8) -> bool
    ensures { result ≡ Rattle.script_text.specs.Words.is_blank byte }
{
    byte == b' ' || byte == b'\t'
}

/// The bytes before the first blank, and those after it.
fn cut(bytes: &[u8]) -> Option<(&[u8], &[u8])>
    ensures pieces { MatchOption result (pieces bytes.now ≡ bytes.now ∷ []) (λ parts. pieces bytes.now ≡ parts.0.now ∷ pieces parts.1.now) }
    ensures shorter { IfSome result (λ parts. length parts.1.now < length bytes.now) }
{
    for (i, byte) in bytes.iter().enumerate() {
        if is_blank(*byte) {
            return Some((&bytes[..i], &bytes[i + 1..]));
        }
    }
    None
}

/// The words of a line that are still to come.
#[derive(Drop)]
pub struct LineWords<'a> {
    rest: &'a [u8],
}

impl<'a> Model for LineWords<'a> {
    ghost Value = { List (List ℕ) };

    ghost view = { λ s. words s.rest.now };
}

impl<'a> LineWords<'a> {
    /// All the words of a line.
    pub fn of(line: &'a [u8]) -> LineWords<'a>
        ensures { result ≡ words line.now }
    {
        LineWords { rest: line }
    }

    /// The text of the words that are still to come.
    pub fn rest(&self) -> &'a [u8]
        ensures { words result.now ≡ self.now }
    {
        self.rest
    }

    /// The next word.
    pub fn next(&mut self) -> Option<&'a [u8]>
        ensures { MatchOption result ((self.old ≡ []) × (self.new ≡ [])) (λ word. self.old ≡ word.now ∷ self.new) }
    {
        'blanks: while let Some((word, after)) = cut(self.rest) {
            self.rest = after;
            if !word.is_empty() {
                return Some(word);
            }
        }
        let word = self.rest;
        if word.is_empty() {
            return None;
        }
        self.rest = &[];
        Some(word)
    }
}
