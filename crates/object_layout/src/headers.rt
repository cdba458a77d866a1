//! The first word of an object.

ghost use Rattle.std.specs.Prelude.{◌≡◌, ◌≤◌, ◌+◌, ◌*◌, ℕ, MatchOption};
ghost use Rattle.object_layout.specs.Layout.{IsHeader, header_word, header_of};
ghost use Rattle.object_layout.specs.declared.headers.Header.{Header};

use crate::{HEADER_BASE, MAX_FIELDS, MAX_SPACE, SPACE_UNIT};

/// How many fields an object has, and the index of its space.
#[derive(Clone, Copy, Debug, PartialEq, Eq, Drop)]
pub struct Header {
    /// At most `MAX_FIELDS`.
    pub fields: u16,
    /// At most `MAX_SPACE`.
    pub space: u8,
}

/// The word of a header. `docs/FORMAT.md` has the table.
pub fn encode_header(header: Header) -> u64
    requires { IsHeader header }
    ensures word { result ≡ header_word header }
    ensures read_back { header_of result ≡ Some header }
{
    HEADER_BASE + SPACE_UNIT * header.space as u64 + header.fields as u64
}

/// The header of a word, or `None` outside the layout.
pub fn decode_header(word: u64) -> Option<Header>
    ensures header { result ≡ header_of word }
    ensures some { MatchOption result ((h : Header) → IsHeader h → header_word h ≡ word → ⊥) (λ h. IsHeader h × (header_word h ≡ word)) }
{
    if word < HEADER_BASE || word >= HEADER_BASE + SPACE_UNIT * (MAX_SPACE as u64 + 1) {
        return None;
    }
    let rest = word - HEADER_BASE;
    let fields = rest % SPACE_UNIT;
    if fields > MAX_FIELDS as u64 {
        None
    } else {
        Some(Header {
            fields: fields as u16,
            space: (rest / SPACE_UNIT) as u8,
        })
    }
}

/// The number of fields that a header's word tells, and 0 for a word outside the layout.
pub fn field_count(word: u64) -> usize
    ensures fields { (fields space : ℕ) → fields ≤ MAX_FIELDS → space ≤ MAX_SPACE → word ≡ HEADER_BASE + SPACE_UNIT * space + fields → result ≡ fields }
    ensures most { result ≤ MAX_FIELDS }
{
    match decode_header(word) {
        Some(header) => header.fields as usize,
        None => 0,
    }
}
