//! Names of objects, which moving doesn't change.

ghost use Rattle.std.specs.Prelude.{◌≡◌, MatchOption};
ghost use Rattle.object_layout.specs.Layout.{IsName, name_word, name_of};
ghost use Rattle.object_layout.specs.declared.names.Name.{Name};

use crate::{MAX_THREADS, NAME_UNIT};

/// Who made an object, and as which of its objects, from 1. The root object is thread 0, serial 0.
#[derive(Clone, Copy, Debug, PartialEq, Eq, Drop)]
pub struct Name {
    pub thread: u8,
    pub serial: u64,
}

/// The word of a name. `docs/FORMAT.md` has the table.
pub fn encode_name(name: Name) -> u64
    requires { IsName name }
    ensures word { result ≡ name_word name }
    ensures read_back { name_of result ≡ Some name }
{
    name.thread as u64 * NAME_UNIT + name.serial
}

/// The name of a word, or `None` outside the layout.
pub fn decode_name(word: u64) -> Option<Name>
    ensures name { result ≡ name_of word }
    ensures some { MatchOption result ((n : Name) → IsName n → name_word n ≡ word → ⊥) (λ n. IsName n × (name_word n ≡ word)) }
{
    let thread = word / NAME_UNIT;
    let serial = word % NAME_UNIT;
    if thread > MAX_THREADS as u64 {
        None
    } else if (thread == 0) == (serial == 0) {
        Some(Name {
            thread: thread as u8,
            serial,
        })
    } else {
        None
    }
}
