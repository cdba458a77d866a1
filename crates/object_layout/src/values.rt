//! Values of slots and fields, and their words.

ghost use Rattle.std.specs.Prelude.{◌≡◌, ◌≤◌, ◌<◌, ◌+◌, ◌*◌, ◌%◌, ℕ, MatchOption};
ghost use Rattle.object_layout.specs.Layout.{IsValue, value_word, value_of};

use crate::MAX_ADDRESS;

/// The place of an object: the heap word of its header.
#[derive(Clone, Copy, Debug, PartialEq, Eq, Drop)]
pub struct Addr(pub u32);

/// A value of a slot or a field.
#[derive(Clone, Copy, Debug, PartialEq, Eq, Drop)]
pub enum Value {
    Null,
    /// An integer, at most `MAX_INT`.
    Int(u64),
    /// A reference to the object at a place of at most `MAX_ADDRESS`.
    Ref(Addr),
}

/// The word of a value. `docs/FORMAT.md` has the table.
pub fn encode_value(value: Value) -> u64
    requires { IsValue value }
    ensures word { result ≡ value_word value }
    ensures read_back { value_of result ≡ Some value }
{
    match value {
        Value::Null => 0,
        Value::Int(i) => 2 * i + 1,
        Value::Ref(a) => 2 * (a.0 as u64 + 1),
    }
}

/// The value of a word, or `None` outside the layout.
pub fn decode_value(word: u64) -> Option<Value>
    ensures value { result ≡ value_of word }
    ensures some { MatchOption result (2 * (MAX_ADDRESS + 1) < word × (word % 2 ≡ 0)) (λ v. IsValue v × (value_word v ≡ word)) }
{
    if word % 2 == 1 {
        Some(Value::Int(word / 2))
    } else if word == 0 {
        Some(Value::Null)
    } else if word <= 2 * (MAX_ADDRESS as u64 + 1) {
        Some(Value::Ref(Addr((word / 2 - 1) as u32)))
    } else {
        None
    }
}

/// The heap word that a reference's word names, or `None` for any other word.
pub fn address(word: u64) -> Option<usize>
    ensures { MatchOption result ((a : ℕ) → a ≤ MAX_ADDRESS → word ≡ 2 * (a + 1) → ⊥) (λ a. word ≡ 2 * (a + 1)) }
{
    match decode_value(word) {
        Some(Value::Ref(a)) => Some(a.0 as usize),
        _ => None,
    }
}
