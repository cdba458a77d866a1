//! The text of numbers.
ghost use Rattle.std.specs.Prelude.{◌≡◌, ◌≤◌, ◌<◌, ◌^◌, ℕ, Some, decimal, IfSome, MatchBool, MatchOption};
ghost use Rattle.script_text.specs.Digits.{BeginsPlainly};
ghost use Rattle.script_text.specs.Faults.{IsOther};

/// Whether a text begins with no sign that std reads, and with no needless zero.
fn begins_plainly(text: &[u8]) -> bool
    ensures { MatchBool result (BeginsPlainly text.now) (BeginsPlainly text.now → ⊥) }
{
    match text.first() {
        Some(b'+') => false,
        Some(b'0') => text.len() == 1,
        _ => true,
    }
}

/// The number whose decimal digits these are.
fn parsed(text: &[u8]) -> Option<u64>
    ensures digits { IfSome result (λ n. text.now ≡ decimal n) }
    ensures every { (n : ℕ) → n < 2 ^ 64 → text.now ≡ decimal n → result ≡ Some n }
{
    if !begins_plainly(text) {
        return None;
    }
    match str::from_utf8(text) {
        Ok(digits) => digits.parse().ok(),
        Err(_) => None,
    }
}

/// The number from `least` to `most` whose decimal digits these bytes are. A sign or a needless zero makes it none.
pub fn number_of(text: &[u8], least: u64, most: u64) -> Option<u64>
    ensures { MatchOption result (IsOther least most text.now) (λ n. (least ≤ n) × (n ≤ most) × (text.now ≡ decimal n)) }
{
    let number = parsed(text)?;
    if least <= number && number <= most {
        Some(number)
    } else {
        None
    }
}
