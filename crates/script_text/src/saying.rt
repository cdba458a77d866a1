//! Reading replies.
ghost use Rattle.std.specs.Prelude.{◌≡◌, ◌≢◌, ◌≤◌, ◌∷◌, ℕ, Bool, true, [], List, codes, decimal, MatchBool, MatchOption};
ghost use Rattle.object_layout.specs.declared.replies.Reply.{Reply as Said};
ghost use Rattle.object_layout.specs.declared.replies.Reply.TheVariants as said;
ghost use Rattle.object_layout.specs.declared.replies.Refusal.{Refusal as Why};
ghost use Rattle.script_text.specs.Replies.{IsReply, refusal_words, reply_words};
ghost use Rattle.script_text.specs.Words.{words};

use crate::numbers::number_of;
use crate::words::LineWords;
use object_layout::{Refusal, Reply};

/// Whether a text has this word alone.
fn says_one(text: &[u8], one: &[u8]) -> bool
    ensures { MatchBool result (words text.now ≡ one.now ∷ []) (words text.now ≢ one.now ∷ []) }
{
    let mut words = LineWords::of(text);
    let Some(first) = words.next() else {
        return false;
    };
    first == one && words.next().is_none()
}

/// Whether a text has these two words alone.
fn says_two(text: &[u8], one: &[u8], two: &[u8]) -> bool
    ensures { MatchBool result (words text.now ≡ one.now ∷ two.now ∷ []) (words text.now ≢ one.now ∷ two.now ∷ []) }
{
    let mut words = LineWords::of(text);
    let Some(first) = words.next() else {
        return false;
    };
    let Some(second) = words.next() else {
        return false;
    };
    first == one && second == two && words.next().is_none()
}

/// Whether a text has these three words alone.
fn says_three(text: &[u8], one: &[u8], two: &[u8], three: &[u8]) -> bool
    ensures { MatchBool result (words text.now ≡ one.now ∷ two.now ∷ three.now ∷ []) (words text.now ≢ one.now ∷ two.now ∷ three.now ∷ []) }
{
    let mut words = LineWords::of(text);
    let Some(first) = words.next() else {
        return false;
    };
    let Some(second) = words.next() else {
        return false;
    };
    let Some(third) = words.next() else {
        return false;
    };
    first == one && second == two && third == three && words.next().is_none()
}

/// The number of a text that has a word and a number, at most so large.
fn says_number(text: &[u8], one: &[u8], most: u64) -> Option<u64>
    ensures { MatchOption result ((n : ℕ) → n ≤ most → words text.now ≢ one.now ∷ decimal n ∷ []) (λ n. (n ≤ most) × (words text.now ≡ one.now ∷ decimal n ∷ [])) }
{
    let mut words = LineWords::of(text);
    let first = words.next()?;
    let number = number_of(words.next()?, 0, most)?;
    if first == one && words.next().is_none() {
        Some(number)
    } else {
        None
    }
}

/// The number of objects that a text tells of an end, and whether it was tight.
fn says_moved(text: &[u8]) -> Option<(u64, bool)>
    ensures { MatchOption result ((moved : ℕ) (tight : Bool) → IsReply (said.Ended moved tight) → words text.now ≢ reply_words (said.Ended moved tight)) (λ end. IsReply (said.Ended end.0 end.1) × (words text.now ≡ reply_words (said.Ended end.0 end.1))) }
{
    let mut words = LineWords::of(text);
    let first = words.next()?;
    let second = words.next()?;
    let moved = number_of(words.next()?, 0, u64::MAX)?;
    if first != b"ok".as_slice() || second != b"moved".as_slice() {
        return None;
    }
    let Some(last) = words.next() else {
        return Some((moved, false));
    };
    if last == b"tight".as_slice() && words.next().is_none() {
        Some((moved, true))
    } else {
        None
    }
}

/// The number behind a word that comes next.
fn next_pair(words: &mut LineWords, word: &[u8]) -> Option<u64>
    ensures { MatchOption result ((n : ℕ) (rest : List (List ℕ)) → n ≤ 4294967295 → words.old ≢ word.now ∷ decimal n ∷ rest) (λ n. (n ≤ 4294967295) × (words.old ≡ word.now ∷ decimal n ∷ words.new)) }
{
    let next = words.next()?;
    let number = number_of(words.next()?, 0, u64::from(u32::MAX))?;
    if next == word { Some(number) } else { None }
}

/// The number behind a word, where these are all that is left.
fn last_pair(words: &mut LineWords, word: &[u8]) -> Option<u64>
    ensures { MatchOption result ((n : ℕ) → n ≤ 4294967295 → words.old ≢ word.now ∷ decimal n ∷ []) (λ n. (n ≤ 4294967295) × (words.old ≡ word.now ∷ decimal n ∷ [])) }
{
    let number = next_pair(words, word)?;
    if words.next().is_some() {
        None
    } else {
        Some(number)
    }
}

/// The pages of regions and of the control space, where these are all that is left.
fn last_two(words: &mut LineWords) -> Option<(u64, u64)>
    ensures { MatchOption result ((region control : ℕ) → region ≤ 4294967295 → control ≤ 4294967295 → words.old ≢ codes "region" ∷ decimal region ∷ codes "control" ∷ decimal control ∷ []) (λ pages. (pages.0 ≤ 4294967295) × (pages.1 ≤ 4294967295) × (words.old ≡ codes "region" ∷ decimal pages.0 ∷ codes "control" ∷ decimal pages.1 ∷ [])) }
{
    let region = next_pair(words, b"region")?;
    let control = last_pair(words, b"control")?;
    Some((region, control))
}

/// The three numbers of pages, where these are all that is left.
fn last_three(words: &mut LineWords) -> Option<(u64, u64, u64)>
    ensures { MatchOption result ((free region control : ℕ) → free ≤ 4294967295 → region ≤ 4294967295 → control ≤ 4294967295 → words.old ≢ codes "free" ∷ decimal free ∷ codes "region" ∷ decimal region ∷ codes "control" ∷ decimal control ∷ []) (λ pages. (pages.0 ≤ 4294967295) × (pages.1 ≤ 4294967295) × (pages.2 ≤ 4294967295) × (words.old ≡ codes "free" ∷ decimal pages.0 ∷ codes "region" ∷ decimal pages.1 ∷ codes "control" ∷ decimal pages.2 ∷ [])) }
{
    let free = next_pair(words, b"free")?;
    let (region, control) = last_two(words)?;
    Some((free, region, control))
}

/// The three numbers that a text tells of a census.
fn says_pages(text: &[u8]) -> Option<(u64, u64, u64)>
    ensures { MatchOption result ((free region control : ℕ) → IsReply (said.Pages free region control) → words text.now ≢ reply_words (said.Pages free region control)) (λ pages. IsReply (said.Pages pages.0 pages.1 pages.2) × (words text.now ≡ reply_words (said.Pages pages.0 pages.1 pages.2))) }
{
    let mut words = LineWords::of(text);
    let first = words.next()?;
    if first != b"pages".as_slice() {
        return None;
    }
    last_three(&mut words)
}

/// The refusal that a text tells.
fn says_refusal(text: &[u8]) -> Option<Refusal>
    ensures { MatchOption result ((refusal : Why) → words text.now ≢ refusal_words refusal) (λ refusal. words text.now ≡ refusal_words refusal) }
{
    if says_two(text, b"bad", b"slot") {
        Some(Refusal::BadSlot)
    } else if says_three(text, b"not", b"a", b"reference") {
        Some(Refusal::NotAReference)
    } else if says_two(text, b"bad", b"field") {
        Some(Refusal::BadField)
    } else if says_two(text, b"stack", b"full") {
        Some(Refusal::StackFull)
    } else if says_two(text, b"stack", b"empty") {
        Some(Refusal::StackEmpty)
    } else if says_two(text, b"too", b"deep") {
        Some(Refusal::TooDeep)
    } else if says_two(text, b"no", b"epoch") {
        Some(Refusal::NoEpoch)
    } else if says_two(text, b"too", b"long") {
        Some(Refusal::TooLong)
    } else if says_two(text, b"names", b"spent") {
        Some(Refusal::NamesSpent)
    } else {
        None
    }
}

/// The reply without a number, and no refusal, that a text tells.
fn says_plainly(text: &[u8]) -> Option<Reply>
    ensures { MatchOption result
        ((words text.now ≢ codes "ok" ∷ []) × (words text.now ≢ codes "null" ∷ []) × (words text.now ≢ codes "yes" ∷ []) × (words text.now ≢ codes "no" ∷ []) × (words text.now ≢ codes "out" ∷ codes "of" ∷ codes "heap" ∷ []))
        (λ reply. IsReply reply × (words text.now ≡ reply_words reply)) }
{
    if says_one(text, b"ok") {
        Some(Reply::Ok)
    } else if says_one(text, b"null") {
        Some(Reply::Null)
    } else if says_one(text, b"yes") {
        Some(Reply::Yes)
    } else if says_one(text, b"no") {
        Some(Reply::No)
    } else if says_three(text, b"out", b"of", b"heap") {
        Some(Reply::OutOfHeap)
    } else {
        None
    }
}

/// The reply with numbers that a text tells.
fn says_numbers(text: &[u8]) -> Option<Reply>
    ensures { MatchOption result
        (((n : ℕ) → IsReply (said.Int n) → words text.now ≢ reply_words (said.Int n)) × ((k : ℕ) → IsReply (said.Object k) → words text.now ≢ reply_words (said.Object k))
        × ((moved : ℕ) (tight : Bool) → IsReply (said.Ended moved tight) → words text.now ≢ reply_words (said.Ended moved tight))
        × ((free region control : ℕ) → IsReply (said.Pages free region control) → words text.now ≢ reply_words (said.Pages free region control)))
        (λ reply. IsReply reply × (words text.now ≡ reply_words reply)) }
{
    if let Some(number) = says_number(text, b"int", u64::MAX) {
        return Some(Reply::Int(number));
    }
    if let Some(fields) = says_number(text, b"ref", u64::from(u16::MAX)) {
        return Some(Reply::Object(fields as u16));
    }
    if let Some((moved, tight)) = says_moved(text) {
        return Some(Reply::Ended { moved, tight });
    }
    let (free, region, control) = says_pages(text)?;
    Some(Reply::Pages {
        free: free as u32,
        region: region as u32,
        control: control as u32,
    })
}

/// The reply that a text tells: its words are those of the reply's text.
pub fn read_reply(text: &[u8]) -> Option<Reply>
    ensures { MatchOption result ((reply : Said) → IsReply reply → words text.now ≢ reply_words reply) (λ reply. IsReply reply × (words text.now ≡ reply_words reply)) }
{
    if let Some(reply) = says_plainly(text) {
        return Some(reply);
    }
    if let Some(refusal) = says_refusal(text) {
        return Some(Reply::Refused(refusal));
    }
    says_numbers(text)
}
