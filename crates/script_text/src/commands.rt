//! The commands, read and printed by one table.
ghost use Rattle.std.specs.Prelude.{◌≡◌, ◌≢◌, ◌∷◌, ◌++◌, [], All, decimal, map, MatchOption, MatchResult, IfSome, IfOk, IfErr, OnOk, string_bytes};
ghost use Rattle.object_layout.specs.declared.calls.Call.{Call};
ghost use Rattle.object_layout.specs.Calls.{IsCall};
ghost use Rattle.script_text.specs.Commands.{IsInteger, IsIndex, most, word_of, limits_of, numbers_of, number_words, command_words, IsWithin, IsSayable};
ghost use Rattle.script_text.specs.Faults.{Takes, Misses, FaultyNumbers, Faulty};
ghost use Rattle.script_text.specs.Printing.{spaced};
ghost use Rattle.script_text.specs.Words.{words};

use crate::faults::Reason;
use crate::numbers::number_of;
use crate::words::LineWords;
use object_layout::{Call, MAX_INT};
use std::alloc::AllocError;

/// Lays out the table of the commands: the word of each, and its numbers.
macro_rules! with_commands {
    ($act:ident!($($argument:ident),*)) => {
        $act! { ($($argument),*)
            "int" Int(i: integer);
            "null" Null;
            "dup" Dup(s: index);
            "pop" Pop;
            "new" New(k: index);
            "load" Load(s: index, f: index);
            "store" Store(s: index, f: index, x: index);
            "get" Get(s: index);
            "same" Same(s: index, x: index);
            "begin" Begin;
            "end" End;
            "collect" Collect;
            "census" Census;
        }
    };
}

macro_rules! zero {
    ($name:ident) => { 0 };
}

macro_rules! find_row {
    (($wanted:ident) $($word:literal $call:ident $(($($name:ident: $read:ident),+))?;)+) => {
        $(if $wanted == $word.as_bytes() {
            Some(Call::$call $(($(zero!($name)),+))?)
        } else)+ {
            None
        }
    };
}

macro_rules! read_row {
    (($shape:ident, $words:ident) $($word:literal $call:ident $(($($name:ident: $read:ident),+))?;)+) => {
        match $shape {
            $(Call::$call { .. } => {
                $($(let $name = $read($words)?;)+)?
                Ok(Call::$call $(($($name),+))?)
            })+
        }
    };
}

macro_rules! print_row {
    (($shown:ident, $text:ident) $($word:literal $call:ident $(($($name:ident: $read:ident),+))?;)+) => {
        match $shown {
            $(Call::$call $(($($name),+))? => push_words($text, $word, &[$($(u64::from($name)),+)?]),)+
        }
    };
}

/// The call whose command word this is, with zeros for its numbers.
fn find_call(word: &[u8]) -> Option<Call>
    ensures found { MatchOption result ((call : Call) → word.now ≢ word_of call) (λ call. word.now ≡ word_of call) }
    ensures zeros { IfSome result (λ call. All (λ number. number.value ≡ 0) (numbers_of call)) }
{
    with_commands!(find_row!(word))
}

/// The next word, as a number within a limit.
fn number(words: &mut LineWords, limit: u64) -> Result<u64, Reason>
    ensures { MatchResult result (λ n. Takes limit words.old n words.new) (λ reason. Misses limit words.old reason) }
{
    let Some(digits) = words.next() else {
        return Err(Reason::MissingWord);
    };
    match number_of(digits, 0, limit) {
        Some(number) => Ok(number),
        None => Err(Reason::BadNumber),
    }
}

/// The next word, as the number of an integer.
fn integer(words: &mut LineWords) -> Result<u64, Reason>
    ensures { MatchResult result (λ n. Takes (most IsInteger) words.old n words.new) (λ reason. Misses (most IsInteger) words.old reason) }
{
    number(words, MAX_INT)
}

/// The next word, as a slot, a field or a number of fields.
fn index(words: &mut LineWords) -> Result<u32, Reason>
    ensures { MatchResult result (λ n. Takes (most IsIndex) words.old n words.new) (λ reason. Misses (most IsIndex) words.old reason) }
{
    match number(words, u32::MAX as u64) {
        Ok(number) => Ok(number as u32),
        Err(reason) => Err(reason),
    }
}

/// The call, with the numbers that follow in place of its own.
fn read_numbers(shape: Call, words: &mut LineWords) -> Result<Call, Reason>
    ensures read { IfOk result (λ call. (word_of call ≡ word_of shape) × (words.old ≡ number_words (numbers_of call) ++ words.new) × All IsWithin (numbers_of call)) }
    ensures fault { IfErr result (λ reason. FaultyNumbers (limits_of shape) words.old reason) }
{
    with_commands!(read_row!(shape, words))
}

/// The same, where no further word follows.
#[tactic(auto, using(crate::proofs::Table::extra_word))]
fn read_call(shape: Call, words: &mut LineWords) -> Result<Call, Reason>
    ensures read { IfOk result (λ call. (word_of call ≡ word_of shape) × (words.old ≡ number_words (numbers_of call)) × All IsWithin (numbers_of call)) }
    ensures fault { IfErr result (λ reason. FaultyNumbers (limits_of shape) words.old reason) }
{
    let call = read_numbers(shape, words)?;
    if words.next().is_some() {
        Err(Reason::ExtraWord)
    } else {
        Ok(call)
    }
}

/// The thread and the call of a command line, whose thread is one of so many.
pub(crate) fn read_command(line: &[u8], threads: u8) -> Result<(u8, Call), Reason>
    requires { words line.now ≢ [] }
    ensures { MatchResult result
        (λ read. (words line.now ≡ command_words read.0 read.1) × IsSayable threads read.0 read.1)
        (λ reason. Faulty threads (words line.now) reason) }
{
    let mut words = LineWords::of(line);
    let Some(first) = words.next() else {
        unreachable!();
    };
    let Some(thread) = number_of(first, 1, threads as u64) else {
        return Err(Reason::BadThread);
    };
    let Some(word) = words.next() else {
        return Err(Reason::MissingWord);
    };
    let Some(shape) = find_call(word) else {
        return Err(Reason::BadCommand);
    };
    let call = read_call(shape, &mut words)?;
    Ok((thread as u8, call))
}

/// Appends a space and a word, and a space and each number.
fn push_words(text: &mut String, word: &str, numbers: &[u64]) -> Result<(), AllocError>
    ensures { OnOk result (string_bytes text.new ≡ string_bytes text.old ++ 32 ∷ spaced (word.now ∷ map decimal numbers.now)) }
{
    write!(text, " {word}")?;
    for number in numbers {
        let number = *number;
        write!(text, " {number}")?;
    }
    Ok(())
}

/// Appends a call's word and its numbers, with a space before each.
fn push_call(text: &mut String, call: Call) -> Result<(), AllocError>
    ensures { OnOk result (string_bytes text.new ≡ string_bytes text.old ++ 32 ∷ spaced (word_of call ∷ number_words (numbers_of call))) }
{
    with_commands!(print_row!(call, text))
}

/// Appends the words of a command, parted by a space. Its numbers are within their limits where its integer is.
pub(crate) fn push_command(text: &mut String, thread: u8, call: Call) -> Result<(), AllocError>
    requires { IsCall call }
    ensures within { All IsWithin (numbers_of call) }
    ensures text { OnOk result (string_bytes text.new ≡ string_bytes text.old ++ spaced (command_words thread call)) }
{
    write!(text, "{thread}")?;
    push_call(text, call)
}
