//! The forms of words that are understood.
ghost use Rattle.std.specs.Prelude.{◌≡◌, ◌≢◌, ◌≤◌, ◌<◌, ◌++◌, ◌∷◌, ℕ, true, List, [], None, Some, map, decimal, MatchBool, MatchOption, string_bytes};
ghost use Rattle.yak.specs.declared.forms.Form.{Form};
ghost use Rattle.yak.specs.declared.forms.Options.{Options};
ghost use Rattle.yak.specs.declared.forms.Tracing.{Tracing};
ghost use Rattle.yak.specs.declared.forms.Setting.{Setting};
ghost use Rattle.yak.specs.declared.forms.Settings.{Settings};
ghost use Rattle.yak.specs.Forms.{GoesShared, IsAsked, IsBuiltForm, IsForm, IsJoined, IsSetting, Sets, Tells, chosen, feed_word, most_of, setting_word, tell, told, unset};

use heap_words::MAX_PAGES;
use object_layout::MAX_THREADS;
use script_text::number_of;
use yak_io::INPUT_LIMIT;

/// The greatest number of rounds of a generated script.
pub const MAX_ROUNDS: u32 = 100000;
/// The lines of a task of a count, where they aren't told.
pub const DEFAULT_TASK: u32 = 64;

/// What a count is made with.
#[derive(Clone, Copy, Debug, PartialEq, Eq, Drop)]
pub struct Options {
    /// From 1 to `MAX_THREADS`.
    pub workers: u32,
    /// Lines of a task, from 1 to `INPUT_LIMIT`.
    pub task: u32,
    /// From 1 to `MAX_PAGES`.
    pub pages: u32,
    /// Whether the workers take the tasks from a queue.
    pub feed: bool,
}

/// What is done with traces.
#[derive(Clone, Copy, Debug, PartialEq, Eq, Drop)]
pub enum Tracing {
    /// To run a script on one core, and write its trace.
    Make,
    /// To check a trace.
    Check,
}

/// What a list of words asks for.
#[derive(Clone, Copy, Debug, PartialEq, Eq, Drop)]
pub enum Form {
    /// To run a script on one core.
    Replay,
    /// To run each thread of a script on a worker of its own.
    Threads,
    /// To count the words of a text.
    Count(Options),
    /// To run the generated script of so many rounds, at most `MAX_ROUNDS`.
    Gen(u32),
    /// To make a trace or to check one.
    Traced(Tracing),
}

/// An option of `count` that has a number.
#[derive(Clone, Copy, Debug, PartialEq, Eq, Drop)]
pub enum Setting {
    Workers,
    Task,
    Pages,
}

/// The options that were read.
#[derive(Clone, Copy, Debug, PartialEq, Eq, Drop)]
pub struct Settings {
    pub workers: Option<u32>,
    pub task: Option<u32>,
    pub pages: Option<u32>,
    pub feed: bool,
}

impl Form {
    /// Whether the form is answered.
    fn is_built(self) -> bool
        ensures { MatchBool result (IsBuiltForm self) (IsBuiltForm self → ⊥) }
    {
        match self {
            Form::Replay | Form::Gen(_) | Form::Traced(_) => true,
            Form::Count(options) => options.workers == 1 && !options.feed,
            Form::Threads => false,
        }
    }

    /// Whether the form is a run in threads.
    pub fn is_threads(self) -> bool
        ensures { MatchBool result (self ≡ Form.Threads) (self ≢ Form.Threads) }
    {
        match self {
            Form::Threads => true,
            Form::Replay | Form::Count(_) | Form::Gen(_) | Form::Traced(_) => false,
        }
    }

    /// What a count by workers with threads of their own is made with, where the form is one.
    pub fn shared_count(self) -> Option<Options>
        ensures { MatchOption result ((options : Options) → self ≡ Form.Count options → GoesShared options → ⊥) (λ options. (self ≡ Form.Count options) × GoesShared options) }
    {
        match self {
            Form::Count(options) if options.workers >= 2 || options.feed => Some(options),
            Form::Replay | Form::Threads | Form::Count(_) | Form::Gen(_) | Form::Traced(_) => None,
        }
    }

    /// What is done with traces, where the form is one of these.
    pub fn tracing(self) -> Option<Tracing>
        ensures { MatchOption result ((tracing : Tracing) → self ≢ Form.Traced tracing) (λ tracing. self ≡ Form.Traced tracing) }
    {
        match self {
            Form::Traced(tracing) => Some(tracing),
            Form::Replay | Form::Threads | Form::Count(_) | Form::Gen(_) => None,
        }
    }
}

impl Setting {
    /// The option's word.
    fn word(self) -> &'static str
        ensures { result.now ≡ setting_word self }
    {
        match self {
            Setting::Workers => "--workers",
            Setting::Task => "--task",
            Setting::Pages => "--pages",
        }
    }

    /// The greatest number that it may have.
    fn most(self) -> u32
        ensures { result ≡ most_of self }
    {
        match self {
            Setting::Workers => u32::from(MAX_THREADS),
            Setting::Task => INPUT_LIMIT as u32,
            Setting::Pages => MAX_PAGES,
        }
    }
}

impl Settings {
    /// The same with the number of an option, unless it has one already.
    fn with(self, setting: Setting, number: u32) -> Option<Settings>
        ensures { MatchOption result (told setting self ≢ None) (λ after. (told setting self ≡ None) × (after ≡ tell setting number self)) }
    {
        let number = Some(number);
        match setting {
            Setting::Workers if self.workers.is_none() => Some(Settings {
                workers: number,
                ..self
            }),
            Setting::Task if self.task.is_none() => Some(Settings {
                task: number,
                ..self
            }),
            Setting::Pages if self.pages.is_none() => Some(Settings {
                pages: number,
                ..self
            }),
            _ => None,
        }
    }

    /// What a count is made with, where what wasn't told has its default.
    fn chosen(self) -> Options
        ensures { result ≡ Rattle.yak.specs.Forms.chosen self }
    {
        Options {
            workers: self.workers.unwrap_or(1),
            task: self.task.unwrap_or(DEFAULT_TASK),
            pages: self.pages.unwrap_or(MAX_PAGES),
            feed: self.feed,
        }
    }
}

/// What stands behind the front of a text.
fn behind<'a>(text: &'a [u8], front: &[u8]) -> Option<&'a [u8]>
    ensures { MatchOption result ((rest : List ℕ) → text.now ≢ front.now ++ rest) (λ rest. text.now ≡ front.now ++ rest.now) }
{
    let size = front.len();
    if text.len() < size || &text[..size] != front {
        return None;
    }
    Some(&text[size..])
}

/// The number of an option that is told in one word, with `=`.
fn joined(word: &[u8], setting: Setting) -> Option<u32>
    ensures { MatchOption result ((number : ℕ) → IsJoined word.now setting number → ⊥) (λ number. IsJoined word.now setting number) }
{
    let after = behind(word, setting.word().as_bytes())?;
    let digits = behind(after, b"=")?;
    let number = number_of(digits, 1, u64::from(setting.most()))?;
    Some(number as u32)
}

/// The number of an option that the words begin with, and the words behind it.
fn split(words: &[String], setting: Setting) -> Option<(u32, &[String])>
    ensures { MatchOption result
        ((number : ℕ) (rest : List (List ℕ)) → IsSetting (map string_bytes words.now) setting number rest → ⊥)
        (λ found. IsSetting (map string_bytes words.now) setting found.0 (map string_bytes found.1.now)) }
{
    let (word, rest) = words.split_first()?;
    if let Some(number) = joined(word.as_bytes(), setting) {
        return Some((number, rest));
    }
    if word.as_str() != setting.word() {
        return None;
    }
    let (digits, after) = rest.split_first()?;
    let number = number_of(digits.as_bytes(), 1, u64::from(setting.most()))?;
    Some((number as u32, after))
}

/// The option with a number that the words begin with, its number, and the words behind it.
fn next_setting(words: &[String]) -> Option<(Setting, u32, &[String])>
    ensures { MatchOption result
        ((setting : Setting) (number : ℕ) (rest : List (List ℕ)) → IsSetting (map string_bytes words.now) setting number rest → ⊥)
        (λ found. IsSetting (map string_bytes words.now) found.0 found.1 (map string_bytes found.2.now)) }
{
    if let Some((number, rest)) = split(words, Setting::Workers) {
        return Some((Setting::Workers, number, rest));
    }
    if let Some((number, rest)) = split(words, Setting::Task) {
        return Some((Setting::Task, number, rest));
    }
    match split(words, Setting::Pages) {
        Some((number, rest)) => Some((Setting::Pages, number, rest)),
        None => None,
    }
}

/// The words behind the option without a number, where they begin with it.
fn behind_feed(words: &[String]) -> Option<&[String]>
    ensures { MatchOption result
        ((rest : List (List ℕ)) → map string_bytes words.now ≢ feed_word ∷ rest)
        (λ rest. map string_bytes words.now ≡ feed_word ∷ map string_bytes rest.now) }
{
    let (word, rest) = words.split_first()?;
    if word.as_str() == "--feed" {
        Some(rest)
    } else {
        None
    }
}

/// The settings with the option that the words begin with, unless they have it already, and the words behind it.
fn read_option(words: &[String], before: Settings) -> Option<(Settings, &[String])>
    ensures { MatchOption result
        ((after : Settings) (rest : List (List ℕ)) → Tells (map string_bytes words.now) before after rest → ⊥)
        (λ found. Tells (map string_bytes words.now) before found.0 (map string_bytes found.1.now)) }
{
    if let Some(rest) = behind_feed(words) {
        if before.feed {
            return None;
        }
        let after = Settings {
            feed: true,
            ..before
        };
        return Some((after, rest));
    }
    let (setting, number, rest) = next_setting(words)?;
    let after = before.with(setting, number)?;
    Some((after, rest))
}

/// The options of `count`.
fn read_settings(words: &[String]) -> Option<Settings>
    ensures { MatchOption result
        ((settings : Settings) → Sets settings unset (map string_bytes words.now) → ⊥)
        (λ settings. Sets settings unset (map string_bytes words.now)) }
{
    let mut settings = Settings {
        workers: None,
        task: None,
        pages: None,
        feed: false,
    };
    let mut left = words;
    'settings: while !left.is_empty() {
        let (after, rest) = read_option(left, settings)?;
        settings = after;
        left = rest;
    }
    Some(settings)
}

/// The number of rounds of `gen`.
fn read_rounds(words: &[String]) -> Option<u32>
    ensures { MatchOption result
        ((rounds : ℕ) → rounds ≤ MAX_ROUNDS → map string_bytes words.now ≢ decimal rounds ∷ [])
        (λ rounds. (rounds ≤ MAX_ROUNDS) × (map string_bytes words.now ≡ decimal rounds ∷ [])) }
{
    let (word, rest) = words.split_first()?;
    if !rest.is_empty() {
        return None;
    }
    let rounds = number_of(word.as_bytes(), 0, u64::from(MAX_ROUNDS))?;
    Some(rounds as u32)
}

/// A form of one word alone.
fn alone(form: Form, rest: &[String]) -> Option<Form>
    ensures { MatchOption result (map string_bytes rest.now ≢ []) (λ found. (found ≡ form) × (map string_bytes rest.now ≡ [])) }
{
    if rest.is_empty() { Some(form) } else { None }
}

/// The form of the words after the first.
fn read_rest(word: &str, rest: &[String]) -> Option<Form>
    ensures { MatchOption result
        ((form : Form) → IsForm (word.now ∷ map string_bytes rest.now) form → ⊥)
        (λ form. IsForm (word.now ∷ map string_bytes rest.now) form) }
{
    if word == "replay" {
        return alone(Form::Replay, rest);
    }
    if word == "threads" {
        return alone(Form::Threads, rest);
    }
    if word == "trace" {
        return alone(Form::Traced(Tracing::Make), rest);
    }
    if word == "check" {
        return alone(Form::Traced(Tracing::Check), rest);
    }
    if word == "gen" {
        return match read_rounds(rest) {
            Some(rounds) => Some(Form::Gen(rounds)),
            None => None,
        };
    }
    if word != "count" {
        return None;
    }
    match read_settings(rest) {
        Some(settings) => Some(Form::Count(settings.chosen())),
        None => None,
    }
}

/// What the words ask for, if they are of a stated form.
#[tactic(auto, using(crate::proofs::Words::no_words))]
pub fn read_form(words: &[String]) -> Option<Form>
    ensures { MatchOption result
        ((form : Form) → IsForm (map string_bytes words.now) form → ⊥)
        (λ form. IsForm (map string_bytes words.now) form) }
{
    let (word, rest) = words.split_first()?;
    read_rest(word.as_str(), rest)
}

/// What the words ask for, if that is answered.
#[tactic(auto, using(crate::proofs::Unasked::unbuilt, crate::proofs::Unasked::none_unasked))]
pub fn asked_form(words: &[String]) -> Option<Form>
    ensures { MatchOption result
        (IsAsked (map string_bytes words.now) → ⊥)
        (λ form. IsForm (map string_bytes words.now) form × IsBuiltForm form) }
{
    let form = read_form(words)?;
    if form.is_built() { Some(form) } else { None }
}
