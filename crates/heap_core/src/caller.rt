//! One thread's way to a heap that is owned.

ghost use Rattle.std.specs.Prelude.{◌≡◌, ◌≢◌, ◌↔◌, ◌≤◌, ◌<◌, ◌+◌, ◌-◌, ◌^◌, ℕ, min, None, refl};
ghost use Rattle.std.specs.Option.{ForSome};
ghost use Rattle.std.specs.FinMap.{empty};
ghost use Rattle.object_layout.specs.Calls.{IsCall};
ghost use Rattle.heap_words.specs.declared.map.Areas.{Areas};
ghost use Rattle.heap_words.specs.Map.{HasThread, page_words};
ghost use Rattle.heap_words.specs.Contents.{contents, Sound};
ghost use Rattle.yak_model.specs.Graph.{Thread, thread_of};
ghost use Rattle.yak_model.specs.Lawful.{present_words};
ghost use Rattle.yak_model.specs.Placed.{used_mark};
ghost use Rattle.yak_model.specs.Spaces.{SpaceState};
ghost use Rattle.yak_model.specs.Private.{KnownObjects};
ghost use Rattle.yak_model.specs.Standing.{Counted, MovesKnown, Stays, counted_on, words_made};
ghost use Rattle.yak_model.specs.Stands.{Stands};
ghost use Rattle.heap_core.specs.Callers.{FillsPages, KnowsAlone, MakesStep, TellsKnown, TellsThread, standing_told, thread_told, words_asked, words_used};

use crate::owned::Core;
use heap_words::{Areas, Words, get_page};
use object_layout::{Call, Census, OBJECT_WORDS, Reply};
use region_pages::USED_MARK;
use yak_model::Caller;

/// One thread's way to a heap that is owned: each of its calls is a step of that thread.
#[derive(Drop)]
pub struct CoreCaller<W: Words> {
    core: Core<W>,
    thread: u8,
    /// The words of the objects that were present when it became a caller.
    present: u64,
    /// The words of the objects that it made since, or the greatest number where they are more.
    made: u64,
    /// How many calls were answered by `OutOfHeap`, or the greatest number where they are more.
    refusals: u64,
    /// The pages, the thread's depth and the words asked for at the last of them.
    last: Option<(Census, u8, u16)>,
    // the thread is one of the heap's
    pub ghost has_thread: { HasThread core.map thread },
    // the present objects have at most the words of those that were present and those that were made
    pub ghost holds: { words_used (contents core.map (W.words core.words)).table ≤ present + made },
    // the thread knows the map without objects
    pub ghost knows_none: { ∥ KnowsAlone core.map (contents core.map (W.words core.words)) thread empty ∥₁ },
    // there is a last call that was answered by `OutOfHeap` exactly where there were some, and no page was free then
    pub ghost some: { last ≡ None ↔ refusals ≡ 0 },
    pub ghost none_free: { ForSome last (λ l. l.0.free ≡ 0) },
    // where there was no room and the heap has one thread, those words fill its pages
    pub ghost filled: { ForSome last (λ l. FillsPages core.map (present + made) l.1) },
}

impl<W: Words> Caller for CoreCaller<W> {
    ghost Base = { Areas × W.Base × ℕ };

    ghost base = { λ s. (s.core.map, W.base s.core.words, s.present) };

    ghost standing = { λ s. standing_told (contents s.core.map (W.words s.core.words)) s.thread s.made s.refusals s.last };

    ghost knows = { λ s known. KnowsAlone s.core.map (contents s.core.map (W.words s.core.words)) s.thread known };

    ghost tells = { λ s t own. TellsThread s.core.map (contents s.core.map (W.words s.core.words)) s.thread t own };

    ghost tells_known = { λ s t known. TellsKnown s.core.map (contents s.core.map (W.words s.core.words)) s.thread t known };

    ghost standard = { λ s. refl };

    ghost knows_none = { λ s. s.knows_none };

    ghost fit = { λ s known k. k.fits };

    ghost told = { λ s. record { some = s.some; none_free = s.none_free } };

    #[inline(always)]
    fn make_call(&mut self, call: Call) -> Reply
        requires { IsCall call }
        ensures stays { Stays ⟦<CoreCaller<W> as Caller>⟧.base ⟦<CoreCaller<W> as Caller>⟧.tells ⟦<CoreCaller<W> as Caller>⟧.tells_known self.old self.new }
        ensures counted { Counted (⟦<CoreCaller<W> as Caller>⟧.standing self.old) call result (⟦<CoreCaller<W> as Caller>⟧.standing self.new) }
        ensures known { (known : KnownObjects) → ⟦<CoreCaller<W> as Caller>⟧.knows self.old known → MovesKnown (⟦<CoreCaller<W> as Caller>⟧.standing self.old) known call result (⟦<CoreCaller<W> as Caller>⟧.standing self.new).own (⟦<CoreCaller<W> as Caller>⟧.knows self.new) }
        ensures step { MakesStep self.old.core.map (contents self.old.core.map (W.words self.old.core.words)) (contents self.new.core.map (W.words self.new.core.words)) self.old.thread call result self.old.last self.new.last }
    {
        let stepped = self.core.step(self.thread, call);
        self.made = count_up(self.made, words_made(call, stepped.reply));
        if let Some(census) = stepped.full {
            self.refusals = count_up(self.refusals, 1);
            self.last = Some((census, self.core.depth(self.thread), words_asked(call)));
        }
        stepped.reply
    }

    fn full(&self) -> Option<(Census, u8, u16)> {
        self.last
    }
}

impl<W: Words> Core<W> {
    /// A caller for one of the heap's threads.
    pub fn as_caller(mut self, thread: u8) -> CoreCaller<W>
        requires thread { HasThread self.map thread }
        ensures thread { result.thread ≡ thread }
        ensures words { W.words result.core.words ≡ W.words self.words }
        ensures map { result.core.map ≡ self.map }
        ensures base { W.base result.core.words ≡ W.base self.words }
        ensures present { (s : SpaceState) → Stands self.map (contents self.map (W.words self.words)) s → result.present ≡ present_words s }
        ensures fresh { (result.made ≡ 0) × (result.refusals ≡ 0) × (result.last ≡ None) }
        ensures told { (s : SpaceState) → Stands self.map (contents self.map (W.words self.words)) s → (t : ℕ) → thread_told (contents result.core.map (W.words result.core.words)) t ≡ thread_of s.graph t }
        ensures begins { (s : SpaceState) → Stands self.map (contents self.map (W.words self.words)) s → KnowsAlone result.core.map (contents result.core.map (W.words result.core.words)) result.thread empty }
    {
        let present = self.present_words();
        CoreCaller {
            core: self,
            thread,
            present,
            made: 0,
            refusals: 0,
            last: None,
        }
    }
}

impl<W: Words> CoreCaller<W> {
    /// The heap, as it is now.
    pub fn into_core(self) -> Core<W>
        ensures core { result ≡ self.core }
        ensures told { (s : SpaceState) → Stands result.map (contents result.map (W.words result.words)) s → thread_told (contents self.core.map (W.words self.core.words)) self.thread ≡ thread_of s.graph self.thread }
        ensures filled { ForSome self.last (λ l. FillsPages result.map (self.present + self.made) l.1) }
    {
        self.core
    }

    /// The same heap as the way of one of its threads, which begins to count. What each thread alone knows stays known, and what
    /// was told of threads stays told.
    pub fn turn_to(self, thread: u8) -> CoreCaller<W>
        requires thread { HasThread self.core.map thread }
        ensures core { result.core ≡ self.core }
        ensures thread { result.thread ≡ thread }
        ensures present { result.present ≡ counted_on self.present self.made }
        ensures fresh { (result.made ≡ 0) × (result.refusals ≡ 0) × (result.last ≡ None) }
        ensures has { (own : Thread) → ⟦<CoreCaller<W> as Caller>⟧.tells self thread own → (⟦<CoreCaller<W> as Caller>⟧.standing result).own ≡ own }
        ensures known { (known : KnownObjects) → ⟦<CoreCaller<W> as Caller>⟧.tells_known self thread known → ⟦<CoreCaller<W> as Caller>⟧.knows result known }
        ensures had { self.thread ≢ thread → ⟦<CoreCaller<W> as Caller>⟧.tells result self.thread (⟦<CoreCaller<W> as Caller>⟧.standing self).own }
        ensures kept { self.thread ≢ thread → (known : KnownObjects) → ⟦<CoreCaller<W> as Caller>⟧.knows self known → ⟦<CoreCaller<W> as Caller>⟧.tells_known result self.thread known }
        ensures others { (t : ℕ) → t ≢ thread → ((own : Thread) → ⟦<CoreCaller<W> as Caller>⟧.tells self t own → ⟦<CoreCaller<W> as Caller>⟧.tells result t own) × ((known : KnownObjects) → ⟦<CoreCaller<W> as Caller>⟧.tells_known self t known → ⟦<CoreCaller<W> as Caller>⟧.tells_known result t known) }
    {
        let present = count_up(self.present, self.made);
        let (made, refusals) = (0, 0);
        CoreCaller {
            core: self.core,
            thread,
            present,
            made,
            refusals,
            last: None,
        }
    }
}

/// The words in use in all pages.
pub(crate) fn words_in_use<W: Words>(words: &mut W, map: Areas) -> u64
    requires sound { Sound map (W.words words.old) }
    requires marks { (p : ℕ) → p < map.pages → used_mark (contents map (W.words words.old)).table p ≤ page_words map }
    ensures used { result ≡ words_used (contents map (W.words words.old)).table }
    ensures words { W.words words.new ≡ W.words words.old }
    ensures reads { W.reads words.new ≤ W.reads words.old + map.pages }
    ensures base { W.base words.new ≡ W.base words.old }
{
    let mut used = 0;
    for page in 0..map.pages {
        used += get_page(words, map, page, USED_MARK);
    }
    used
}

/// A count after so many more, or the greatest number where that is more.
pub fn count_up(count: u64, more: u64) -> u64
    ensures counted { result ≡ counted_on count more }
    ensures rises { count ≤ result }
{
    count.saturating_add(more)
}

/// The words of the object that a call makes.
pub fn words_made(call: Call, reply: Reply) -> u64
    ensures { result ≡ words_made call reply }
{
    match (call, reply) {
        (Call::New(fields), Reply::Ok) => u64::from(fields) + u64::from(OBJECT_WORDS),
        _ => 0,
    }
}

/// The words that a call asks for, up to the greatest number.
pub fn words_asked(call: Call) -> u16
    ensures { result ≡ min (words_asked call) (2 ^ 16 - 1) }
{
    match call {
        Call::New(fields) => {
            u16::try_from(fields.saturating_add(u32::from(OBJECT_WORDS))).unwrap_or(u16::MAX)
        }
        _ => 0,
    }
}

#[cfg(test)]
mod tests {
    use crate::Core;
    use object_layout::{Call, Census, Refusal, Reply};
    use std::test::Fail;
    use yak_model::Caller;

    // The replies to two calls for objects, of which the first fills a page.
    fn fill<C: Caller>(caller: &mut C) -> (Reply, Reply) {
        let first = caller.make_call(Call::New(234));
        let second = caller.make_call(Call::New(0));
        (first, second)
    }

    #[test]
    fn a_caller_tells_that_the_heap_is_full(rt: HostRuntime) -> Result<(), Fail> {
        let core = match Core::new(rt.alloc(), 1, 1) {
            Ok(core) => core,
            Err(error) => panic!(rt; "no heap: {error}"),
        };
        let mut caller = core.as_caller(1);
        assert_eq!(rt; caller.full(), None);
        assert_eq!(rt; fill(&mut caller), (Reply::Ok, Reply::OutOfHeap));
        let pages = Census {
            free: 0,
            region: 0,
            control: 1,
        };
        assert_eq!(rt; caller.full(), Some((pages, 0, 3)));
        let mut core = caller.into_core();
        assert_eq!(rt; core.step(1, Call::Get(1)).reply, Reply::Object(234));
        Ok(())
    }

    // The reply to a call of whichever caller.
    fn ask<C: Caller>(caller: &mut C, call: Call) -> Reply
        requires { IsCall call }
    {
        caller.make_call(call)
    }

    #[test]
    fn two_threads_call_in_turn(rt: HostRuntime) -> Result<(), Fail> {
        let core = match Core::new(rt.alloc(), 1, 2) {
            Ok(core) => core,
            Err(error) => panic!(rt; "no heap: {error}"),
        };
        let caller = core.as_caller(1);
        let mut caller = caller.turn_to(2);
        assert_eq!(rt; ask(&mut caller, Call::Int(7)), Reply::Ok);
        assert_eq!(rt; ask(&mut caller, Call::Get(1)), Reply::Int(7));
        let mut caller = caller.turn_to(1);
        assert_eq!(rt;
            ask(&mut caller, Call::Get(1)),
            Reply::Refused(Refusal::BadSlot)
        );
        Ok(())
    }
}
