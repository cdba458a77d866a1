//! A heap that is owned, with its words.

ghost use Rattle.std.specs.Prelude.{◌≡◌, ◌≤◌, ◌<◌, ◌+◌, ◌-◌, ◌↔◌, ℕ, List, IfOk, IfErr, replicate};
ghost use Rattle.object_layout.specs.Calls.{IsCall};
ghost use Rattle.heap_words.specs.Map.{HasThread, IsAreas, total_of};
ghost use Rattle.heap_words.specs.Contents.{contents, Sound};
ghost use Rattle.yak_model.specs.Graph.{standard_limits};
ghost use Rattle.yak_model.specs.Spaces.{SpaceState, TurnsAll, opening_spaces};
ghost use Rattle.yak_model.specs.Stands.{Stands};
ghost use Rattle.yak_model.specs.Recorded.{Recorded};
ghost use Rattle.epoch_lattice.specs.declared.Space.TheVariants.{Control};
ghost use Rattle.yak_model.specs.declared.history.Entry.{Entry};
ghost use Rattle.yak_model.specs.Packed.{IsPacked};
ghost use Rattle.heap_core.specs.Done.{CollectsWhere, Done, EndsSo, FillsHeap, RegionsPacked, StepRecords, StepRoom, TellsFull, TellsPages, TellsShortage};
ghost use Rattle.heap_core.specs.EpochEnds.{ReadsFew};
ghost use Rattle.yak_model.specs.Continued.{AreLawful, PackedIfAsked};
ghost use Rattle.heap_core.specs.Opening.{IsOpened};
ghost use Rattle.yak_model.specs.Recorded.{SomeRecorded, StandsRecorded};
ghost use Rattle.standing_calls.specs.Turned.{IsIdle};
ghost use Rattle.heap_core.specs.Steps.{entries};

use crate::caller::words_in_use;
use crate::calls::answer;
use crate::made::open_words;
use heap_words::{Areas, Image, MakeError, Words, get_depth};
use object_layout::{Call, Census, Reply, Shortage};
use std::alloc::Global;

/// What a step says.
#[derive(Clone, Copy, Debug, PartialEq, Eq, Drop)]
pub struct Stepped {
    pub reply: Reply,
    /// Whether the step made a collection of the control space before it answered.
    pub collected: bool,
    /// The pages at an `OutOfHeap`.
    pub full: Option<Census>,
    /// The pages at an end whose objects had to stay in the region's own pages.
    pub shortage: Option<Shortage>,
}

/// A heap, of which one call is made at a time. Its words stand for a state of the model, and record its crossing references.
#[derive(Drop)]
pub struct Core<W: Words> {
    words: W,
    map: Areas,
    ghost own: { map ≡ W.map (W.base words) },
    ghost stands: { SomeRecorded map (contents map (W.words words)) },
}

impl Core<Image> {
    /// A new heap of so many pages and threads, in the opening state.
    pub fn new(alloc: Global, pages: u32, threads: u8) -> Result<Core<Image>, MakeError>
        ensures opening { IfOk result (λ core. StandsRecorded core.map (contents core.map (⟦<Image as Words>⟧.words core.words)) (opening_spaces standard_limits threads)) }
        ensures opened { IfOk result (λ core. IsOpened core.map (contents core.map (⟦<Image as Words>⟧.words core.words))) }
        ensures map { IfOk result (λ core. core.map ≡ record { pages = pages; threads = threads }) }
        ensures regions { IfOk result (λ core. RegionsPacked core.map (contents core.map (⟦<Image as Words>⟧.words core.words))) }
        ensures within_limits { IfOk result (λ _. IsAreas (record { pages = pages; threads = threads })) }
        ensures refused { IfErr result (λ e. (e ≡ MakeError.BadConfig) ↔ ¬ IsAreas (record { pages = pages; threads = threads })) }
    {
        let mut words = Image::new(alloc, pages, threads)?;
        let map = words.map();
        open_words(&mut words, map);
        Ok(Core { words, map })
    }
}

impl<W: Words> Core<W> {
    /// A heap over words that are all 0, in the opening state.
    pub fn open(mut words: W, map: Areas) -> Core<W>
        requires own { map ≡ W.map (W.base words) }
        requires zero { W.words words ≡ replicate (total_of map) 0 }
        ensures opening { StandsRecorded result.map (contents result.map (W.words result.words)) (opening_spaces standard_limits map.threads) }
        ensures opened { IsOpened result.map (contents result.map (W.words result.words)) }
        ensures map { result.map ≡ map }
        ensures base { W.base result.words ≡ W.base words }
        ensures regions { RegionsPacked result.map (contents result.map (W.words result.words)) }
    {
        open_words(&mut words, map);
        Core { words, map }
    }

    /// A heap over words that stand for a state, with the crossing references recorded.
    pub fn over(words: W, map: Areas) -> Core<W>
        requires own { map ≡ W.map (W.base words) }
        requires stands { SomeRecorded map (contents map (W.words words)) }
        ensures words { result.words ≡ words }
        ensures map { result.map ≡ map }
        ensures regions { RegionsPacked result.map (contents result.map (W.words result.words)) }
    {
        Core { words, map }
    }

    /// Makes a call of a thread. Where a new object doesn't fit the thread's current page and no page is free, and where an end
    /// needs more pages than are free, one collection of the control space comes first.
    #[inline(always)]
    pub fn step(&mut self, thread: u8, call: Call) -> Stepped
        requires thread { HasThread self.old.map thread }
        requires number { IsCall call }
        ensures done { Done self.old.map (contents self.old.map (W.words self.old.words)) (contents self.new.map (W.words self.new.words)) thread call result }
        ensures turns { (s : SpaceState) (h : Stands self.old.map (contents self.old.map (W.words self.old.words)) s) → (after : SpaceState) × TurnsAll s (entries thread call result) after × (later : Stands self.new.map (contents self.new.map (W.words self.new.words)) after) × (Recorded self.old.map (contents self.old.map (W.words self.old.words)) s h → Recorded self.new.map (contents self.new.map (W.words self.new.words)) after later) }
        ensures lawful { (s : SpaceState) (h : Stands self.old.map (contents self.old.map (W.words self.old.words)) s) → Recorded self.old.map (contents self.old.map (W.words self.old.words)) s h → (before : List Entry) → PackedIfAsked self.old.map (contents self.old.map (W.words self.old.words)) s h before → AreLawful self.old.map.pages before s (entries thread call result) }
        ensures collected { (s : SpaceState) (h : Stands self.old.map (contents self.old.map (W.words self.old.words)) s) → CollectsWhere self.old.map (contents self.old.map (W.words self.old.words)) s h thread call result.reply result.collected }
        ensures full { TellsFull (contents self.new.map (W.words self.new.words)) result.reply result.full }
        ensures filled { (s : SpaceState) (h : Stands self.new.map (contents self.new.map (W.words self.new.words)) s) → FillsHeap self.new.map (contents self.new.map (W.words self.new.words)) s h thread call result.reply }
        ensures shortage { (s : SpaceState) (h : Stands self.old.map (contents self.old.map (W.words self.old.words)) s) → TellsShortage self.old.map (contents self.old.map (W.words self.old.words)) s h thread result.reply result.shortage }
        ensures ended { EndsSo self.old.map (contents self.old.map (W.words self.old.words)) (contents self.new.map (W.words self.new.words)) thread call result }
        ensures census { TellsPages (contents self.old.map (W.words self.old.words)) call result.reply }
        ensures packed { call ≡ Call.Collect → (s : SpaceState) (h : Stands self.new.map (contents self.new.map (W.words self.new.words)) s) → IsPacked self.new.map (contents self.new.map (W.words self.new.words)) s h Control }
        ensures regions { RegionsPacked self.new.map (contents self.new.map (W.words self.new.words)) }
        ensures records { (s : SpaceState) (h : Stands self.old.map (contents self.old.map (W.words self.old.words)) s) → StepRecords self.old.map (contents self.old.map (W.words self.old.words)) (contents self.new.map (W.words self.new.words)) s h thread call result.reply result.collected }
        ensures idle { IsIdle call result.reply → contents self.new.map (W.words self.new.words) ≡ contents self.old.map (W.words self.old.words) }
        ensures room { StepRoom self.old.map (contents self.old.map (W.words self.old.words)) (contents self.new.map (W.words self.new.words)) thread call result.reply result.collected }
        ensures reads { (s : SpaceState) (h : Stands self.old.map (contents self.old.map (W.words self.old.words)) s) → ReadsFew self.old.map (contents self.old.map (W.words self.old.words)) (contents self.new.map (W.words self.new.words)) s h thread call result (W.reads self.old.words) (W.reads self.new.words) }
        ensures map { self.new.map ≡ self.old.map }
        ensures base { W.base self.new.words ≡ W.base self.old.words }
    {
        answer(&mut self.words, self.map, thread, call)
    }

    /// The number of threads.
    pub fn threads(&self) -> u8
        ensures { result ≡ self.now.map.threads }
    {
        self.map.threads
    }

    /// The number of pages.
    pub fn pages(&self) -> u32
        ensures { result ≡ self.now.map.pages }
    {
        self.map.pages
    }

    /// The words of the heap.
    pub fn into_words(self) -> W
        ensures { result ≡ self.words }
    {
        self.words
    }
}

impl<W: Words> Core<W> {
    ghost use Rattle.heap_words.specs.Contents.{depth_of};
    ghost use Rattle.yak_model.specs.Lawful.{present_words};
    ghost use Rattle.heap_core.specs.Callers.{words_used};

    /// The depth of a thread: how many epochs it has open.
    pub fn depth(&mut self, thread: u8) -> u8
        requires thread { HasThread self.old.map thread }
        ensures depth { result ≡ depth_of (contents self.old.map (W.words self.old.words)) thread }
        ensures words { W.words self.new.words ≡ W.words self.old.words }
        ensures map { self.new.map ≡ self.old.map }
        ensures base { W.base self.new.words ≡ W.base self.old.words }
    {
        get_depth(&mut self.words, self.map, thread)
    }

    /// The words of all objects that are present.
    pub(crate) fn present_words(&mut self) -> u64
        ensures present { (s : SpaceState) → Stands self.old.map (contents self.old.map (W.words self.old.words)) s → result ≡ present_words s }
        ensures used { result ≡ words_used (contents self.old.map (W.words self.old.words)).table }
        ensures words { W.words self.new.words ≡ W.words self.old.words }
        ensures map { self.new.map ≡ self.old.map }
        ensures base { W.base self.new.words ≡ W.base self.old.words }
    {
        words_in_use(&mut self.words, self.map)
    }
}

#[cfg(test)]
mod tests {
    use super::*;
    use std::test::Fail;

    // The slots that are recorded are 200 fields of an object of Control that refer into the region of thread 2.
    #[test]
    fn an_end_reads_no_slot_of_another_region(rt: HostRuntime) -> Result<(), Fail> {
        let mut core = match Core::new(rt.alloc(), 64, 2) {
            Ok(core) => core,
            Err(error) => panic!(rt; "no heap: {error}"),
        };
        assert_eq!(rt; core.step(2, Call::Begin).reply, Reply::Ok);
        assert_eq!(rt; core.step(2, Call::New(0)).reply, Reply::Ok);
        assert_eq!(rt; core.step(2, Call::Store(0, 0, 1)).reply, Reply::Ok);
        assert_eq!(rt; core.step(1, Call::Load(0, 0)).reply, Reply::Ok);
        assert_eq!(rt; core.step(1, Call::New(200)).reply, Reply::Ok);
        for field in 0..200 {
            assert_eq!(rt; core.step(1, Call::Store(2, field, 1)).reply, Reply::Ok);
        }
        assert_eq!(rt; core.step(1, Call::Begin).reply, Reply::Ok);
        assert_eq!(rt; core.step(1, Call::New(0)).reply, Reply::Ok);
        let before = core.words.reads();
        assert_eq!(rt;
            core.step(1, Call::End).reply,
            Reply::Ended {
                moved: 1,
                tight: false
            }
        );
        assert!(rt; core.words.reads() <= before.saturating_add(8956));
        Ok(())
    }

    // Of 4,096 pages the control space has one and the region another one.
    #[test]
    fn an_end_reads_no_page_behind_the_last_one_in_use(rt: HostRuntime) -> Result<(), Fail> {
        let mut core = match Core::new(rt.alloc(), 4096, 1) {
            Ok(core) => core,
            Err(error) => panic!(rt; "no heap: {error}"),
        };
        assert_eq!(rt; core.step(1, Call::Begin).reply, Reply::Ok);
        assert_eq!(rt; core.step(1, Call::New(0)).reply, Reply::Ok);
        let before = core.words.reads();
        assert_eq!(rt;
            core.step(1, Call::End).reply,
            Reply::Ended {
                moved: 1,
                tight: false
            }
        );
        assert!(rt; core.words.reads() <= before.saturating_add(1000));
        assert_eq!(rt;
            core.step(1, Call::Census).reply,
            Reply::Pages {
                free: 4095,
                region: 0,
                control: 1
            }
        );
        Ok(())
    }
}
