//! Which words a step reads: those of a heap that tells whether any of a run of places was read.

ghost use Rattle.std.specs.Prelude.{◌≡◌, ◌≤◌};
ghost use Rattle.heap_words.specs.Map.{HasThread};

use heap_core::Core;
use heap_words::{CURRENT_PAGES, Image, MAX_DEPTH, STACK_SLOTS, Words};
use object_layout::{Call, Reply};
use std::alloc::Global;
use std::test::Fail;

// The words of a heap, and whether any place from `first` on and before `behind` was read.
#[derive(Drop)]
struct Watched {
    image: Image,
    first: usize,
    behind: usize,
    seen: bool,
}

impl Words for Watched {
    ghost use Rattle.heap_words.specs.declared.map.Areas.{Areas};

    ghost Base = { Areas };

    ghost words = { λ s. s.image.words.items };

    ghost reads = { λ s. s.image.reads };

    ghost base = { λ s. s.image.map };

    ghost map = { λ m. m };

    ghost gate_hidden = { λ s. s.image.gate_zero };

    ghost within_limits = { λ s. s.image.areas };

    ghost whole = { λ s. s.image.whole };

    fn get(&mut self, i: usize) -> u64 {
        if i >= self.first && i < self.behind {
            self.seen = true;
        }
        self.image.get(i)
    }

    fn set(&mut self, i: usize, word: u64) {
        self.image.set(i, word);
    }
}

// The heap over the same words, which tell whether any slot of a thread's stack was read.
fn watch(core: Core<Image>, thread: u8) -> Core<Watched>
    requires { HasThread core.map thread }
    ensures { result.map ≡ core.map }
{
    let image = core.into_words();
    let map = image.map();
    let first = map.block(thread) + CURRENT_PAGES + 1 + MAX_DEPTH as usize;
    let watched = Watched {
        image,
        first,
        behind: first + STACK_SLOTS,
        seen: false,
    };
    Core::over(watched, map)
}

// Makes an object in an epoch of thread 1, to which thread 2 comes by the root.
fn share_object(core: &mut Core<Image>) -> bool
    requires { 3 ≤ core.old.map.threads }
    ensures { core.new.map ≡ core.old.map }
{
    let begun = core.step(1, Call::Begin).reply;
    let made = core.step(1, Call::New(2)).reply;
    let stored = core.step(1, Call::Store(0, 0, 1)).reply;
    let loaded = core.step(2, Call::Load(0, 0)).reply;
    begun == Reply::Ok && made == Reply::Ok && stored == Reply::Ok && loaded == Reply::Ok
}

// Whether the end of that epoch reads a slot of a thread's stack.
fn end_reads_stack(alloc: Global, thread: u8) -> Option<bool>
    requires { (1 ≤ thread) × (thread ≤ 3) }
{
    let Ok(mut core) = Core::new(alloc, 8, 3) else {
        return None;
    };
    if !share_object(&mut core) {
        return None;
    }
    let mut core = watch(core, thread);
    let moved = Reply::Ended {
        moved: 1,
        tight: false,
    };
    if core.step(1, Call::End).reply != moved {
        return None;
    }
    Some(core.into_words().seen)
}

#[test]
fn an_end_reads_the_stacks_of_the_owner_and_the_readers_alone(rt: HostRuntime) -> Result<(), Fail> {
    let alloc = rt.alloc();
    assert_eq!(rt; end_reads_stack(alloc, 1), Some(true));
    assert_eq!(rt; end_reads_stack(alloc, 2), Some(true));
    assert_eq!(rt; end_reads_stack(alloc, 3), Some(false));
    Ok(())
}
