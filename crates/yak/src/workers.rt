//! Counts by workers with threads of their own.

use crate::plain::KeptHeap;
use crate::shared::asked_count;
use crate::tests::split_words;
use crate::threaded::run;
use object_layout::WORD_LIMIT;
use std::alloc::Global;
use std::sync::atomic::{AtomicU64, Ordering};
use std::test::Fail;
use yak_io::{Brake, MemorySink, MemorySource, NoBrake, SureSource};

const LINES: &str = "the cat saw the dog\nthe dog ran\n";

const COUNTS: &str = "1 cat\n2 dog\n1 ran\n1 saw\n3 the\n";

const USAGE: &str =
    "usage: yak replay | threads | count [--workers n] [--task lines] [--pages p] [--feed] | gen n | trace | check\n";

// The most turns that a worker waits for the other.
const TURNS: u64 = 100_000_000;

// The pages and the threads of a heap that threads shared, where one is kept.
fn kept_shared(kept: KeptHeap) -> Option<(u32, u8)> {
    match kept {
        KeptHeap::Alone(_core) => None,
        KeptHeap::Shared(finished) => {
            let map = finished.map();
            Some((map.pages, map.threads))
        }
        KeptHeap::Nothing => None,
    }
}

#[test]
fn workers_count_words(rt: HostRuntime) -> Result<(), Fail> {
    let alloc = rt.alloc();
    for (line, text, status, written, heap) in [
        ("count --task 1", "b a b\n", 0, "1 a\n2 b\n", None),
        (
            "count --task 1 --workers 2",
            "b a b\n",
            0,
            "1 a\n2 b\n",
            Some((4096, 2)),
        ),
        (
            "count --task 1 --workers=8",
            "b a b\n",
            0,
            "1 a\n2 b\n",
            Some((4096, 8)),
        ),
        ("count --workers 2", "", 0, "", Some((4096, 2))),
        ("count --workers 8 --task 1", "\n", 0, "", Some((4096, 8))),
        (
            "count --workers 2 --task=1",
            LINES,
            0,
            COUNTS,
            Some((4096, 2)),
        ),
        (
            "count --workers 8 --pages=40",
            LINES,
            0,
            COUNTS,
            Some((40, 8)),
        ),
        ("count", LINES, 0, COUNTS, None),
        ("count --pages 1", "b a b", 7, "", None),
        ("count --workers 2 --pages 1", "b a b", 7, "", Some((1, 2))),
        ("count --pages 1 --workers 8", "b a b", 7, "", Some((1, 8))),
        (
            "count --feed --workers 3 --task 1",
            LINES,
            0,
            COUNTS,
            Some((4096, 3)),
        ),
        ("count --task 1 --feed", LINES, 0, COUNTS, Some((4096, 1))),
        ("count --feed --workers 2", "", 0, "", Some((4096, 2))),
        ("count --feed --task 1", "\n", 0, "", Some((4096, 1))),
        ("count --feed --pages 1", "b a b", 7, "", Some((1, 1))),
        (
            "count --pages 1 --workers 8 --feed",
            "b a b",
            7,
            "",
            Some((1, 8)),
        ),
        ("count --feed --feed", LINES, 1, USAGE, None),
    ] {
        let args = split_words(alloc, line)?;
        let mut source = SureSource::new(Vec::from_slice(alloc, text.as_bytes())?);
        let mut sink = MemorySink::new(alloc, 200, Vec::new(alloc))?;
        let mut kept = KeptHeap::Nothing;
        let ended = run(
            &rt,
            alloc,
            &args,
            &mut source,
            &mut sink,
            &NoBrake,
            &mut kept,
        );
        assert_eq!(rt; ended, status, "{line}");
        assert_eq!(rt; sink.written(), written.as_bytes(), "{line}");
        assert!(rt; kept_shared(kept) == heap, "{line}");
    }
    Ok(())
}

#[test]
fn any_workers_and_tasks_give_the_same_bytes(rt: HostRuntime) -> Result<(), Fail> {
    let alloc = rt.alloc();
    let text = "a b\r\n\nc b a\n\t \nb\nd  d d\na\n\nc a b\nlast";
    let counts = "4 a\n4 b\n2 c\n3 d\n1 last\n";
    for workers in 1..=8u32 {
        for task in [1u32, 2, 3, 64] {
            for feed in ["", "--feed"] {
                let line = format!(in alloc;
                    "count {feed} --workers {workers} --task {task} --pages 64"
                )?;
                let args = split_words(alloc, &line)?;
                let mut source = SureSource::new(Vec::from_slice(alloc, text.as_bytes())?);
                let mut sink = MemorySink::new(alloc, 100, Vec::new(alloc))?;
                let mut kept = KeptHeap::Nothing;
                let ended = run(
                    &rt,
                    alloc,
                    &args,
                    &mut source,
                    &mut sink,
                    &NoBrake,
                    &mut kept,
                );
                assert_eq!(rt; ended, 0, "{line}");
                assert_eq!(rt; sink.written(), counts.as_bytes(), "{line}");
            }
        }
    }
    Ok(())
}

// Holds each of two workers before its first task until the other is held before its own.
#[derive(Drop)]
struct Meeting {
    first: AtomicU64,
    second: AtomicU64,
    missed: AtomicU64,
}

impl Meeting {
    // Tells that a worker is held, and waits for the other, unless the worker was held before.
    fn meet(&self, own: &AtomicU64, other: &AtomicU64) {
        if own.load(Ordering::SeqCst) == 1 {
            return;
        }
        own.store(1, Ordering::SeqCst);
        for _ in 0..TURNS {
            if other.load(Ordering::SeqCst) == 1 {
                return;
            }
        }
        self.missed.fetch_add(1, Ordering::SeqCst);
    }
}

impl Brake for Meeting {
    fn hold(&self, thread: u32, _task: u64) {
        if thread == 1 {
            self.meet(&self.first, &self.second);
        } else {
            self.meet(&self.second, &self.first);
        }
    }
}

#[test]
fn two_workers_meet(rt: HostRuntime) -> Result<(), Fail> {
    let alloc = rt.alloc();
    for line in [
        "count --workers 2 --task=1",
        "count --feed --workers 2 --task 1",
    ] {
        let args = split_words(alloc, line)?;
        let mut source = SureSource::new(Vec::from_slice(alloc, LINES.as_bytes())?);
        let mut sink = MemorySink::new(alloc, 100, Vec::new(alloc))?;
        let mut kept = KeptHeap::Nothing;
        let brake = Meeting {
            first: AtomicU64::new(0),
            second: AtomicU64::new(0),
            missed: AtomicU64::new(0),
        };
        let ended = run(&rt, alloc, &args, &mut source, &mut sink, &brake, &mut kept);
        assert_eq!(rt; ended, 0, "{line}");
        assert_eq!(rt; sink.written(), COUNTS.as_bytes(), "{line}");
        assert_eq!(rt; brake.first.load(Ordering::SeqCst), 1, "{line}");
        assert_eq!(rt; brake.second.load(Ordering::SeqCst), 1, "{line}");
        assert_eq!(rt; brake.missed.load(Ordering::SeqCst), 0, "{line}");
    }
    Ok(())
}

#[test]
fn workers_tell_long_words(rt: HostRuntime) -> Result<(), Fail> {
    let alloc = rt.alloc();
    for (line, letters, status) in [
        ("count --workers 2 --task 1", WORD_LIMIT, 0),
        ("count --workers 2 --task 1", WORD_LIMIT + 1, 8),
        ("count --feed --task 1", WORD_LIMIT, 0),
        ("count --feed --task 1", WORD_LIMIT + 1, 8),
    ] {
        let args = split_words(alloc, line)?;
        let word = vec![in alloc; b'c'; letters as usize]?;
        let mut text = Vec::from_slice(alloc, b"b\n")?;
        text.extend_from_slice(&word)?;
        let mut want = Vec::new(alloc);
        if status == 0 {
            want.extend_from_slice(b"1 b\n1 ")?;
            want.extend_from_slice(&word)?;
            want.push(b'\n')?;
        } else {
            want.extend_from_slice(b"line 2: long word\n")?;
        }
        let mut source = SureSource::new(text);
        let mut sink = MemorySink::new(alloc, 2000, Vec::new(alloc))?;
        let mut kept = KeptHeap::Nothing;
        let ended = run(
            &rt,
            alloc,
            &args,
            &mut source,
            &mut sink,
            &NoBrake,
            &mut kept,
        );
        assert_eq!(rt; ended, status, "{line}");
        assert_eq!(rt; sink.written(), want.as_slice(), "{line}");
        assert_eq!(rt; kept_shared(kept).is_some(), status == 0, "{line}");
    }
    Ok(())
}

#[test]
fn a_fault_ends_a_count_by_workers(rt: HostRuntime) -> Result<(), Fail> {
    let alloc = rt.alloc();
    for (line, failing, room, status, written) in [
        ("count --workers 2 --task 1", 2u32, 100, 3, ""),
        ("count --workers 2 --task 1", 9, 4, 4, "1 a\n"),
        ("count --feed --workers 2 --task 1", 2, 100, 3, ""),
        ("count --feed --workers 2 --task 1", 9, 4, 4, "1 a\n"),
    ] {
        let args = split_words(alloc, line)?;
        assert!(rt; asked_count(&args).is_some(), "{line}");
        let fails = Vec::from_slice(alloc, &[failing])?;
        let mut source = MemorySource::new(Vec::from_slice(alloc, b"b a b\n")?, 5, fails);
        let mut sink = MemorySink::new(alloc, room, Vec::new(alloc))?;
        let mut kept = KeptHeap::Nothing;
        let ended = run(
            &rt,
            alloc,
            &args,
            &mut source,
            &mut sink,
            &NoBrake,
            &mut kept,
        );
        assert_eq!(rt; ended, status, "{line}");
        assert_eq!(rt; sink.written(), written.as_bytes(), "{line}");
        assert!(rt; kept_shared(kept).is_none(), "{line}");
    }
    Ok(())
}
