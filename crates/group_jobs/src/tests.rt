ghost use Rattle.std.specs.Prelude.{◌≡◌, ◌≤◌, ℕ, false, true, length, OnOk};
ghost use Rattle.heap_words.specs.Map.{IsAreas};
ghost use Rattle.group_jobs.specs.LongWords.{has_long_word};
ghost use Rattle.object_layout.specs.declared.TheConstants.{WORD_LIMIT};
ghost use Rattle.heap_tables.specs.Cursors.{HasTableWalk};
ghost use Rattle.heap_tables.specs.Runs.{KnowsSome, stack_in};
ghost use Rattle.group_jobs.specs.declared.TheConstants.{PART_SLOT, TOTAL_SLOT};
ghost use Rattle.yak_io.specs.declared.TheConstants.{INPUT_LIMIT};

use crate::count::open_heap;
use crate::{
    CountError, TOTAL_SLOT, TextWords, WordCount, count_fed, count_many, count_one, cut_tasks,
    long_word, print_counts, sort_counts,
};
use heap_tables::{AddError, Cursor, Entry, add, add_checked, count_of, make, next_entry};
use heap_words::{MAX_PAGES, MAX_THREADS};
use object_layout::{MAX_INT, NoMemory, OutOfHeap, WORD_LIMIT};
use std::alloc::Global;
use std::sync::Wait;
use std::sync::atomic::{AtomicU64, Ordering};
use std::test::Fail;
use std::thread;
use std::thread::Threads;
use yak_io::{Brake, INPUT_LIMIT, NoBrake};
use yak_model::Caller;

#[test]
fn cuts_a_text_into_tasks(rt: HostRuntime) -> Result<(), Fail> {
    let alloc = rt.alloc();
    for (text, lines, want) in [
        ("", 1, ""),
        ("a\nb\nc\n", 2, "0..4 4..6 "),
        ("a\nb\nc", 2, "0..4 4..5 "),
        ("a\nb\nc", 64, "0..5 "),
        ("\n\n", 1, "0..1 1..2 "),
    ] {
        let mut told = String::new(alloc);
        match cut_tasks(alloc, text.as_bytes(), lines) {
            Ok(tasks) => {
                for task in &tasks {
                    let start = task.start;
                    let end = task.end;
                    write!(told, "{start}..{end} ")?;
                }
            }
            Err(error) => panic!(rt; "no tasks: {error}"),
        }
        assert_eq!(rt; told.as_str(), want, "{text}");
    }
    Ok(())
}

#[test]
fn tells_the_line_of_a_long_word(rt: HostRuntime) -> Result<(), Fail> {
    let alloc = rt.alloc();
    let limit = WORD_LIMIT as usize;
    let longest = vec![in alloc; b'a'; limit]?;
    assert_eq!(rt; long_word(&longest), None);
    let mut text = vec![in alloc; b'b'; limit]?;
    text.extend_from_slice(b"\r\n\n c")?;
    text.extend_from_slice(&longest)?;
    assert_eq!(rt; long_word(&text), Some(3));
    Ok(())
}

#[test]
fn prints_the_words_of_a_text_in_order(rt: HostRuntime) -> Result<(), Fail> {
    let alloc = rt.alloc();
    let mut words = TextWords::of(b" the\tcat\r\nat \n\nhe");
    let mut list = Vec::new(alloc);
    for count in [3, 1, 40, 2] {
        let Some(word) = words.next() else {
            panic!(rt; "a word is missing");
        };
        list.push(WordCount {
            word: word.to_vec(alloc)?,
            count,
        })?;
    }
    assert!(rt; words.next().is_none());
    sort_counts(&mut list);
    match print_counts(alloc, &list) {
        Ok(text) => {
            assert_eq!(rt; text.as_slice(), b"40 at\n1 cat\n2 he\n3 the\n".as_slice());
        }
        Err(error) => panic!(rt; "no text: {error}"),
    }
    Ok(())
}

#[test]
fn counts_texts_alone(rt: HostRuntime) -> Result<(), Fail> {
    let alloc = rt.alloc();
    for (text, pages, want) in [
        ("b a b\n", 16, "1 a\n2 b\n"),
        ("", 1, ""),
        ("\n", 1, ""),
        (
            "the cat saw the dog\nthe dog ran\n",
            16,
            "1 cat\n2 dog\n1 ran\n1 saw\n3 the\n",
        ),
        ("b a b", 1, "out of heap"),
    ] {
        let bytes = text.as_bytes();
        if bytes.len() > INPUT_LIMIT
            || pages == 0
            || pages > MAX_PAGES
            || long_word(bytes).is_some()
        {
            panic!(rt; "no such count");
        }
        match count_one(alloc, pages, 1, bytes) {
            Ok(counted) => match print_counts(alloc, &counted.list) {
                Ok(told) => {
                    assert_eq!(rt; told.as_slice(), want.as_bytes(), "{text}");
                }
                Err(error) => panic!(rt; "no text: {error}"),
            },
            Err(CountError::OutOfHeap(census, ())) => {
                assert_eq!(rt; census.free, 0);
                assert_eq!(rt; want, "out of heap", "{text}");
            }
            Err(CountError::Memory) => panic!(rt; "no memory"),
        }
    }
    Ok(())
}

/// Makes a table, and adds 1 to the count of a word twice.
fn add_twice<C: Caller>(caller: &mut C, word: &[u8]) -> Result<(), OutOfHeap>
    requires some { KnowsSome (C.knows caller.old) }
    requires word { length word.now ≤ WORD_LIMIT }
    requires slots { length (stack_in (C.standing caller.old)) ≡ TOTAL_SLOT }
    requires names { (C.standing caller.old).own.made ≡ 0 }
    ensures table { OnOk result (HasTableWalk (C.standing caller.new) (C.knows caller.new) TOTAL_SLOT) }
    ensures slots { OnOk result (length (stack_in (C.standing caller.new)) ≡ PART_SLOT) }
{
    make(caller)?;
    add(caller, TOTAL_SLOT, word, 1)?;
    add(caller, TOTAL_SLOT, word, 1)
}

/// The next entry of the walk through that table.
fn walk_on<C: Caller>(alloc: Global, caller: &mut C, at: Cursor) -> Result<Option<Entry>, NoMemory>
    requires table { HasTableWalk (C.standing caller.old) (C.knows caller.old) TOTAL_SLOT }
    requires slots { length (stack_in (C.standing caller.old)) ≡ PART_SLOT }
    ensures table { HasTableWalk (C.standing caller.new) (C.knows caller.new) TOTAL_SLOT }
    ensures slots { length (stack_in (C.standing caller.new)) ≡ PART_SLOT }
{
    next_entry(alloc, caller, TOTAL_SLOT, at)
}

/// The count of a word in that table.
fn look<C: Caller>(caller: &mut C, word: &[u8]) -> Option<u64>
    requires table { HasTableWalk (C.standing caller.old) (C.knows caller.old) TOTAL_SLOT }
    requires word { length word.now ≤ WORD_LIMIT }
    requires slots { length (stack_in (C.standing caller.old)) ≡ PART_SLOT }
    ensures table { HasTableWalk (C.standing caller.new) (C.knows caller.new) TOTAL_SLOT }
    ensures slots { length (stack_in (C.standing caller.new)) ≡ PART_SLOT }
{
    count_of(caller, TOTAL_SLOT, word)
}

#[test]
fn walks_through_a_table(rt: HostRuntime) -> Result<(), Fail> {
    let alloc = rt.alloc();
    let Ok(mut caller) = open_heap(alloc, 8) else {
        panic!(rt; "no heap");
    };
    let Ok(()) = add_twice(&mut caller, b"a") else {
        panic!(rt; "no room");
    };
    let start = Cursor {
        bucket: 0,
        place: 0,
    };
    let Ok(Some(entry)) = walk_on(alloc, &mut caller, start) else {
        panic!(rt; "no entry");
    };
    assert_eq!(rt; entry.word.as_slice(), b"a".as_slice());
    assert_eq!(rt; entry.count, 2);
    assert_eq!(rt; look(&mut caller, b"a"), Some(2));
    assert_eq!(rt; look(&mut caller, b"b"), None);
    let Ok(None) = walk_on(alloc, &mut caller, entry.next) else {
        panic!(rt; "no end");
    };
    Ok(())
}

/// Makes a table, adds the greatest integer to the count of a word, and then 1. It gives the answer to that and the count.
fn add_past_limit<C: Caller>(
    caller: &mut C,
    word: &[u8],
) -> Result<(Result<(), AddError>, Option<u64>), AddError>
    requires some { KnowsSome (C.knows caller.old) }
    requires word { length word.now ≤ WORD_LIMIT }
    requires slots { length (stack_in (C.standing caller.old)) ≡ TOTAL_SLOT }
    requires names { (C.standing caller.old).own.made ≡ 0 }
{
    make(caller)?;
    add_checked(caller, TOTAL_SLOT, word, MAX_INT)?;
    let more = add_checked(caller, TOTAL_SLOT, word, 1);
    let count = count_of(caller, TOTAL_SLOT, word);
    Ok((more, count))
}

#[test]
fn a_sum_that_is_too_large_is_not_added(rt: HostRuntime) -> Result<(), Fail> {
    let Ok(mut caller) = open_heap(rt.alloc(), 8) else {
        panic!(rt; "no heap");
    };
    match add_past_limit(&mut caller, b"a") {
        Ok((more, count)) => {
            assert_eq!(rt; more, Err(AddError::TooLarge));
            assert_eq!(rt; count, Some(MAX_INT));
        }
        Err(_) => panic!(rt; "no room"),
    }
    Ok(())
}

/// Whether a text may be counted by so many workers in a heap of so many pages.
fn may_count(pages: u32, workers: u8, bytes: &[u8]) -> bool
    ensures size { result ≡ true → IsAreas (record { pages = pages; threads = workers }) }
    ensures short { result ≡ true → length bytes.now ≤ INPUT_LIMIT }
    ensures words { result ≡ true → has_long_word bytes.now ≡ false }
{
    pages > 0
        && pages <= MAX_PAGES
        && workers > 0
        && workers <= MAX_THREADS
        && bytes.len() <= INPUT_LIMIT
        && long_word(bytes).is_none()
}

/// Counts a text by workers with fixed shares, or by workers that take the tasks from a feed, in tasks of one line.
fn count_shared<R: Threads + Wait + Sync, B: Brake + Sync>(
    rt: &R,
    alloc: Global,
    bytes: &[u8],
    pages: u32,
    workers: u8,
    fed: bool,
    brake: &B,
) -> Option<Vec<WordCount>> {
    if !may_count(pages, workers, bytes) {
        return None;
    }
    if fed {
        return match count_fed(rt, alloc, pages, workers, 1, bytes, brake) {
            Ok(fed) => Some(fed.list),
            Err(_) => None,
        };
    }
    match count_many(rt, alloc, pages, workers, 1, bytes, brake) {
        Ok(counts) => Some(counts.list),
        Err(_) => None,
    }
}

#[test]
fn counts_texts_by_workers(rt: HostRuntime) -> Result<(), Fail> {
    let alloc = rt.alloc();
    for (text, want) in [
        ("b a b\n", "1 a\n2 b\n"),
        ("", ""),
        ("\n", ""),
        (
            "the cat saw the dog\nthe dog ran\n",
            "1 cat\n2 dog\n1 ran\n1 saw\n3 the\n",
        ),
    ] {
        for (workers, fed) in [
            (1, false),
            (2, false),
            (8, false),
            (1, true),
            (2, true),
            (3, true),
            (8, true),
        ] {
            let Some(list) = count_shared(&rt, alloc, text.as_bytes(), 64, workers, fed, &NoBrake)
            else {
                panic!(rt; "no counts");
            };
            match print_counts(alloc, &list) {
                Ok(told) => {
                    assert_eq!(rt; told.as_slice(), want.as_bytes(), "{text}");
                }
                Err(error) => panic!(rt; "no text: {error}"),
            }
        }
    }
    Ok(())
}

#[test]
fn finds_words_far_back_in_a_chain(rt: HostRuntime) -> Result<(), Fail> {
    let alloc = rt.alloc();
    let letters = b"abcdefghijklmnopqrstuvwxyz";
    let mut lines = Vec::new(alloc);
    let mut want = Vec::new(alloc);
    for a in letters {
        for b in letters {
            for c in letters {
                // words of one bucket, more than the stack has room for
                if (961 * u32::from(*a) + 31 * u32::from(*b) + u32::from(*c)) % 128 == 7 {
                    lines.extend_from_slice(&[*a, *b, *c, b'\n'])?;
                    want.extend_from_slice(&[b'3', b' ', *a, *b, *c, b'\n'])?;
                }
            }
        }
    }
    let mut text = Vec::new(alloc);
    for _ in 0..3 {
        text.extend_from_slice(&lines)?;
    }
    if !may_count(64, 1, &text) {
        panic!(rt; "no such count");
    }
    match count_one(alloc, 64, 16, &text) {
        Ok(counted) => match print_counts(alloc, &counted.list) {
            Ok(told) => assert_eq!(rt; told.as_slice(), want.as_slice()),
            Err(error) => panic!(rt; "no text: {error}"),
        },
        Err(_) => panic!(rt; "no counts"),
    }
    let Some(list) = count_shared(&rt, alloc, &text, 64, 2, true, &NoBrake) else {
        panic!(rt; "no counts");
    };
    match print_counts(alloc, &list) {
        Ok(told) => assert_eq!(rt; told.as_slice(), want.as_slice()),
        Err(error) => panic!(rt; "no text: {error}"),
    }
    Ok(())
}

#[test]
fn a_feed_runs_out_of_heap(rt: HostRuntime) -> Result<(), Fail> {
    let text = b"b a b";
    if !may_count(1, 1, text) {
        panic!(rt; "no such count");
    }
    match count_fed(&rt, rt.alloc(), 1, 1, 1, text, &NoBrake) {
        Err(CountError::OutOfHeap(census, _)) => assert_eq!(rt; census.free, 0),
        _ => panic!(rt; "there is room"),
    }
    Ok(())
}

/// The most turns that a worker waits for the other.
const TURNS: u64 = 100_000_000;

/// Holds each of two workers before its first task until the other one is held before its own.
#[derive(Drop)]
struct Meeting {
    first: AtomicU64,
    second: AtomicU64,
    missed: AtomicU64,
}

impl Brake for Meeting {
    fn hold(&self, thread: u32, _task: u64) {
        let (mine, other) = if thread == 1 {
            (&self.first, &self.second)
        } else {
            (&self.second, &self.first)
        };
        if mine.fetch_add(1, Ordering::SeqCst) > 0 {
            return;
        }
        for _ in 0..TURNS {
            if other.load(Ordering::SeqCst) > 0 {
                return;
            }
            thread::yield_now();
        }
        self.missed.fetch_add(1, Ordering::SeqCst);
    }
}

#[test]
fn two_workers_meet(rt: HostRuntime) -> Result<(), Fail> {
    let alloc = rt.alloc();
    for fed in [false, true] {
        let brake = Meeting {
            first: AtomicU64::new(0),
            second: AtomicU64::new(0),
            missed: AtomicU64::new(0),
        };
        let text = b"the cat saw the dog\nthe dog ran\n";
        let Some(list) = count_shared(&rt, alloc, text, 64, 2, fed, &brake) else {
            panic!(rt; "no counts");
        };
        assert_eq!(rt; list.len(), 5);
        assert_eq!(rt; brake.missed.load(Ordering::SeqCst), 0);
    }
    Ok(())
}
