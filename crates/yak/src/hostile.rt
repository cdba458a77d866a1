//! Hostile use: input that is cut or odd, ends that fail, the greatest input, threads that are held back, and names that are spent.

ghost use Rattle.std.specs.Prelude.{◌≡◌, IfSome};

use crate::plain::KeptHeap;
use crate::tests::{FIRST_PATH, split_words};
use crate::threaded::run;
use heap_core::Core;
use heap_words::{Image, set_made};
use object_layout::{Call, MAX_SERIAL, Refusal, Reply};
use std::alloc::{AllocError, Global};
use std::sync::Wait;
use std::sync::atomic::{AtomicU64, Ordering};
use std::test::Fail;
use std::thread;
use std::thread::Threads;
use yak_io::{
    Brake, Failed, INPUT_LIMIT, MemorySink, MemorySource, NoBrake, Sink, Source, SureSource,
};

const FIRST_REPLIES: &[u8] = b"2 ok\n3 int 7\n";

// The most turns that a thread waits for others.
const TURNS: u32 = 10_000_000;

// The status with which a command ends.
fn status_of<R: Threads + Wait + Sync, S: Source, K: Sink, B: Brake + Sync>(
    rt: &R,
    alloc: Global,
    command: &str,
    source: &mut S,
    sink: &mut K,
    brake: &B,
) -> Result<u8, AllocError> {
    let args = split_words(alloc, command)?;
    let mut kept = KeptHeap::Nothing;
    Ok(run(rt, alloc, &args, source, sink, brake, &mut kept))
}

// The status with which a command on a text ends, and what it writes.
fn answer<R: Threads + Wait + Sync, B: Brake + Sync>(
    rt: &R,
    alloc: Global,
    command: &str,
    text: &[u8],
    brake: &B,
) -> Result<(u8, MemorySink), AllocError> {
    let mut source = SureSource::new(Vec::from_slice(alloc, text)?);
    let Ok(mut sink) = MemorySink::new(alloc, 2000, Vec::new(alloc)) else {
        return Err(AllocError);
    };
    let status = status_of(rt, alloc, command, &mut source, &mut sink, brake)?;
    Ok((status, sink))
}

// Whether a script has these replies on one core, and is run in threads, where the replies may differ.
fn is_run<R: Threads + Wait + Sync>(
    rt: &R,
    alloc: Global,
    script: &[u8],
    replies: &[u8],
) -> Result<bool, AllocError> {
    let (status, sink) = answer(rt, alloc, "replay", script, &NoBrake)?;
    let (in_threads, _sink) = answer(rt, alloc, "threads", script, &NoBrake)?;
    Ok((status, in_threads) == (0, 0) && sink.written() == replies)
}

// Whether a text is refused on one core and in threads, with a line that begins so.
fn is_refused<R: Threads + Wait + Sync>(
    rt: &R,
    alloc: Global,
    text: &[u8],
    told: &str,
) -> Result<bool, AllocError> {
    let (status, sink) = answer(rt, alloc, "replay", text, &NoBrake)?;
    let (in_threads, in_threads_sink) = answer(rt, alloc, "threads", text, &NoBrake)?;
    let same = in_threads_sink.written() == sink.written();
    Ok((status, in_threads) == (2, 2) && same && sink.written().starts_with(told.as_bytes()))
}

// Whether a script is refused wherever it is cut within the line behind these lines.
fn is_refused_within<R: Threads + Wait + Sync>(
    rt: &R,
    alloc: Global,
    lines: &[u8],
    line: &str,
    told: &str,
) -> Result<bool, AllocError> {
    let mut script = Vec::from_slice(alloc, lines)?;
    for byte in line.as_bytes() {
        let is_whole = !lines.is_empty() && script.len() == lines.len();
        if !is_whole && !is_refused(rt, alloc, &script, told)? {
            return Ok(false);
        }
        script.push(*byte)?;
    }
    Ok(true)
}

#[test]
fn a_script_may_be_cut_anywhere(rt: HostRuntime) -> Result<(), Fail> {
    let alloc = rt.alloc();
    let mut script = Vec::new(alloc);
    let mut replies = Vec::new(alloc);
    for (line, told, reply) in [
        ("heap 8 2", "line 1: bad header\n", ""),
        ("1 begin", "line 2: ", "2 ok\n"),
        ("1 new 2", "line 3: ", "3 ok\n"),
        ("1 store 0 0 1", "line 4: ", "4 ok\n"),
        ("2 load 0 0", "line 5: ", "5 ok\n"),
        ("1 null", "line 6: ", "6 ok\n"),
        ("1 store 0 0 2", "line 7: ", "7 ok\n"),
        ("1 pop", "line 8: ", "8 ok\n"),
        ("1 pop", "line 9: ", "9 ok\n"),
        ("1 end", "line 10: ", "10 ok moved 1\n"),
        ("2 get 1", "line 11: ", "11 ref 2\n"),
    ] {
        let is_cut = is_refused_within(&rt, alloc, &script, line, told)?;
        script.extend_from_slice(line.as_bytes())?;
        replies.extend_from_slice(reply.as_bytes())?;
        let is_whole = is_run(&rt, alloc, &script, &replies)?;
        script.push(b'\n')?;
        let is_ended = is_run(&rt, alloc, &script, &replies)?;
        assert_eq!(rt;
            (is_cut, is_whole, is_ended),
            (true, true, true),
            "{told}{line}"
        );
    }
    Ok(())
}

// The status with which a command ends whose source gives a byte at a time and fails at a call, and whether anything is written.
fn read_failing<R: Threads + Wait + Sync>(
    rt: &R,
    alloc: Global,
    command: &str,
    call: u32,
) -> Result<(u8, bool), AllocError> {
    let fails = Vec::from_slice(alloc, &[call])?;
    let mut source = MemorySource::new(Vec::from_slice(alloc, FIRST_PATH)?, 1, fails);
    let Ok(mut sink) = MemorySink::new(alloc, 100, Vec::new(alloc)) else {
        return Err(AllocError);
    };
    let status = status_of(rt, alloc, command, &mut source, &mut sink, &NoBrake)?;
    Ok((status, !sink.written().is_empty()))
}

#[test]
fn a_read_may_fail_at_each_call(rt: HostRuntime) -> Result<(), Fail> {
    let alloc = rt.alloc();
    // Each of 25 calls gives a byte, and the one after them tells the end.
    for call in 1..=27u32 {
        let due = if call == 27 { (0, true) } else { (3, false) };
        let alone = read_failing(&rt, alloc, "replay", call)?;
        assert_eq!(rt; alone, due, "call {call}");
        let in_threads = read_failing(&rt, alloc, "threads", call)?;
        assert_eq!(rt; in_threads, due, "call {call} in threads");
    }
    Ok(())
}

// A sink that takes one byte at a time.
#[derive(Drop)]
struct SippingSink {
    sink: MemorySink,
}

impl Sink for SippingSink {
    ghost written = { λ s. ⟦<MemorySink as Sink>⟧.written s.sink };

    ghost faults = { λ s. ⟦<MemorySink as Sink>⟧.faults s.sink };

    fn write(&mut self, piece: &[u8]) -> Result<usize, Failed> {
        let size = piece.len().min(1);
        self.sink.write(&piece[..size])
    }
}

// Whether a sink of so much room is filled and the status is the one that is due, also where the sink takes one byte at a time.
fn fills_room<R: Threads + Wait + Sync>(
    rt: &R,
    alloc: Global,
    command: &str,
    room: usize,
    due: u8,
) -> Result<bool, AllocError> {
    let mut source = SureSource::new(Vec::from_slice(alloc, FIRST_PATH)?);
    let Ok(mut sink) = MemorySink::new(alloc, room, Vec::new(alloc)) else {
        return Err(AllocError);
    };
    let status = status_of(rt, alloc, command, &mut source, &mut sink, &NoBrake)?;
    let mut source = SureSource::new(Vec::from_slice(alloc, FIRST_PATH)?);
    let Ok(sips) = MemorySink::new(alloc, room, Vec::new(alloc)) else {
        return Err(AllocError);
    };
    let mut sips = SippingSink { sink: sips };
    let by_sips = status_of(rt, alloc, command, &mut source, &mut sips, &NoBrake)?;
    let is_front = sink.written().len() == room && FIRST_REPLIES.starts_with(sink.written());
    let is_same = sips.sink.written() == sink.written();
    Ok((status, by_sips) == (due, due) && is_front && is_same)
}

#[test]
fn an_output_may_be_cut_anywhere(rt: HostRuntime) -> Result<(), Fail> {
    let alloc = rt.alloc();
    for room in 0..=13 {
        let due = if room == 13 { 0 } else { 4 };
        let alone = fills_room(&rt, alloc, "replay", room, due)?;
        let in_threads = fills_room(&rt, alloc, "threads", room, due)?;
        assert_eq!(rt; (alone, in_threads), (true, true), "room {room}");
    }
    Ok(())
}

#[test]
fn lines_may_have_odd_bytes(rt: HostRuntime) -> Result<(), Fail> {
    let alloc = rt.alloc();
    for (command, script, due, written) in [
        (
            "replay",
            b"heap 4 1\n\t1  int\t7 \r\n".as_slice(),
            0,
            "2 ok\n",
        ),
        ("threads", b"heap 4 1\n\t1  int\t7 \r\n", 0, "2 ok\n"),
        ("replay", b"heap 4 1\n#\xff\n1 null\n", 0, "3 ok\n"),
        ("threads", b"heap 4 1\n#\xff\n1 null\n", 0, "3 ok\n"),
        (
            "replay",
            b"heap 4 1\n1 int \xff\n",
            2,
            "line 2: bad number\n",
        ),
        (
            "threads",
            b"heap 4 1\n1 int \xff\n",
            2,
            "line 2: bad number\n",
        ),
    ] {
        let (status, sink) = answer(&rt, alloc, command, script, &NoBrake)?;
        assert_eq!(rt; status, due, "{command}, {written}");
        assert_eq!(rt; sink.written(), written.as_bytes(), "{command}");
    }
    Ok(())
}

// It takes less than a second once it is proved, but minutes before: `rt try --test` ends it as too slow.
#[test]
fn an_input_may_have_the_greatest_size(rt: HostRuntime) -> Result<(), Fail> {
    let alloc = rt.alloc();
    for (command, size, due) in [
        ("replay", INPUT_LIMIT, 0),
        ("replay", INPUT_LIMIT + 1, 6),
        ("threads", INPUT_LIMIT, 0),
        ("threads", INPUT_LIMIT + 1, 6),
    ] {
        let mut script = vec![in alloc; b'\n'; size]?;
        script[..8].copy_from_slice(b"heap 1 1");
        let mut source = SureSource::new(script);
        let mut sink = MemorySink::new(alloc, 100, Vec::new(alloc))?;
        let status = status_of(&rt, alloc, command, &mut source, &mut sink, &NoBrake)?;
        assert_eq!(rt; status, due, "{command}, {size} bytes");
        assert!(rt; sink.written().is_empty(), "{command}, {size} bytes");
    }
    Ok(())
}

// Waits until a counter is high enough, for so many turns.
fn reaches(counter: &AtomicU64, least: u64) -> bool {
    for _ in 0..TURNS {
        if counter.load(Ordering::SeqCst) >= least {
            return true;
        }
        thread::yield_now();
    }
    false
}

// Holds all threads but one back until that one comes to the last of so many lines.
#[derive(Drop)]
struct OneFirst {
    first: u32,
    lines: u64,
    come: AtomicU64,
    missed: AtomicU64,
}

impl Brake for OneFirst {
    fn hold(&self, thread: u32, _line: u64) {
        if thread == self.first {
            self.come.fetch_add(1, Ordering::SeqCst);
        } else if !reaches(&self.come, self.lines) {
            self.missed.fetch_add(1, Ordering::SeqCst);
        }
    }
}

// Holds each of eight threads before each of its lines until all of them have come there.
#[derive(Drop)]
struct InStep {
    come: AtomicU64,
    missed: AtomicU64,
}

impl Brake for InStep {
    fn hold(&self, _thread: u32, _line: u64) {
        let before = self.come.fetch_add(1, Ordering::SeqCst);
        if !reaches(&self.come, (before - before % 8).saturating_add(8)) {
            self.missed.fetch_add(1, Ordering::SeqCst);
        }
    }
}

// How often a part stands in a text.
fn times(text: &[u8], part: &str) -> usize {
    match str::from_utf8(text) {
        Ok(text) => text.matches(part).count(),
        Err(_) => 0,
    }
}

// The calls of threads, each of them in turn by every thread.
fn all_call(alloc: Global, script: &mut Vec<u8>, call: &str, but: u8) -> Result<(), AllocError> {
    for thread in 1..=8u8 {
        if thread != but {
            let line = format!(in alloc; "{thread} {call}\n")?;
            script.extend_from_slice(line.as_bytes())?;
        }
    }
    Ok(())
}

#[test]
fn one_thread_may_run_before_all_others(rt: HostRuntime) -> Result<(), Fail> {
    let alloc = rt.alloc();
    for first in 1..=8u8 {
        let mut script = Vec::from_slice(alloc, b"heap 8 8\n")?;
        all_call(alloc, &mut script, "load 0 0", first)?;
        all_call(alloc, &mut script, "get 1", first)?;
        let line = format!(in alloc; "{first} int 7\n{first} store 0 0 1\n{first} get 1\n")?;
        script.extend_from_slice(line.as_bytes())?;
        let brake = OneFirst {
            first: u32::from(first),
            lines: 3,
            come: AtomicU64::new(0),
            missed: AtomicU64::new(0),
        };
        let (status, sink) = answer(&rt, alloc, "threads", &script, &brake)?;
        assert_eq!(rt; (status, brake.missed.load(Ordering::SeqCst)), (0, 0));
        // Each of the others finds what the first one has stored.
        assert_eq!(rt; times(sink.written(), " int 7\n"), 8, "thread {first}");
        assert_eq!(rt; times(sink.written(), " ok\n"), 9, "thread {first}");
    }
    Ok(())
}

#[test]
fn a_thread_may_rest_for_ever(rt: HostRuntime) -> Result<(), Fail> {
    let alloc = rt.alloc();
    let brake = OneFirst {
        first: 2,
        lines: 4,
        come: AtomicU64::new(0),
        missed: AtomicU64::new(0),
    };
    // Thread 2 leaves an epoch open, with an object that thread 1 holds past its own ends and collections.
    let script =
        b"heap 4 2\n1 load 0 0\n1 begin\n1 new 0\n1 collect\n1 end\n1 collect\n1 get 1\n1 census\n2 begin\n2 new 3\n2 store 0 0 1\n2 get 1\n";
    let replies =
        b"2 ok\n3 ok\n4 ok\n5 ok\n6 ok moved 1\n7 ok\n8 ref 3\n9 pages free 2 region 1 control 1\n10 ok\n11 ok\n12 ok\n13 ref 3\n";
    let (status, sink) = answer(&rt, alloc, "threads", script, &brake)?;
    assert_eq!(rt; (status, brake.missed.load(Ordering::SeqCst)), (0, 0));
    assert_eq!(rt; sink.written(), replies.as_slice());
    Ok(())
}

#[test]
fn eight_threads_may_end_and_collect_at_once(rt: HostRuntime) -> Result<(), Fail> {
    let alloc = rt.alloc();
    let mut script = Vec::from_slice(alloc, b"heap 2 8\n")?;
    for call in [
        "begin", "new 0", "collect", "end", "collect", "begin", "end", "collect", "census",
    ] {
        all_call(alloc, &mut script, call, 0)?;
    }
    for run in 0..20 {
        let brake = InStep {
            come: AtomicU64::new(0),
            missed: AtomicU64::new(0),
        };
        let (status, sink) = answer(&rt, alloc, "threads", &script, &brake)?;
        assert_eq!(rt; (status, brake.missed.load(Ordering::SeqCst)), (0, 0));
        // One of the threads gets the free page. Its object leaves the epoch, and no other has one.
        for (part, due) in [
            (" out of heap\n", 7),
            (" ok\n", 41),
            (" ok moved 1", 1),
            (" ok moved 0\n", 15),
            (" region 0 control ", 8),
        ] {
            assert_eq!(rt; times(sink.written(), part), due, "run {run}, {part}");
        }
    }
    Ok(())
}

// A heap of one page whose thread has made as many objects as there are names.
fn spent_heap(alloc: Global) -> Option<Core<Image>>
    ensures { IfSome result (λ core. core.map ≡ record { pages = 1; threads = 1 }) }
{
    let Ok(core) = Core::new(alloc, 1, 1) else {
        return None;
    };
    let mut image = core.into_words();
    let map = image.map();
    set_made(&mut image, map, 1, MAX_SERIAL);
    Some(Core::over(image, map))
}

#[test]
fn names_may_be_spent(rt: HostRuntime) -> Result<(), Fail> {
    let Some(mut core) = spent_heap(rt.alloc()) else {
        panic!(rt; "no heap");
    };
    assert_eq!(rt;
        core.step(1, Call::New(0)).reply,
        Reply::Refused(Refusal::NamesSpent)
    );
    assert_eq!(rt; core.step(1, Call::Get(0)).reply, Reply::Object(16));
    Ok(())
}
