use crate::forms::{Form, read_form};
use crate::plain::{KeptHeap, plain};
use crate::threaded::{asks_threads, run};
use epoch_lattice::{Space, below};
use heap_core::Core;
use heap_words::{Image, MakeError};
use object_layout::{
    BadSlot, Call, LogFull, NoMemory, NoPage, OutOfHeap, Reply, StackEmpty, StackFull, WORD_LIMIT,
};
use script_text::{Bad, ReadError, Reason};
use std::alloc::{AllocError, Global};
use std::test::Fail;
use yak_io::{Failed, MemorySink, MemorySource, NoBrake, ReadAllError, SureSource};

pub(crate) const FIRST_PATH: &[u8] = b"heap 4 1\n1 int 7\n1 get 1\n";

const USAGE: &[u8] =
    b"usage: yak replay | threads | count [--workers n] [--task lines] [--pages p] [--feed] | gen n | trace | check\n";

// The words of a line.
pub(crate) fn split_words(alloc: Global, line: &str) -> Result<Vec<String>, AllocError> {
    let mut words = Vec::new(alloc);
    for word in line.split_whitespace() {
        words.push(String::from_str(alloc, word)?)?;
    }
    Ok(words)
}

// The heap of one owner, where one is kept.
fn kept_alone(kept: KeptHeap) -> Option<Core<Image>> {
    match kept {
        KeptHeap::Alone(core) => Some(core),
        KeptHeap::Shared(_finished) => None,
        KeptHeap::Nothing => None,
    }
}

#[test]
fn other_words_give_the_usage_line(rt: HostRuntime) -> Result<(), Fail> {
    let alloc = rt.alloc();
    for (line, status) in [
        ("", 1),
        ("replay", 0),
        ("replay x", 1),
        ("Replay", 1),
        ("repla", 1),
        ("--", 1),
        ("help", 1),
        ("--help", 1),
        ("--version", 1),
        ("gen", 1),
        ("gen 100001", 1),
        ("gen 01", 1),
        ("gen +1", 1),
        ("gen 1 1", 1),
        ("threads", 1),
        ("trace", 0),
        ("trace x", 1),
        ("check", 9),
        ("check --all", 1),
        ("count 1", 1),
        ("count --workers 2 --task=1", 1),
        ("count --workers 8", 1),
        ("count --feed", 1),
        ("count --feed --workers 1", 1),
        ("count --feed --feed", 1),
        ("--feed", 1),
    ] {
        let args = split_words(alloc, line)?;
        let mut source = SureSource::new(Vec::from_slice(alloc, FIRST_PATH)?);
        let mut sink = MemorySink::new(alloc, 200, Vec::new(alloc))?;
        let mut kept = KeptHeap::Nothing;
        let ended = plain(alloc, &args, &mut source, &mut sink, &mut kept);
        assert_eq!(rt; ended, status, "{line}");
        let is_usage = sink.written() == USAGE;
        assert_eq!(rt; is_usage, status == 1, "{line}");
    }
    Ok(())
}

#[test]
fn counts_have_a_form(rt: HostRuntime) -> Result<(), Fail> {
    let alloc = rt.alloc();
    for (line, told) in [
        ("count", Some((1, 64, 4096, false))),
        ("count --workers 2 --task=1", Some((2, 1, 4096, false))),
        (
            "count --pages=1 --task 16777216 --workers 8",
            Some((8, 16777216, 1, false)),
        ),
        ("count --feed", Some((1, 64, 4096, true))),
        ("count --feed --task=3", Some((1, 3, 4096, true))),
        ("count --workers 3 --feed", Some((3, 64, 4096, true))),
        (
            "count --pages 2 --feed --task 1 --workers=2",
            Some((2, 1, 2, true)),
        ),
        ("count --workers 0", None),
        ("count --workers 9", None),
        ("count --task=16777217", None),
        ("count --pages 4097", None),
        ("count --task", None),
        ("count --task=", None),
        ("count --task = 1", None),
        ("count --task=1 --task 1", None),
        ("count --task=01", None),
        ("count --work 1", None),
        ("count 1", None),
        ("count --workers 1 --", None),
        ("count --feed --feed", None),
        ("count --feed --task 1 --feed", None),
        ("count --feed 1", None),
        ("count --feed=1", None),
        ("count --feed=", None),
        ("count --feeds", None),
        ("count -feed", None),
        ("count --task --feed", None),
    ] {
        let args = split_words(alloc, line)?;
        let found = match read_form(&args) {
            Some(Form::Count(options)) => Some((
                options.workers,
                options.task,
                options.pages,
                options.feed,
            )),
            _ => None,
        };
        assert!(rt; found == told, "{line}");
    }
    Ok(())
}

#[test]
fn generated_scripts_are_summed_up(rt: HostRuntime) -> Result<(), Fail> {
    let alloc = rt.alloc();
    for (line, text) in [
        (
            "gen 0",
            "calls 2\nmoved 0\npages free 63 region 0 control 1\n",
        ),
        (
            "gen 1",
            "calls 13\nmoved 1\npages free 63 region 0 control 1\n",
        ),
        (
            "gen 3",
            "calls 32\nmoved 4\npages free 63 region 0 control 1\n",
        ),
    ] {
        let args = split_words(alloc, line)?;
        // A generated script reads nothing: the source's first call would fail.
        let fails = Vec::from_slice(alloc, &[1])?;
        let mut source = MemorySource::new(Vec::new(alloc), 5, fails);
        let mut sink = MemorySink::new(alloc, 100, Vec::new(alloc))?;
        let mut kept = KeptHeap::Nothing;
        assert_eq!(rt;
            plain(alloc, &args, &mut source, &mut sink, &mut kept),
            0,
            "{line}"
        );
        assert_eq!(rt; sink.written(), text.as_bytes(), "{line}");
        let Some(core) = kept_alone(kept) else {
            panic!(rt; "no heap was kept");
        };
        assert_eq!(rt; (core.pages(), core.threads()), (64, 4), "{line}");
    }
    Ok(())
}

#[test]
fn a_generated_script_runs_the_same_twice(rt: HostRuntime) -> Result<(), Fail> {
    let alloc = rt.alloc();
    let args = split_words(alloc, "gen 2000")?;
    let mut source = SureSource::new(Vec::new(alloc));
    let mut first = MemorySink::new(alloc, 100, Vec::new(alloc))?;
    let mut kept = KeptHeap::Nothing;
    assert_eq!(rt; plain(alloc, &args, &mut source, &mut first, &mut kept), 0);
    let is_summary = first.written().starts_with(b"calls 15210\nmoved 1994\n");
    assert!(rt; is_summary);
    let mut second = MemorySink::new(alloc, 100, Vec::new(alloc))?;
    let mut kept = KeptHeap::Nothing;
    assert_eq!(rt; plain(alloc, &args, &mut source, &mut second, &mut kept), 0);
    assert_eq!(rt; second.written(), first.written());
    Ok(())
}

#[test]
fn spaces_lie_below_each_other(rt: HostRuntime) -> Result<(), Fail> {
    let outer = Space::Region {
        thread: 1,
        depth: 1,
    };
    let inner = Space::Region {
        thread: 1,
        depth: 2,
    };
    assert!(rt; below(inner, outer) && below(outer, Space::Control));
    assert!(rt; !below(outer, inner) && !below(Space::Control, outer));
    Ok(())
}

#[test]
fn errors_have_texts(rt: HostRuntime) -> Result<(), Fail> {
    let alloc = rt.alloc();
    let bad = Bad {
        line: 2,
        reason: Reason::BadThread,
    };
    for (shown, text) in [
        (format!(in alloc; "{NoMemory}")?, "no memory"),
        (format!(in alloc; "{NoPage}")?, "no page is free"),
        (format!(in alloc; "{LogFull}")?, "the store buffer is full"),
        (format!(in alloc; "{StackFull}")?, "the stack is full"),
        (format!(in alloc; "{StackEmpty}")?, "the stack is empty"),
        (format!(in alloc; "{BadSlot}")?, "no such stack slot"),
        (format!(in alloc; "{OutOfHeap}")?, "out of heap"),
        (format!(in alloc; "{Failed}")?, "the outside failed"),
        (
            format!(in alloc; "{}", ReadAllError::Failed)?,
            "the input could not be read",
        ),
        (
            format!(in alloc; "{}", ReadAllError::TooLarge)?,
            "the input is too large",
        ),
        (format!(in alloc; "{}", ReadAllError::Memory)?, "no memory"),
        (
            format!(in alloc; "{}", ReadError::Refused(bad))?,
            "line 2: bad thread",
        ),
        (format!(in alloc; "{}", ReadError::Memory)?, "no memory"),
        (
            format!(in alloc; "{}", MakeError::BadConfig)?,
            "a heap has 1 to 4096 pages and 1 to 8 threads",
        ),
        (format!(in alloc; "{}", MakeError::Memory)?, "no memory"),
    ] {
        assert_eq!(rt; shown.as_str(), text);
    }
    Ok(())
}

#[test]
fn words_are_counted(rt: HostRuntime) -> Result<(), Fail> {
    let alloc = rt.alloc();
    let lines = "the cat saw the dog\nthe dog ran\n";
    let counts = "1 cat\n2 dog\n1 ran\n1 saw\n3 the\n";
    for (line, text, status, written) in [
        ("count --task 1", "b a b\n", 0, "1 a\n2 b\n"),
        ("count --pages=3 --task 1", "b a b\n", 0, "1 a\n2 b\n"),
        ("count --task 1", "", 0, ""),
        ("count --task 1", "\n", 0, ""),
        ("count", lines, 0, counts),
        ("count --task=1", lines, 0, counts),
        ("count --workers 1", "b\ta\r\nb", 0, "1 a\n2 b\n"),
        ("count --pages 1", "b a b", 7, ""),
    ] {
        let args = split_words(alloc, line)?;
        let mut source = SureSource::new(Vec::from_slice(alloc, text.as_bytes())?);
        let mut sink = MemorySink::new(alloc, 100, Vec::new(alloc))?;
        let mut kept = KeptHeap::Nothing;
        let ended = plain(alloc, &args, &mut source, &mut sink, &mut kept);
        assert_eq!(rt; ended, status, "{line}");
        assert_eq!(rt; sink.written(), written.as_bytes(), "{line}");
        let is_kept = match kept_alone(kept) {
            Some(core) => core.threads() == 1,
            None => false,
        };
        assert_eq!(rt; is_kept, status == 0, "{line}");
    }
    Ok(())
}

#[test]
fn long_words_are_told(rt: HostRuntime) -> Result<(), Fail> {
    let alloc = rt.alloc();
    let args = split_words(alloc, "count")?;
    for (letters, status) in [(WORD_LIMIT, 0), (WORD_LIMIT + 1, 8)] {
        let word = vec![in alloc; b'c'; letters as usize]?;
        let mut text = Vec::from_slice(alloc, b"b\n")?;
        text.extend_from_slice(&word)?;
        let mut want = Vec::new(alloc);
        if status == 0 {
            want.extend_from_slice(b"1 b\n1 ")?;
            want.extend_from_slice(&word)?;
            want.push(b'\n')?;
        } else {
            want.extend_from_slice(b"line 2: long word\n")?;
        }
        let mut source = SureSource::new(text);
        let mut sink = MemorySink::new(alloc, 2000, Vec::new(alloc))?;
        let mut kept = KeptHeap::Nothing;
        assert_eq!(rt;
            plain(alloc, &args, &mut source, &mut sink, &mut kept),
            status
        );
        assert_eq!(rt; sink.written(), want.as_slice());
    }
    Ok(())
}

#[test]
fn a_fault_ends_a_count(rt: HostRuntime) -> Result<(), Fail> {
    let alloc = rt.alloc();
    let args = split_words(alloc, "count --task 1")?;
    let fails = Vec::from_slice(alloc, &[2])?;
    let mut source = MemorySource::new(Vec::from_slice(alloc, b"b a b\n")?, 5, fails);
    let mut sink = MemorySink::new(alloc, 100, Vec::new(alloc))?;
    let mut kept = KeptHeap::Nothing;
    assert_eq!(rt; plain(alloc, &args, &mut source, &mut sink, &mut kept), 3);
    assert!(rt; sink.written().is_empty());
    let mut source = SureSource::new(Vec::from_slice(alloc, b"b a b\n")?);
    let mut sink = MemorySink::new(alloc, 4, Vec::new(alloc))?;
    assert_eq!(rt; plain(alloc, &args, &mut source, &mut sink, &mut kept), 4);
    assert_eq!(rt; sink.written(), b"1 a\n".as_slice());
    Ok(())
}

#[test]
fn the_kept_heap_answers_further_calls(rt: HostRuntime) -> Result<(), Fail> {
    let alloc = rt.alloc();
    let args = split_words(alloc, "replay")?;
    let mut source = SureSource::new(Vec::from_slice(alloc, FIRST_PATH)?);
    let mut sink = MemorySink::new(alloc, 100, Vec::new(alloc))?;
    let mut kept = KeptHeap::Nothing;
    assert_eq!(rt; plain(alloc, &args, &mut source, &mut sink, &mut kept), 0);
    assert_eq!(rt; sink.written(), b"2 ok\n3 int 7\n".as_slice());
    let Some(mut core) = kept_alone(kept) else {
        panic!(rt; "no heap was kept");
    };
    assert_eq!(rt; (core.pages(), core.threads()), (4, 1));
    assert!(rt; core.threads() >= 1);
    assert_eq!(rt; core.step(1, Call::Get(1)).reply, Reply::Int(7));
    Ok(())
}

#[test]
fn scripts_are_replayed_or_refused(rt: HostRuntime) -> Result<(), Fail> {
    let alloc = rt.alloc();
    let args = split_words(alloc, "replay")?;
    for (script, status, written) in [
        ("heap 4 1\n1 int 7\n1 get 1\n", 0, "2 ok\n3 int 7\n"),
        ("heap 4 1\n1 int 7\n1 get 1", 0, "2 ok\n3 int 7\n"),
        ("heap 4 1", 0, ""),
        ("heap 4 1\n", 0, ""),
        ("heap 4 1\n#\u{e9}\n\n1 null\n1 get 1", 0, "4 ok\n5 null\n"),
        (
            "heap 4 2\n2 int 1\n1 get 1\n2 get 1\n1 get 0",
            0,
            "2 ok\n3 bad slot\n4 int 1\n5 ref 16\n",
        ),
        (
            "heap 4 1\n1 int 9223372036854775807\n1 get 1",
            0,
            "2 ok\n3 int 9223372036854775807\n",
        ),
        ("heap 4 1\n\t1  int\t7 \r\n1 get 1", 0, "2 ok\n3 int 7\n"),
        ("heap 1 1\n1 new 234\n1 new 0\n", 0, "2 ok\n3 out of heap\n"),
        (
            "heap 4 2\n1 int 1\n2 int 2\n1 get 1\n2 get 1\n",
            0,
            "2 ok\n3 ok\n4 int 1\n5 int 2\n",
        ),
        (
            "heap 2 2\n2 new 0\n1 new 234\n1 new 0\n2 dup 1\n2 same 1 2\n2 store 1 0 0\n",
            0,
            "2 ok\n3 ok\n4 ok\n5 ok\n6 yes\n7 bad field\n",
        ),
        (
            "heap 4 1\n1 int 5\n1 load 1 0\n1 load 0 16\n1 get 2\n1 new 254\n1 pop\n1 pop\n1 pop\n1 get 0\n",
            0,
            "2 ok\n3 not a reference\n4 bad field\n5 bad slot\n6 too long\n7 ok\n8 ok\n9 stack empty\n10 bad slot\n",
        ),
        ("", 2, "line 1: bad header\n"),
        ("heap 0 1", 2, "line 1: bad header\n"),
        ("heap 4 1\n2 pop", 2, "line 2: bad thread\n"),
        ("heap 4 1\n1 in", 2, "line 2: bad command\n"),
        ("heap 4 1\n1", 2, "line 2: missing word\n"),
        ("heap 4 1\n1 load 0", 2, "line 2: missing word\n"),
        ("heap 4 1\n1 pop 3", 2, "line 2: extra word\n"),
        (
            "heap 4 1\n1 int 9223372036854775808",
            2,
            "line 2: bad number\n",
        ),
        ("heap 4 1\n1 int 07", 2, "line 2: bad number\n"),
        (
            "heap 4 1\n1 begin\n1 begin\n1 begin\n1 begin\n1 begin\n1 begin\n1 begin\n1 begin\n1 begin",
            0,
            "2 ok\n3 ok\n4 ok\n5 ok\n6 ok\n7 ok\n8 ok\n9 ok\n10 too deep\n",
        ),
        ("heap 4 1\n1 collect", 0, "2 ok\n"),
        ("heap 4 1\n1 collect 1", 2, "line 2: extra word\n"),
        ("heap 4 1\n2 collect", 2, "line 2: bad thread\n"),
        ("heap 4 1\n1 collect\n1 in", 2, "line 3: bad command\n"),
        ("heap 4 9\n1 collect", 2, "line 1: bad header\n"),
        (
            "heap 1 1\n1 new 234\n1 new 0\n1 pop\n1 new 0\n",
            0,
            "2 ok\n3 out of heap\n4 ok\n5 ok\n",
        ),
        (
            "heap 8 1\n1 begin\n1 new 3\n1 end\n1 get 1\n1 census\n",
            0,
            "2 ok\n3 ok\n4 ok moved 1\n5 ref 3\n6 pages free 7 region 0 control 1\n",
        ),
        ("heap 4 1\n1 end\n", 0, "2 no epoch\n"),
    ] {
        let mut source = SureSource::new(Vec::from_slice(alloc, script.as_bytes())?);
        let mut sink = MemorySink::new(alloc, 100, Vec::new(alloc))?;
        let mut kept = KeptHeap::Nothing;
        let ended = plain(alloc, &args, &mut source, &mut sink, &mut kept);
        assert_eq!(rt; ended, status, "{script}");
        assert_eq!(rt; sink.written(), written.as_bytes(), "{script}");
    }
    Ok(())
}

#[test]
fn threads_run_their_lines(rt: HostRuntime) -> Result<(), Fail> {
    let alloc = rt.alloc();
    for (line, script, status, written) in [
        (
            "threads",
            "heap 4 2\n1 int 1\n2 int 2\n1 get 1\n2 get 1\n",
            0,
            "2 ok\n3 ok\n4 int 1\n5 int 2\n",
        ),
        ("threads", "heap 4 2", 0, ""),
        ("threads", "heap 4 2\n3 pop", 2, "line 2: bad thread\n"),
        ("replay", "heap 4 1\n1 int 7\n1 get 1", 0, "2 ok\n3 int 7\n"),
        ("threads", "", 2, "line 1: bad header\n"),
    ] {
        let args = split_words(alloc, line)?;
        let mut source = SureSource::new(Vec::from_slice(alloc, script.as_bytes())?);
        let mut sink = MemorySink::new(alloc, 100, Vec::new(alloc))?;
        let mut kept = KeptHeap::Nothing;
        let ended = run(
            &rt,
            alloc,
            &args,
            &mut source,
            &mut sink,
            &NoBrake,
            &mut kept,
        );
        assert_eq!(rt; ended, status, "{script}");
        assert_eq!(rt; sink.written(), written.as_bytes(), "{script}");
    }
    Ok(())
}

#[test]
fn the_heap_of_threads_answers_further_calls(rt: HostRuntime) -> Result<(), Fail> {
    let alloc = rt.alloc();
    let args = split_words(alloc, "threads")?;
    assert!(rt; asks_threads(&args));
    let mut source = SureSource::new(Vec::from_slice(alloc, FIRST_PATH)?);
    let mut sink = MemorySink::new(alloc, 100, Vec::new(alloc))?;
    let mut kept = KeptHeap::Nothing;
    let ended = run(
        &rt,
        alloc,
        &args,
        &mut source,
        &mut sink,
        &NoBrake,
        &mut kept,
    );
    assert_eq!(rt; ended, 0);
    let finished = match kept {
        KeptHeap::Shared(finished) => finished,
        KeptHeap::Alone(_core) => panic!(rt; "another heap was kept"),
        KeptHeap::Nothing => panic!(rt; "no heap was kept"),
    };
    let map = finished.map();
    let mut core = Core::over(finished, map);
    assert_eq!(rt; (core.pages(), core.threads()), (4, 1));
    assert!(rt; core.threads() >= 1);
    assert_eq!(rt; core.step(1, Call::Get(1)).reply, Reply::Int(7));
    Ok(())
}
