//! Whole runs.

use crate::endings::{draw, run};
use std::test::Fail;
use yak_io::{MemorySink, MemorySource};

/// A heap of two pages: the root, and an object of 64 words in the region of an epoch of thread 2.
const SCRIPT: &[u8] = b"heap 2 2\n2 begin\n2 new 61\n";

const PICTURE: &[u8] = b"\
<svg xmlns=\"http://www.w3.org/2000/svg\" viewBox=\"0 0 3488 512\" width=\"800\" font-family=\"sans-serif\" font-size=\"64\">
<title>The pages of a heap</title>
<rect width=\"3488\" height=\"512\" fill=\"white\"/>
<rect x=\"32\" y=\"32\" width=\"256\" height=\"256\" fill=\"white\" stroke=\"hsl(215,15%,45%)\" stroke-width=\"8\"/>
<rect x=\"32\" y=\"269\" width=\"256\" height=\"19\" fill=\"hsl(215,15%,45%)\"/>
<text x=\"32\" y=\"360\">control</text>
<rect x=\"320\" y=\"32\" width=\"256\" height=\"256\" fill=\"white\" stroke=\"hsl(90,65%,73%)\" stroke-width=\"8\"/>
<rect x=\"320\" y=\"224\" width=\"256\" height=\"64\" fill=\"hsl(90,65%,73%)\"/>
<text x=\"320\" y=\"360\">2.1</text>
<text x=\"32\" y=\"456\">pages: 0 free, 1 of regions (thread.depth), 1 of control; words in use: 83 of 512</text>
</svg>
";

#[test]
fn a_picture_has_a_box_for_each_page(rt: HostRuntime) -> Result<(), Fail> {
    let text = draw(rt.alloc(), SCRIPT)?;
    assert_eq!(rt; text.as_slice(), PICTURE);
    Ok(())
}

/// Runs the program on an input, with so much room for its output.
fn run_on(
    rt: &HostRuntime,
    input: &[u8],
    fails: &[u32],
    room: usize,
) -> Result<(u8, Vec<u8>), Fail> {
    let alloc = rt.alloc();
    let fails = Vec::from_slice(alloc, fails)?;
    let mut source = MemorySource::new(Vec::from_slice(alloc, input)?, 5, fails);
    let mut sink = MemorySink::new(alloc, room, Vec::new(alloc))?;
    let status = run(alloc, &mut source, &mut sink);
    Ok((status as u8, Vec::from_slice(alloc, sink.written())?))
}

#[test]
fn the_status_tells_how_a_run_ended(rt: HostRuntime) -> Result<(), Fail> {
    let (status, text) = run_on(&rt, SCRIPT, &[], 4096)?;
    assert_eq!(rt; status, 0);
    assert_eq!(rt; text.as_slice(), PICTURE);
    let (status, text) = run_on(&rt, b"heap 2 2\n3 begin\n", &[], 4096)?;
    assert_eq!(rt; status, 1);
    assert_eq!(rt; text.as_slice(), b"line 2: bad thread\n".as_slice());
    let (status, text) = run_on(&rt, SCRIPT, &[2], 4096)?;
    assert_eq!(rt; status, 3);
    assert!(rt; text.is_empty());
    let (status, text) = run_on(&rt, SCRIPT, &[], 4)?;
    assert_eq!(rt; status, 4);
    assert_eq!(rt; text.as_slice(), b"<svg".as_slice());
    Ok(())
}
