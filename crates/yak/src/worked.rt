//! The worked scripts of `examples`, each by its name.

use crate::plain::{KeptHeap, plain};
use crate::tests::split_words;
use crate::threaded::run;
use std::test::Fail;
use yak_io::{MemorySink, NoBrake, SureSource};

#[test]
fn worked_scripts_have_their_replies(rt: HostRuntime) -> Result<(), Fail> {
    let alloc = rt.alloc();
    let args = split_words(alloc, "replay")?;
    let in_threads = split_words(alloc, "threads")?;
    for (name, script, replies) in [
        (
            "collection_frees_the_popped",
            "heap 1 1\n1 new 234\n1 new 0\n1 pop\n1 new 0\n",
            "2 ok\n3 out of heap\n4 ok\n5 ok\n",
        ),
        (
            "control_room_is_no_use_to_region",
            "heap 2 1\n1 new 234\n1 pop\n1 begin\n1 new 253\n1 new 0\n1 end\n1 census\n",
            "2 ok\n3 ok\n4 ok\n5 ok\n6 out of heap\n7 ok moved 1 tight\n8 pages free 0 region 0 control 2\n",
        ),
        (
            "cycle_moves_whole",
            "heap 8 1\n1 begin\n1 new 1\n1 new 1\n1 store 1 0 2\n1 store 2 0 1\n1 pop\n1 end\n1 load 1 0\n1 load 2 0\n1 same 1 3\n1 same 1 2\n",
            "2 ok\n3 ok\n4 ok\n5 ok\n6 ok\n7 ok\n8 ok moved 2\n9 ok\n10 ok\n11 yes\n12 no\n",
        ),
        (
            "empty_region_needs_no_page",
            "heap 2 1\n1 new 234\n1 begin\n1 new 10\n1 store 0 0 2\n1 end\n1 begin\n1 new 0\n1 end\n1 end\n",
            "2 ok\n3 ok\n4 ok\n5 ok\n6 ok moved 1 tight\n7 ok\n8 out of heap\n9 ok moved 0\n10 no epoch\n",
        ),
        (
            "first_path",
            "heap 4 1\n1 int 7\n1 get 1\n",
            "2 ok\n3 int 7\n",
        ),
        ("header_alone", "heap 4 1\n", ""),
        (
            "inner_object_dies_with_outer",
            "heap 8 1\n1 begin\n1 new 1\n1 begin\n1 new 0\n1 store 1 0 2\n1 pop\n1 end\n1 get 1\n1 pop\n1 end\n1 census\n",
            "2 ok\n3 ok\n4 ok\n5 ok\n6 ok\n7 ok\n8 ok moved 1\n9 ref 1\n10 ok\n11 ok moved 0\n12 pages free 7 region 0 control 1\n",
        ),
        (
            "join_of_outer_and_control",
            "heap 8 1\n1 begin\n1 new 1\n1 begin\n1 new 0\n1 store 1 0 2\n1 store 0 0 2\n1 pop\n1 end\n1 pop\n1 end\n1 load 0 0\n1 get 1\n",
            "2 ok\n3 ok\n4 ok\n5 ok\n6 ok\n7 ok\n8 ok\n9 ok moved 1\n10 ok\n11 ok moved 0\n12 ok\n13 ref 0\n",
        ),
        (
            "one_page_heap",
            "heap 1 1\n1 begin\n1 new 0\n1 end\n1 collect\n1 census\n",
            "2 ok\n3 out of heap\n4 ok moved 0\n5 ok\n6 pages free 0 region 0 control 1\n",
        ),
        (
            "other_region_is_target",
            "heap 8 2\n2 begin\n2 new 1\n1 begin\n1 new 0\n1 store 0 0 1\n2 load 0 0\n2 store 1 0 2\n2 pop\n1 null\n1 store 0 0 2\n1 pop\n1 pop\n1 end\n2 load 1 0\n2 get 2\n2 pop\n2 pop\n2 end\n2 census\n",
            "2 ok\n3 ok\n4 ok\n5 ok\n6 ok\n7 ok\n8 ok\n9 ok\n10 ok\n11 ok\n12 ok\n13 ok\n14 ok moved 1\n15 ok\n16 ref 0\n17 ok\n18 ok\n19 ok moved 0\n20 pages free 7 region 0 control 1\n",
        ),
        (
            "other_stack_alone_holds",
            "heap 8 2\n1 begin\n1 new 2\n1 store 0 0 1\n2 load 0 0\n1 null\n1 store 0 0 2\n1 pop\n1 pop\n1 end\n2 get 1\n",
            "2 ok\n3 ok\n4 ok\n5 ok\n6 ok\n7 ok\n8 ok\n9 ok\n10 ok moved 1\n11 ref 2\n",
        ),
        (
            "page_filled_exactly",
            "heap 1 1\n1 new 234\n1 new 0\n",
            "2 ok\n3 out of heap\n",
        ),
        (
            "placement_per_thread",
            "heap 2 2\n2 new 0\n1 new 234\n1 new 0\n2 dup 1\n2 same 1 2\n2 store 1 0 0\n",
            "2 ok\n3 ok\n4 ok\n5 ok\n6 yes\n7 bad field\n",
        ),
        (
            "popped_object_dies",
            "heap 8 1\n1 begin\n1 new 1\n1 pop\n1 end\n",
            "2 ok\n3 ok\n4 ok\n5 ok moved 0\n",
        ),
        (
            "reader_bit_alone_moves_nothing",
            "heap 8 2\n1 begin\n1 new 2\n1 store 0 0 1\n2 load 0 0\n1 null\n1 store 0 0 2\n1 pop\n1 pop\n2 pop\n1 end\n1 census\n",
            "2 ok\n3 ok\n4 ok\n5 ok\n6 ok\n7 ok\n8 ok\n9 ok\n10 ok\n11 ok moved 0\n12 pages free 7 region 0 control 1\n",
        ),
        (
            "recorded_slot_with_integer_stays",
            "heap 8 1\n1 begin\n1 new 0\n1 store 0 0 1\n1 int 5\n1 store 0 0 2\n1 pop\n1 pop\n1 end\n1 load 0 0\n1 get 1\n",
            "2 ok\n3 ok\n4 ok\n5 ok\n6 ok\n7 ok\n8 ok\n9 ok moved 0\n10 ok\n11 int 5\n",
        ),
        (
            "refusals",
            "heap 4 1\n1 end\n1 int 5\n1 load 1 0\n1 load 0 16\n1 get 2\n1 new 254\n1 pop\n1 pop\n1 pop\n1 get 0\n",
            "2 no epoch\n3 ok\n4 not a reference\n5 bad field\n6 bad slot\n7 too long\n8 ok\n9 ok\n10 stack empty\n11 bad slot\n",
        ),
        (
            "slide_keeps_the_reached",
            "heap 2 1\n1 new 0\n1 new 0\n1 store 0 0 2\n1 pop\n1 pop\n1 collect\n1 load 0 0\n1 get 1\n1 census\n",
            "2 ok\n3 ok\n4 ok\n5 ok\n6 ok\n7 ok\n8 ok\n9 ref 0\n10 pages free 1 region 0 control 1\n",
        ),
        (
            "stack_full",
            "heap 4 1\n1 null\n1 null\n1 null\n1 null\n1 null\n1 null\n1 null\n1 null\n1 null\n1 null\n1 null\n1 null\n1 null\n1 null\n1 null\n1 null\n1 null\n1 null\n1 null\n1 null\n1 null\n1 null\n1 null\n1 null\n1 null\n1 null\n1 null\n1 null\n1 null\n1 null\n1 null\n1 null\n1 null\n1 null\n1 null\n1 null\n1 null\n1 null\n1 null\n1 null\n1 null\n1 null\n1 null\n1 null\n1 null\n1 null\n1 null\n1 null\n1 null\n1 null\n1 null\n1 null\n1 null\n1 null\n1 null\n1 null\n1 null\n1 null\n1 null\n1 null\n1 null\n1 null\n1 null\n1 null\n",
            "2 ok\n3 ok\n4 ok\n5 ok\n6 ok\n7 ok\n8 ok\n9 ok\n10 ok\n11 ok\n12 ok\n13 ok\n14 ok\n15 ok\n16 ok\n17 ok\n18 ok\n19 ok\n20 ok\n21 ok\n22 ok\n23 ok\n24 ok\n25 ok\n26 ok\n27 ok\n28 ok\n29 ok\n30 ok\n31 ok\n32 ok\n33 ok\n34 ok\n35 ok\n36 ok\n37 ok\n38 ok\n39 ok\n40 ok\n41 ok\n42 ok\n43 ok\n44 ok\n45 ok\n46 ok\n47 ok\n48 ok\n49 ok\n50 ok\n51 ok\n52 ok\n53 ok\n54 ok\n55 ok\n56 ok\n57 ok\n58 ok\n59 ok\n60 ok\n61 ok\n62 ok\n63 ok\n64 ok\n65 stack full\n",
        ),
        (
            "stack_keeps_object_past_end",
            "heap 8 1\n1 begin\n1 new 3\n1 end\n1 get 1\n1 census\n",
            "2 ok\n3 ok\n4 ok moved 1\n5 ref 3\n6 pages free 7 region 0 control 1\n",
        ),
        (
            "store_past_full_buffer",
            "heap 4 1\n1 new 100\n1 begin\n1 new 0\n1 store 1 0 2\n1 store 1 1 2\n1 store 1 2 2\n1 store 1 3 2\n1 store 1 4 2\n1 store 1 5 2\n1 store 1 6 2\n1 store 1 7 2\n1 store 1 8 2\n1 store 1 9 2\n1 store 1 10 2\n1 store 1 11 2\n1 store 1 12 2\n1 store 1 13 2\n1 store 1 14 2\n1 store 1 15 2\n1 store 1 16 2\n1 store 1 17 2\n1 store 1 18 2\n1 store 1 19 2\n1 store 1 20 2\n1 store 1 21 2\n1 store 1 22 2\n1 store 1 23 2\n1 store 1 24 2\n1 store 1 25 2\n1 store 1 26 2\n1 store 1 27 2\n1 store 1 28 2\n1 store 1 29 2\n1 store 1 30 2\n1 store 1 31 2\n1 store 1 32 2\n1 store 1 33 2\n1 store 1 34 2\n1 store 1 35 2\n1 store 1 36 2\n1 store 1 37 2\n1 store 1 38 2\n1 store 1 39 2\n1 store 1 40 2\n1 store 1 41 2\n1 store 1 42 2\n1 store 1 43 2\n1 store 1 44 2\n1 store 1 45 2\n1 store 1 46 2\n1 store 1 47 2\n1 store 1 48 2\n1 store 1 49 2\n1 store 1 50 2\n1 store 1 51 2\n1 store 1 52 2\n1 store 1 53 2\n1 store 1 54 2\n1 store 1 55 2\n1 store 1 56 2\n1 store 1 57 2\n1 store 1 58 2\n1 store 1 59 2\n1 store 1 60 2\n1 store 1 61 2\n1 store 1 62 2\n1 store 1 63 2\n1 store 1 64 2\n1 end\n1 load 1 64\n1 same 2 3\n1 census\n",
            "2 ok\n3 ok\n4 ok\n5 ok\n6 ok\n7 ok\n8 ok\n9 ok\n10 ok\n11 ok\n12 ok\n13 ok\n14 ok\n15 ok\n16 ok\n17 ok\n18 ok\n19 ok\n20 ok\n21 ok\n22 ok\n23 ok\n24 ok\n25 ok\n26 ok\n27 ok\n28 ok\n29 ok\n30 ok\n31 ok\n32 ok\n33 ok\n34 ok\n35 ok\n36 ok\n37 ok\n38 ok\n39 ok\n40 ok\n41 ok\n42 ok\n43 ok\n44 ok\n45 ok\n46 ok\n47 ok\n48 ok\n49 ok\n50 ok\n51 ok\n52 ok\n53 ok\n54 ok\n55 ok\n56 ok\n57 ok\n58 ok\n59 ok\n60 ok\n61 ok\n62 ok\n63 ok\n64 ok\n65 ok\n66 ok\n67 ok\n68 ok\n69 ok\n70 ok moved 1\n71 ok\n72 yes\n73 pages free 3 region 0 control 1\n",
        ),
        (
            "tight_end",
            "heap 2 1\n1 new 234\n1 begin\n1 new 10\n1 store 0 0 2\n1 end\n1 census\n",
            "2 ok\n3 ok\n4 ok\n5 ok\n6 ok moved 1 tight\n7 pages free 0 region 0 control 2\n",
        ),
        (
            "tight_end_inside_tight_end",
            "heap 3 1\n1 new 234\n1 begin\n1 new 253\n1 begin\n1 new 253\n1 end\n1 end\n1 census\n",
            "2 ok\n3 ok\n4 ok\n5 ok\n6 ok\n7 ok moved 1 tight\n8 ok moved 1 tight\n9 pages free 0 region 0 control 3\n",
        ),
        (
            "too_deep",
            "heap 4 1\n1 begin\n1 begin\n1 begin\n1 begin\n1 begin\n1 begin\n1 begin\n1 begin\n1 begin\n",
            "2 ok\n3 ok\n4 ok\n5 ok\n6 ok\n7 ok\n8 ok\n9 ok\n10 too deep\n",
        ),
        (
            "two_threads_take_turns",
            "heap 4 2\n1 int 1\n2 int 2\n1 get 1\n2 get 1\n",
            "2 ok\n3 ok\n4 int 1\n5 int 2\n",
        ),
    ] {
        let mut source = SureSource::new(Vec::from_slice(alloc, script.as_bytes())?);
        let mut sink = MemorySink::new(alloc, 1000, Vec::new(alloc))?;
        let mut kept = KeptHeap::Nothing;
        let ended = plain(alloc, &args, &mut source, &mut sink, &mut kept);
        assert_eq!(rt; ended, 0, "{name}");
        assert_eq!(rt; sink.written(), replies.as_bytes(), "{name}");
        // The script of one thread has the same replies in threads.
        if script.as_bytes().get(7) != Some(&b'1') {
            continue;
        }
        let mut source = SureSource::new(Vec::from_slice(alloc, script.as_bytes())?);
        let mut sink = MemorySink::new(alloc, 1000, Vec::new(alloc))?;
        let mut kept = KeptHeap::Nothing;
        let ended = run(
            &rt,
            alloc,
            &in_threads,
            &mut source,
            &mut sink,
            &NoBrake,
            &mut kept,
        );
        assert_eq!(rt; ended, 0, "{name} in threads");
        assert_eq!(rt; sink.written(), replies.as_bytes(), "{name} in threads");
    }
    Ok(())
}
