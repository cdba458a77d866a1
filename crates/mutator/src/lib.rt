//! A heap that threads share, and each thread's calls on it.
#![tactic(auto)]

mod caller;
mod closed_calls;
mod field_calls;
mod finishing;
mod heap;
mod new_objects;
mod quick;
mod quick_calls;
mod resting;
mod running;

pub use caller::MutatorCaller;
pub use finishing::finish;
pub use heap::Heap;
pub use resting::Resting;
pub use running::Mutator;

#[cfg(test)]
mod tests {
    use super::*;
    use heap_core::{Core, Stepped};
    use heap_words::MakeError;
    use object_layout::{Call, Census, LogFull, NoPage, Reply};
    use safepoint_gate::Gate;
    use std::test::Fail;

    #[test]
    fn a_full_heap_says_so(rt: HostRuntime) -> Result<(), Fail> {
        let (heap, mut resting) = match Heap::new(rt.alloc(), 1, 1) {
            Ok(made) => made,
            Err(error) => panic!(rt; "no heap: {error}"),
        };
        let mut mutator = resting.remove(0).enter(&rt, &heap);
        assert_eq!(rt; mutator.thread(), 1);
        assert_eq!(rt; mutator.new_object(&heap, 234), Ok(Reply::Ok));
        mutator.poll(&rt, &heap);
        mutator.flush(&rt, &heap);
        assert_eq!(rt; mutator.new_object(&heap, 0), Err(NoPage));
        let full = Census {
            free: 0,
            region: 0,
            control: 1,
        };
        let stepped = Stepped {
            reply: Reply::OutOfHeap,
            collected: true,
            full: Some(full),
            shortage: None,
        };
        assert_eq!(rt; mutator.new_or_collect(&rt, &heap, 0), stepped);
        resting.push(mutator.rest(&heap))?;
        let finished = finish(heap, resting);
        let map = finished.map();
        let mut core = Core::over(finished, map);
        assert_eq!(rt; core.step(1, Call::Get(1)).reply, Reply::Object(234));
        Ok(())
    }

    #[test]
    fn a_full_store_buffer_says_so(rt: HostRuntime) -> Result<(), Fail> {
        let (heap, mut resting) = match Heap::new(rt.alloc(), 2, 1) {
            Ok(made) => made,
            Err(error) => panic!(rt; "no heap: {error}"),
        };
        let mut mutator = resting.remove(0).enter(&rt, &heap);
        assert_eq!(rt; mutator.new_object(&heap, 100), Ok(Reply::Ok));
        assert_eq!(rt; mutator.begin(&heap), Reply::Ok);
        assert_eq!(rt; mutator.new_object(&heap, 0), Ok(Reply::Ok));
        for f in 0..64 {
            assert_eq!(rt; mutator.store(&heap, 1, f, 2), Ok(Reply::Ok));
        }
        assert_eq!(rt; mutator.store(&heap, 1, 64, 2), Err(LogFull));
        mutator.flush(&rt, &heap);
        assert_eq!(rt; mutator.store(&heap, 1, 64, 2), Ok(Reply::Ok));
        Ok(())
    }

    #[test]
    fn a_heap_has_a_page_and_at_most_eight_threads(rt: HostRuntime) -> Result<(), Fail> {
        for (pages, threads) in [(0, 1), (1, 9)] {
            assert!(rt;
                matches!(
                    Heap::new(rt.alloc(), pages, threads),
                    Err(MakeError::BadConfig)
                )
            );
        }
        Ok(())
    }

    #[test]
    fn a_gate_has_a_seat_for_each_thread(rt: HostRuntime) -> Result<(), Fail> {
        let core = match Core::new(rt.alloc(), 4, 2) {
            Ok(core) => core,
            Err(error) => panic!(rt; "no heap: {error}"),
        };
        let (_gate, seats) = Gate::new(rt.alloc(), core.into_words())?;
        assert_eq!(rt; seats.len(), 2);
        Ok(())
    }
}
