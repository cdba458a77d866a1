//! Running scripts.
#![tactic(auto)]

mod one_core;
mod workers;

pub use one_core::{Replayed, replay};
pub use workers::{Threaded, run_threads};

#[cfg(test)]
mod tests {
    use super::*;
    use object_layout::Reply;
    use script_text::read_script;
    use std::sync::atomic::{AtomicU64, Ordering};
    use std::test::Fail;
    use yak_io::Brake;

    /// The most turns that a thread waits for the other.
    const TURNS: u64 = 100_000_000;

    /// Holds each of two threads before its first line until the other one is held there too.
    #[derive(Drop)]
    struct Meeting {
        held: AtomicU64,
        missed: AtomicU64,
    }

    impl Brake for Meeting {
        fn hold(&self, _thread: u32, line: u64) {
            if line > 3 {
                return;
            }
            self.held.fetch_add(1, Ordering::SeqCst);
            for _ in 0..TURNS {
                if self.held.load(Ordering::SeqCst) >= 2 {
                    return;
                }
            }
            self.missed.fetch_add(1, Ordering::SeqCst);
        }
    }

    #[test]
    fn two_threads_meet(rt: HostRuntime) -> Result<(), Fail> {
        let alloc = rt.alloc();
        let text = b"heap 4 2\n1 int 1\n2 int 2\n1 get 1\n2 get 1\n";
        let script = match read_script(alloc, text) {
            Ok(script) => script,
            Err(error) => panic!(rt; "no script: {error}"),
        };
        let brake = Meeting {
            held: AtomicU64::new(0),
            missed: AtomicU64::new(0),
        };
        let threaded = run_threads(&rt, alloc, &script, &brake)?;
        let replies = [Reply::Ok, Reply::Ok, Reply::Int(1), Reply::Int(2)];
        assert_eq!(rt; threaded.replies.as_slice(), replies.as_slice());
        assert_eq!(rt; brake.missed.load(Ordering::SeqCst), 0);
        Ok(())
    }
}
