// Two clients in threads of their own.
use crate::runs::{input_of, played_with};
use sg_top::Gate;
use std::sync::atomic::{AtomicBool, Ordering};
use std::test::Fail;
use std::thread;
use test_interfaces::LOCK;

// How often client 1 looks whether client 2 was answered.
const MOST_LOOKS: u32 = 50_000_000;

// Holds client 1 before its first call until the first call of client 2 was answered.
#[derive(Debug, Drop)]
struct TwoFirst {
    two_answered: AtomicBool,
    gave_up: AtomicBool,
}

impl TwoFirst {
    // Whether client 2 is answered before too many looks.
    fn sees_two(&self) -> bool {
        for _ in 0..MOST_LOOKS {
            if self.two_answered.load(Ordering::SeqCst) {
                return true;
            }
            thread::yield_now();
        }
        false
    }
}

impl Gate for TwoFirst {
    fn before(&self, client: u8, seq: u32) {
        if client == 1 && seq == 1 && !self.sees_two() {
            self.gave_up.store(true, Ordering::SeqCst);
        }
    }

    fn after(&self, client: u8, seq: u32) {
        if client == 2 && seq == 1 {
            self.two_answered.store(true, Ordering::SeqCst);
        }
    }
}

// Client 2 has the first lock.
const TWO_FIRST: &str = "c2.1 lock_alloc() = ok #1
c1.1 lock_alloc() = ok #2
client 1 done
client 2 done
calls 2 boots 1 replays 0
";

#[test]
fn two_at_once(rt: HostRuntime) -> Result<(), Fail> {
    let script = "client 1 { lock_alloc(); } client 2 { lock_alloc(); }";
    let input = input_of(rt.alloc(), LOCK, script)?;
    let gate = TwoFirst {
        two_answered: AtomicBool::new(false),
        gave_up: AtomicBool::new(false),
    };
    let (number, printed) = played_with(&rt, rt.alloc(), "run", &input, &gate)?;
    assert!(rt; !gate.gave_up.load(Ordering::SeqCst));
    assert_eq!(rt; number, 0);
    assert!(rt; printed.as_slice() == TWO_FIRST.as_bytes());
    Ok(())
}
