// Gates at which the calls for two machines wait for each other.
use event_buffer::Gate;
use std::sync::atomic::{AtomicU64, Ordering};

// How often it is looked at most whether the other call came.
const TURNS: u64 = 100_000_000;

/// Where the calls for two machines wait for each other.
#[derive(Drop)]
pub struct Meeting {
    first: AtomicU64,
    second: AtomicU64,
    late: AtomicU64,
}

impl Meeting {
    pub fn new() -> Meeting {
        Meeting {
            first: AtomicU64::new(0),
            second: AtomicU64::new(0),
            late: AtomicU64::new(0),
        }
    }

    // Notes the call for this machine, and waits for that of the other.
    fn meet(&self, machine: u32) {
        let (own, other) = if machine == 0 {
            (&self.first, &self.second)
        } else {
            (&self.second, &self.first)
        };
        own.store(1, Ordering::SeqCst);
        for _ in 0..TURNS {
            if other.load(Ordering::SeqCst) == 1 {
                return;
            }
        }
        self.late.store(1, Ordering::SeqCst);
    }

    /// Both calls came, and no turns ran out.
    pub fn was_met(&self) -> bool {
        self.first.load(Ordering::SeqCst) == 1
            && self.second.load(Ordering::SeqCst) == 1
            && self.late.load(Ordering::SeqCst) == 0
    }
}

/// The calls meet while no lock is held.
#[derive(Drop)]
pub struct Outside(pub Meeting);

impl Gate for Outside {
    fn enter(&self, machine: u32) {
        self.0.meet(machine)
    }

    fn hold(&self, _: u32) {}
}

/// The calls meet while each holds the lock of its cell.
#[derive(Drop)]
pub struct Inside(pub Meeting);

impl Gate for Inside {
    fn enter(&self, _: u32) {}

    fn hold(&self, machine: u32) {
        self.0.meet(machine)
    }
}
