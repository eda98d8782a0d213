//! A gate that holds processors at points until others have come to theirs.

use hwp_top::{Cpu, Gate, Point};
use std::hint::spin_loop;
use std::sync::atomic::{AtomicBool, AtomicU64, Ordering};

/// How often a processor that is held looks whether the others have come.
const LOOKS: u32 = 1_000_000_000;

/// A point of one of the first four commands of processors 0 to 7, as a bit.
pub fn bit(cpu: u8, seq: u32, at: Point) -> u64 {
    let place = match at {
        Point::Begun => 0,
        Point::Answered => 1,
    };
    1 << (u32::from(cpu & 7) * 8 + (seq & 3) * 2 + place)
}

/// A processor that comes to this point is held there until others have come to all of those.
#[derive(Clone, Copy)]
pub struct Hold {
    pub at: u64,
    pub until: u64,
}

/// The gate: which points were come to, and whether a processor was held for nothing.
#[derive(Drop)]
pub struct MeetingGate<'a> {
    holds: &'a [Hold],
    came: AtomicU64,
    missed: AtomicBool,
}

impl<'a> MeetingGate<'a> {
    /// A gate to which none has come.
    pub fn new(holds: &'a [Hold]) -> MeetingGate<'a> {
        MeetingGate {
            holds,
            came: AtomicU64::new(0),
            missed: AtomicBool::new(false),
        }
    }

    /// Whether a processor was held until it had looked often enough, and the others hadn't come.
    pub fn is_missed(&self) -> bool {
        self.missed.load(Ordering::SeqCst)
    }

    /// The points that were come to.
    pub fn came(&self) -> u64 {
        self.came.load(Ordering::SeqCst)
    }

    /// Waits until others have come to these points.
    fn wait(&self, until: u64) {
        for _ in 0..LOOKS {
            if self.came.load(Ordering::SeqCst) & until == until {
                return;
            }
            spin_loop();
        }
        self.missed.store(true, Ordering::SeqCst);
    }
}

impl<'a> Gate for MeetingGate<'a> {
    fn pass(&self, cpu: Cpu, seq: u32, at: Point) {
        let point = bit(cpu.0, seq, at);
        self.came.fetch_or(point, Ordering::SeqCst);
        for hold in self.holds {
            if hold.at == point {
                self.wait(hold.until);
            }
        }
    }
}
