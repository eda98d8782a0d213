ghost use Rattle.std.specs.Prelude.{◌≡◌, ◌<◌};
ghost use Rattle.hwp_banks.specs.Addresses.{line_address};
ghost use Rattle.hwp_banks.specs.Events.{bank_count, bank_of, own_event, own_status};

use crate::status::Status;
use hwp_geom::{Frame, Line};

/// An event of a bank: its status, the address of the error (IA32_MCi_ADDR) and what more is known (IA32_MCi_MISC:
/// bits 5:0 give the least significant valid bit of the address, bits 8:6 its mode, where 010 is physical).
#[derive(Clone, Copy, PartialEq, Eq)]
pub struct Event {
    pub status: Status,
    pub addr: u64,
    pub misc: u64,
}

/// What makes the machine log an event of its own (this project's rule).
#[derive(Clone, Copy, PartialEq, Eq)]
pub enum Origin {
    /// A load, a store or a load of the kernel met a bad line.
    Access,
    /// A fetch met a bad line.
    Fetch,
    /// The scrubber met a bad line.
    BadLine,
    /// The scrubber met a weak line: a corrected error.
    WeakLine,
}

/// The bank of loads and stores.
const DATA_BANK: usize = 0;
/// The bank of fetches and of raw events.
const FETCH_BANK: usize = 1;
/// The bank of the scrubber.
const SCRUB_BANK: usize = 2;
/// A physical address that is valid from bit 6 on, the line.
const MISC_LINE: u64 = 0x86;

impl Origin {
    /// The number of the bank that the event is logged in.
    pub fn bank(self) -> usize
        ensures number { result ≡ bank_of self }
        ensures below { result < bank_count }
    {
        match self {
            Origin::Access => DATA_BANK,
            Origin::Fetch => FETCH_BANK,
            Origin::BadLine | Origin::WeakLine => SCRUB_BANK,
        }
    }

    /// The event at a line of a frame.
    pub fn event(self, frame: Frame, line: Line) -> Event
        ensures { result ≡ own_event self frame line }
    {
        Event {
            status: self.status(),
            addr: address_of(frame, line),
            misc: MISC_LINE,
        }
    }

    fn status(self) -> Status
        ensures { result.0 ≡ own_status self }
    {
        Status(match self {
            Origin::Access => 0xbd80000000000134,
            Origin::Fetch => 0xbd80000000000150,
            Origin::BadLine => 0xbd000000000000c0,
            Origin::WeakLine => 0x9c000000000000c0,
        })
    }
}

/// The physical address of a line of a frame: 4,096 bytes a frame, 64 bytes a line (this project's rule).
fn address_of(frame: Frame, line: Line) -> u64
    ensures { result ≡ line_address frame line }
{
    u64::from(frame.0) * 4096 + u64::from(line.get()) * 64
}
