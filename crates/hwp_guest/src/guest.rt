ghost use Rattle.std.specs.Prelude.{◌≡◌, ◌<◌, false};
ghost use Rattle.std.specs.FinSet as set;
ghost use Rattle.hwp_kill.specs.Limits.{slot_limit};
ghost use Rattle.hwp_severity.specs.hwp_banks.Events.{own_event};
ghost use Rattle.hwp_severity.specs.Graded.{graded};
ghost use Rattle.hwp_guest.specs.Guests.{origin_of, guest_frame, running, outcome_row, outcome};
ghost use Rattle.hwp_guest.specs.GuestState.{GuestState, admitted, after};

use crate::access::{Access, Admit, Taken};
use hwp_kill::{Frame, Line, Mode, Slots, VSlot};
use hwp_severity::{Bank, Event, Grade, Mcg, McgBits, Severity, grade};
use std::marker::Model;

/// The program can go on at the saved instruction, which goes with the error.
const RUNNING: McgBits = McgBits {
    ripv: true,
    eipv: true,
};

/// A guest with its machine-check bank. A guest frame is the number of a translation. Clauses see the guest as its bad guest frames, and
/// whether it is stopped. It takes no memory.
#[derive(Drop)]
pub struct Guest {
    /// Empty between two machine checks.
    bank: Bank,
    mcg: Mcg,
    bad: Slots,
    stopped: bool,
}

impl Model for Guest {
    ghost use Rattle.std.specs.Prelude.{◌≡◌, None, false};
    ghost use Rattle.hwp_guest.specs.GuestState.{GuestState, state_code};

    ghost Value = { GuestState };

    ghost coded = { state_code };

    ghost view = { λ g. record { bad = g.bad; stopped = g.stopped } };

    ghost invariant = { λ g. (g.bank ≡ None) × (g.mcg ≡ false) };
}

impl Guest {
    /// A guest that goes on, without a bad frame.
    pub fn new() -> Guest
        ensures { result ≡ record { bad = set.empty; stopped = false } }
    {
        Guest {
            bank: Bank::new(),
            mcg: Mcg::new(),
            bad: Slots::new(),
            stopped: false,
        }
    }

    /// Whether an access by a translation goes on to memory. A stopped guest is told before a bad frame.
    pub fn admits(&self, slot: VSlot) -> Admit
        ensures { result ≡ admitted self.now slot.0 }
    {
        if self.stopped {
            return Admit::Stopped;
        }
        if self.bad.has(slot) {
            return Admit::Bad;
        }
        Admit::Yes
    }

    /// The guest's machine check for an access that was answered by SIGBUS. The event goes into the guest's bank and is graded, with RIPV
    /// and EIPV set, by the severity table. In user mode it is row S9, required, and the frame is bad from then on. In kernel mode it is row
    /// S10, and the guest is stopped. Then the bank is empty again.
    pub fn take(
        &mut self,
        slot: VSlot,
        line: Line,
        access: Access,
        mode: Mode,
    ) -> (Event, Grade, Taken)
        requires admitted { admitted self.old slot.0 ≡ Admit.Yes }
        requires within { slot.0 < slot_limit }
        ensures event { result.0 ≡ own_event (origin_of access) (guest_frame slot) line }
        ensures grade { result.1 ≡ graded result.0.status running mode }
        ensures row { result.1.row ≡ outcome_row mode }
        ensures taken { result.2 ≡ outcome mode }
        ensures state { self.new ≡ after mode slot.0 self.old }
    {
        let event = self.arrive(slot, line, access);
        let grade = grade(event.status, RUNNING, mode);
        match grade.severity {
            Severity::Required => {
                self.bad.insert(slot);
                (event, grade, Taken::Bad)
            }
            Severity::Stop => {
                self.stopped = true;
                (event, grade, Taken::Stop)
            }
            _ => unreachable!(),
        }
    }

    /// Logs the event into the guest's bank, enters the machine check, takes the event out of the bank, and leaves.
    fn arrive(&mut self, slot: VSlot, line: Line, access: Access) -> Event
        requires { slot.0 < slot_limit }
        ensures event { result ≡ own_event (origin_of access) (guest_frame slot) line }
        ensures state { self.new ≡ self.old }
    {
        self.bank.log(access.origin().event(Frame(slot.0), line));
        let Ok(()) = self.mcg.enter() else {
            unreachable!()
        };
        let Some(event) = self.bank.take() else {
            unreachable!()
        };
        self.mcg.leave();
        event
    }
}
