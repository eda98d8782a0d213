//! A machine check: the bank that stops the machine, and the grades.

use crate::checking::check;
use hwp_banks::{Bank, Event, Status};
use hwp_kill::Mode;
use hwp_severity::{Grade, McgBits, Severity, handle};

/// A bank after an event of this status. A status of 0 leaves it empty.
fn bank_after(status: u64) -> Bank {
    let mut bank = Bank::new();
    bank.log(Event {
        status: Status(status),
        addr: 0x1000,
        misc: 0x86,
    });
    bank
}

fn graded(severity: Severity, row: u8) -> Grade {
    Grade { severity, row }
}

const BOTH: McgBits = McgBits {
    ripv: true,
    eipv: true,
};

/// A machine check in user mode over three banks stops at this one, and grades their events so.
fn decides(statuses: [u64; 3], stop: Option<u8>, acts: [Grade; 3]) -> bool {
    let [first, second, third] = statuses;
    let banks = [bank_after(first), bank_after(second), bank_after(third)];
    let decision = handle(&banks, BOTH, Mode::User);
    (decision.stop == stop) & (decision.acts == acts)
}

#[test]
#[rattlefmt::skip]
fn the_lowest_stopping_bank_stops_the_machine(rt: HostRuntime) {
    let none = graded(Severity::None, 1);
    let corrupt = graded(Severity::Stop, 3);
    let keep = graded(Severity::Keep, 4);
    let load = graded(Severity::Required, 9);
    let lost = graded(Severity::Stop, 11);
    let scrubbed = graded(Severity::Optional, 12);
    check(
        &rt,
        decides([0, 0, 0], None, [none, none, none])
            & decides([0xbd80000000000134, 0x9c000000000000c0, 0xbd000000000000c0], None, [load, keep, scrubbed])
            & decides([0xbd80000000000134, 0xbe00000000000000, 0xbd80000000000000], Some(1), [load, corrupt, lost])
            & decides([0xbd80000000000000, 0, 0xbe00000000000000], Some(0), [lost, none, corrupt])
            & decides([0, 0xbd80000000000150, 0xbe00000000000000], Some(2), [none, load, corrupt]),
    );
}

#[test]
fn two_raw_events_of_one_bank_stop_the_machine(rt: HostRuntime) {
    let mut raw = bank_after(0xbd000000000000c0);
    raw.log(Event {
        status: Status(0xbd80000000000134),
        addr: 0x2000,
        misc: 0x86,
    });
    let banks = [Bank::new(), raw, Bank::new()];
    let decision = handle(&banks, BOTH, Mode::User);
    check(
        &rt,
        (decision.stop == Some(1)) & (decision.acts[1] == graded(Severity::Stop, 8)),
    );
}
