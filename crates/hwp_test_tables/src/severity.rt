//! The severity table, as a person reads it.

use crate::checking::check;
use hwp_banks::Status;
use hwp_kill::Mode;
use hwp_severity::{Grade, McgBits, Severity, grade};
use std::process::Abort;

/// What the table looks at, bit by bit.
#[derive(Clone, Copy)]
struct Case {
    val: bool,
    en: bool,
    pcc: bool,
    uc: bool,
    s: bool,
    ar: bool,
    over: bool,
    ripv: bool,
    eipv: bool,
    user: bool,
    addrv: bool,
    miscv: bool,
    code: u16,
}

impl Case {
    /// The case of ten bits.
    fn of(pattern: u16, addrv: bool, miscv: bool, code: u16) -> Case {
        Case {
            val: pattern & 1 != 0,
            en: pattern & 2 != 0,
            pcc: pattern & 4 != 0,
            uc: pattern & 8 != 0,
            s: pattern & 16 != 0,
            ar: pattern & 32 != 0,
            over: pattern & 64 != 0,
            ripv: pattern & 128 != 0,
            eipv: pattern & 256 != 0,
            user: pattern & 512 != 0,
            addrv,
            miscv,
            code,
        }
    }

    /// The status word, with a model-specific code that the table doesn't look at.
    fn status(&self) -> Status {
        let high = [
            (self.val, 0x8000000000000000),
            (self.over, 0x4000000000000000),
            (self.uc, 0x2000000000000000),
            (self.en, 0x1000000000000000),
            (self.miscv, 0x0800000000000000),
            (self.addrv, 0x0400000000000000),
            (self.pcc, 0x0200000000000000),
            (self.s, 0x0100000000000000),
            (self.ar, 0x0080000000000000),
        ];
        let mut word: u64 = 0x0000000000a50000 | u64::from(self.code);
        for (set, bit) in high {
            if set {
                word |= bit;
            }
        }
        Status(word)
    }

    /// The row, and its severity, as the table is read by a person.
    fn row(&self) -> (u8, Severity) {
        match (self.val, self.en, self.pcc, self.uc) {
            (false, _, _, _) => (1, Severity::None),
            (true, false, _, _) => (2, Severity::None),
            (true, true, true, _) => (3, Severity::Stop),
            (true, true, false, false) => (4, Severity::Keep),
            (true, true, false, true) => match (self.ripv, self.eipv) {
                (false, false) => (5, Severity::Stop),
                _ => self.row_of_uncorrected(),
            },
        }
    }

    fn row_of_uncorrected(&self) -> (u8, Severity) {
        let placed = self.addrv && self.miscv;
        match (self.s, self.ar, self.over) {
            (false, false, _) => (6, Severity::Deferred),
            (false, true, _) => (7, Severity::Stop),
            (true, true, true) => (8, Severity::Stop),
            (true, true, false) => match (self.code, placed, self.ripv, self.user) {
                (0x134, true, true, true) | (0x150, true, true, true) => (9, Severity::Required),
                (0x134, true, true, false) | (0x150, true, true, false) => (10, Severity::Stop),
                _ => (11, Severity::Stop),
            },
            (true, false, true) => (13, Severity::Logged),
            (true, false, false) => match (self.code, placed) {
                (0xc0, true) | (0xc7, true) | (0xcf, true) | (0x17a, true) => (
                    12,
                    Severity::Optional,
                ),
                _ => (13, Severity::Logged),
            },
        }
    }

    fn mode(&self) -> Mode {
        if self.user { Mode::User } else { Mode::Kernel }
    }
}

const CODES: &[u16] = &[0x134, 0x150, 0xc0, 0xc7, 0xcf, 0x17a, 0xbf, 0xd0, 0];

/// Grades the ten bits with each code, where the address and the misc are valid or not.
fn assert_rows(rt: &impl Abort, pattern: u16, addrv: bool, miscv: bool) {
    for code in CODES {
        let case = Case::of(pattern, addrv, miscv, *code);
        let (row, severity) = case.row();
        let mcg = McgBits {
            ripv: case.ripv,
            eipv: case.eipv,
        };
        let status = case.status();
        let graded = grade(status, mcg, case.mode());
        check(rt, graded == Grade { severity, row });
    }
}

#[test]
fn every_combination_has_its_row(rt: HostRuntime) {
    for pattern in 0..1024 {
        assert_rows(&rt, pattern, true, true);
        assert_rows(&rt, pattern, false, true);
        assert_rows(&rt, pattern, true, false);
        assert_rows(&rt, pattern, false, false);
    }
}
