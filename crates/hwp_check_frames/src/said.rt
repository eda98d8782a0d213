ghost use Rattle.std.specs.Prelude.{◌≡◌, ◌+◌, ◌<◌, ◌≤◌, ◌^◌, ◌++◌, ℕ, List, Some, cond, length, IfOk, OnOk};
ghost use Rattle.hwp_check_rules.specs.Standing.{last_line};
ghost use Rattle.hwp_check_frames.specs.Counts.{at_key, raise};
ghost use Rattle.hwp_check_frames.specs.declared.noted.Noted.{Noted};
ghost use Rattle.hwp_check_frames.specs.Said.{AreNoted, is_place, row_at, row_said, rows_said, said_below};

use crate::counts::{Counts, Key, add, count};
use crate::noted::{Noted, is_result};
use hwp_check_rules::{Cpu, CpuLine, OutOfMemory, Report, rows_on};
use std::alloc::Global;
use std::collections::HashMap;

/// What event lines with a result say: by command, frame, and how many such lines stand before.
pub type Rows = HashMap<(Key, u64), Noted>;

/// What is noted of event lines with a result: how many each command has for each frame, and what each says.
pub struct Said {
    /// How many of a command there are for a frame.
    pub many: Counts,
    /// What each of them says.
    pub rows: Rows,
}

// Proved here once: crates above that let one go cite it.
impl Drop for Said {
    fn drop(self) {
        let Said {
            many: _many,
            rows: _rows,
        } = self;
    }
}

/// What a line says.
pub fn row_of(rows: &Rows, place: (Key, u64)) -> Option<Noted>
    ensures { result ≡ row_at rows.now place }
{
    rows.get(&place).copied()
}

/// Notes a line with a result.
fn note(said: &mut Said, key: Key, row: Noted) -> Result<(), OutOfMemory>
    requires room { at_key said.old.many key + 1 < 2 ^ 64 }
    ensures many { OnOk result ((q : (ℕ × ℕ) × ℕ) → at_key said.new.many q ≡ at_key said.old.many q + raise key q) }
    ensures rows { OnOk result ((p : ((ℕ × ℕ) × ℕ) × ℕ) → row_at said.new.rows p ≡ cond (is_place (key, at_key said.old.many key) p) (Some row) (row_at said.old.rows p)) }
{
    let place = count(&said.many, key);
    said.rows.insert((key, place), row)?;
    add(&mut said.many, key)
}

/// Notes a line of the processor, where it has a result.
fn note_row(said: &mut Said, cpu: u8, row: &CpuLine) -> Result<(), OutOfMemory>
    requires room { (q : (ℕ × ℕ) × ℕ) → at_key said.old.many q + 1 < 2 ^ 64 }
    ensures noted { OnOk result ((f : (ℕ × ℕ) × ℕ → List Noted) → AreNoted f said.old.many said.old.rows → AreNoted (λ q. f q ++ row_said cpu q row.now) said.new.many said.new.rows) }
    ensures few { OnOk result ((q : (ℕ × ℕ) × ℕ) → at_key said.new.many q ≤ at_key said.old.many q + 1) }
{
    match *row {
        CpuLine::Event(event) => {
            if is_result(event.acted) {
                let said_here = Noted {
                    row: event.row,
                    acted: event.acted,
                };
                note(said, ((cpu, event.seq), event.addr / 4096), said_here)?;
            }
            Ok(())
        }
        CpuLine::Offlined(_) | CpuLine::Guest(_) | CpuLine::Answer { .. } => Ok(()),
    }
}

/// Notes the lines of the processor that have a result.
fn note_rows(said: &mut Said, cpu: u8, rows: &[CpuLine]) -> Result<(), OutOfMemory>
    requires room { (q : (ℕ × ℕ) × ℕ) → at_key said.old.many q + length rows.now + 1 < 2 ^ 64 }
    ensures { OnOk result ((f : (ℕ × ℕ) × ℕ → List Noted) → AreNoted f said.old.many said.old.rows → AreNoted (λ q. f q ++ rows_said cpu q rows.now) said.new.many said.new.rows) }
{
    for row in rows {
        note_row(said, cpu, row)?;
    }
    Ok(())
}

/// What is noted of all event lines with a result.
pub fn said_of(alloc: Global, cpus: u8, report: &Report) -> Result<Said, OutOfMemory>
    requires each { length report.now.cpus ≡ cpus }
    requires room { last_line report.now < 2 ^ 64 }
    ensures { IfOk result (λ said. AreNoted (said_below (length report.now.cpus) report.now) said.many said.rows) }
{
    let mut said = Said {
        many: HashMap::new(alloc),
        rows: HashMap::new(alloc),
    };
    for cpu in 0..cpus {
        note_rows(&mut said, cpu, rows_on(report, Cpu(cpu)))?;
    }
    Ok(said)
}
