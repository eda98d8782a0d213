ghost use Rattle.std.specs.Prelude.{◌≡◌, ◌<◌, ◌+◌, ◌^◌, ℕ, nat_lt, [], IfOk, length, replicate, slice_index_or};
ghost use Rattle.hwp_check_rules.specs.Answered.{is_event, is_offlined};
ghost use Rattle.hwp_check_rules.specs.hwp_law.Lines.{seq_of};
ghost use Rattle.hwp_check_answers.specs.Tallied.{counted, due_in, is_due, is_fit, is_frame, lacks_from};
ghost use Rattle.std.specs.Option.{option_copied};
ghost use Rattle.hwp_check_rules.specs.hwp_check_event_line.OfCommands.{AreShown};
ghost use Rattle.hwp_check_rules.specs.hwp_check_event_line.Firsts.{first_of};
ghost use Rattle.hwp_check_answers.specs.Judged.{IsScanned};

use hwp_check_events::Misfits;
use hwp_check_rules::{CpuLine, Frame, List, OfflinedLine, OutOfMemory, Shown, seq_of};
use std::alloc::Global;

/// Whether the line is an event line.
fn is_event(row: &CpuLine) -> bool
    ensures { result ≡ is_event row.now }
{
    matches!(row, CpuLine::Event(_))
}

/// Whether it is the line of a frame taken out of use.
fn is_offlined(row: &CpuLine) -> bool
    ensures { result ≡ is_offlined row.now }
{
    matches!(row, CpuLine::Offlined(_))
}

/// Counts one more for the command, where that counts and there is such a command.
fn count_if(list: &mut Vec<usize>, counts: bool, seq: u32)
    requires { (seq : ℕ) → slice_index_or list.old.items seq 0 + 1 < 2 ^ 64 }
    ensures { list.new.items ≡ counted counts seq list.old.items }
{
    let at = seq as usize;
    if counts && at < list.len() {
        list[at] += 1;
    }
}

/// Whether the frame is the one that is due.
fn is_frame(due: Option<&Frame>, frame: Frame) -> bool
    ensures { result ≡ is_frame (option_copied due.entry) frame }
{
    match due {
        Some(due) => due.0 == frame.0,
        None => false,
    }
}

/// Whether the line is the one that is due, where it is of one of the commands.
fn is_due(
    dues: &[List<Frame>],
    events: &[List<Shown>],
    passed: &[usize],
    told: &[usize],
    line: &OfflinedLine,
) -> bool
    requires events { length events.now ≡ length dues.now }
    requires passed { length passed.now ≡ length dues.now }
    requires told { length told.now ≡ length dues.now }
    ensures { result ≡ is_due dues.now events.now passed.now told.now line.now }
{
    let at = line.seq as usize;
    if at >= dues.len() {
        return true;
    }
    is_frame(dues[at].as_slice().get(told[at]), line.frame) && passed[at] == events[at].len()
}

/// Whether the line, if it is of a frame taken out of use, is the one that is due.
fn is_fit(
    dues: &[List<Frame>],
    events: &[List<Shown>],
    passed: &[usize],
    told: &[usize],
    row: &CpuLine,
) -> bool
    requires events { length events.now ≡ length dues.now }
    requires passed { length passed.now ≡ length dues.now }
    requires told { length told.now ≡ length dues.now }
    ensures { result ≡ is_fit dues.now events.now passed.now told.now row.now }
{
    match row {
        CpuLine::Offlined(line) => is_due(dues, events, passed, told, line),
        CpuLine::Event(_) | CpuLine::Guest(_) | CpuLine::Answer { .. } => true,
    }
}

/// The first row at fault: the one found so far, or this one, if it doesn't fit.
fn first_of(found: Option<usize>, fits: bool, number: usize) -> Option<usize>
    ensures { result ≡ first_of found fits number }
{
    match found {
        Some(row) => Some(row),
        None if fits => None,
        None => Some(number),
    }
}

/// Whether the command with the number has fewer lines of frames taken out of use than frames that are due.
fn has_fewer(dues: &[List<Frame>], told: &[usize], number: usize) -> bool
    requires within { number < length dues.now }
    requires told { length told.now ≡ length dues.now }
    ensures { result ≡ nat_lt (slice_index_or told.now number 0) (length (slice_index_or dues.now number [])) }
{
    told[number] < dues[number].len()
}

/// Whether a command has.
fn lacks(dues: &[List<Frame>], told: &[usize]) -> bool
    requires { length told.now ≡ length dues.now }
    ensures { result ≡ lacks_from dues.now told.now }
{
    for number in 0..dues.len() {
        if has_fewer(dues, told, number) {
            return true;
        }
    }
    false
}

/// So many counts of none.
fn zeros(alloc: Global, count: usize) -> Result<Vec<usize>, OutOfMemory>
    ensures { IfOk result (λ list. list.items ≡ replicate count 0) }
{
    Ok(vec![in alloc; 0; count]?)
}

/// Counts the line among those of its command, of its kind.
fn count_row(passed: &mut Vec<usize>, told: &mut Vec<usize>, row: &CpuLine)
    requires passed { (seq : ℕ) → slice_index_or passed.old.items seq 0 + 1 < 2 ^ 64 }
    requires told { (seq : ℕ) → slice_index_or told.old.items seq 0 + 1 < 2 ^ 64 }
    ensures passed { passed.new.items ≡ counted (is_event row.now) (seq_of row.now) passed.old.items }
    ensures told { told.new.items ≡ counted (is_offlined row.now) (seq_of row.now) told.old.items }
{
    count_if(passed, is_event(row), seq_of(row));
    count_if(told, is_offlined(row), seq_of(row));
}

/// What is wrong about a processor's lines of frames taken out of use, by the frames that are due of each command and the event lines
/// of each.
pub(crate) fn scan(
    alloc: Global,
    rows: &[CpuLine],
    events: &[List<Shown>],
    dues: &[List<Frame>],
) -> Result<Misfits, OutOfMemory>
    requires events { AreShown rows.now (length dues.now) events.now }
    ensures { IfOk result (λ found. IsScanned (due_in dues.now) (length dues.now) rows.now found) }
{
    let mut passed = zeros(alloc, dues.len())?;
    let mut told = zeros(alloc, dues.len())?;
    let mut wrong = None;
    for number in 0..rows.len() {
        let fits = is_fit(
            dues,
            events,
            passed.as_slice(),
            told.as_slice(),
            &rows[number],
        );
        wrong = first_of(wrong, fits, number);
        count_row(&mut passed, &mut told, &rows[number]);
    }
    Ok(Misfits {
        lacks: lacks(dues, told.as_slice()),
        wrong,
    })
}
