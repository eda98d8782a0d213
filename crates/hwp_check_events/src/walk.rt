ghost use Rattle.std.specs.Prelude.{◌≡◌, ◌*◌, [], length};
ghost use Rattle.hwp_check_event_line.specs.Reading.{copies_in};
ghost use Rattle.hwp_check_events.specs.Cases.{rows_in};
ghost use Rattle.hwp_check_events.specs.Walked.{IsTableOf, IsWalked, joined, place_at, sooner};

use crate::indexed::IndexedProcessor;
use crate::judge::command_faults;
use crate::misfits::Misfits;
use crate::tables::mark;
use hwp_banks::Bank;
use hwp_check_event_line::{Faults, Shown};

/// The lower of a row that was found so far, if one was, and one more.
fn sooner(found: Option<usize>, place: usize) -> Option<usize>
    ensures { result ≡ sooner found place }
{
    match found {
        None => Some(place),
        Some(first) => Some(first.min(place)),
    }
}

/// Where the event line with this number stands.
fn place_at(lines: &[Shown], number: usize) -> usize
    ensures { result ≡ place_at lines.now number }
{
    match lines.get(number) {
        Some(line) => line.place,
        None => 0,
    }
}

/// What was found so far with what is wrong about one command more.
fn join(found: Misfits, faults: Faults, lines: &[Shown]) -> Misfits
    ensures { result ≡ joined found faults lines.now }
{
    let wrong = match faults.wrong {
        None => found.wrong,
        Some(number) => sooner(found.wrong, place_at(lines, number)),
    };
    Misfits {
        lacks: found.lacks || faults.lacks,
        wrong,
    }
}

/// What is wrong about the event lines of a processor. The table of marked lines is filled.
pub(crate) fn walk(processor: &IndexedProcessor<'_>, table: &mut Vec<u8>) -> Misfits
    requires size { length table.old.items ≡ 2 * processor.now.script.layout.frames }
    requires empty { IsTableOf [] table.old.items }
    ensures { IsWalked processor.now.script (copies_in processor.now.copies) processor.now.report processor.now.cpu processor.now.commands (rows_in processor.now.report processor.now.cpu) (length processor.now.commands) result }
{
    let mut raw = Bank::new();
    let mut found = Misfits {
        lacks: false,
        wrong: None,
    };
    for number in 0..processor.count() {
        let case = processor.case(number);
        let faults = command_faults(&case, table.as_slice(), &mut raw);
        found = join(found, faults, case.lines());
        mark(table, case.command());
    }
    found
}
