ghost use Rattle.std.specs.Prelude.{◌≡◌, [], ◌∷◌, ◌++◌, IfOk, OnOk, string_bytes, codes, decimal};
ghost use Rattle.std.specs.List.{enumerate_from, flat_map};
ghost use Rattle.hwp_script_words.specs.Kinds.{kind_text};
ghost use Rattle.hwp_core_rule.specs.hwp_geom.Words.{line};
ghost use Rattle.hwp_plain.specs.TraceText.{change_words, place_words, spaced, trace_text, turn_line, turn_word};

use crate::line_words::{put_named, put_word};
use crate::trace_line::TraceLine;
use crate::values::put_value;
use hwp_core_rule::{Kind, OutOfMemory, SharedWord, Text, Turn, Who};
use hwp_script_words::kind_name;
use std::alloc::Global;

/// The one text of a trace.
pub fn print_trace(alloc: Global, lines: &[TraceLine]) -> Result<Text, OutOfMemory>
    ensures { IfOk result (λ text. text ≡ trace_text lines.now) }
{
    let mut out = String::new(alloc);
    writeln!(out, "hwp-trace 1")?;
    put_turns(&mut out, lines)?;
    Ok(Text::from_string(out))
}

fn put_turns(out: &mut String, lines: &[TraceLine]) -> Result<(), OutOfMemory>
    ensures { OnOk result (string_bytes out.new ≡ string_bytes out.old ++ flat_map turn_line (enumerate_from 0 lines.now)) }
{
    for (number, told) in lines.iter().enumerate() {
        put_turn(out, number, *told)?;
    }
    Ok(())
}

/// The line of a turn.
fn put_turn(out: &mut String, number: usize, told: TraceLine) -> Result<(), OutOfMemory>
    ensures { OnOk result (string_bytes out.new ≡ string_bytes out.old ++ turn_line (number, told)) }
{
    put_head(out, number, told.who, told.kind)?;
    put_place(out, told.place)?;
    put_word(out, ":")?;
    put_change(out, told.place, told.before, told.after)?;
    put_end(out, told.turn)
}

/// The number, the command, and the kind of the step.
fn put_head(out: &mut String, number: usize, who: Who, kind: Kind) -> Result<(), OutOfMemory>
    ensures { OnOk result (string_bytes out.new ≡ string_bytes out.old
        ++ spaced (decimal number ∷ decimal who.cpu.0 ∷ decimal who.seq ∷ kind_text kind ∷ [])) }
{
    let kind = kind_name(kind);
    write!(out, "{number} {} {} {kind} ", who.cpu.0, who.seq)
}

/// The name of a word.
fn put_place(out: &mut String, place: SharedWord) -> Result<(), OutOfMemory>
    ensures { OnOk result (string_bytes out.new ≡ string_bytes out.old ++ spaced (place_words place)) }
{
    match place {
        SharedWord::Frame(frame) => put_named(out, "frame", u64::from(frame.0)),
        SharedWord::Trans(slot) => put_named(out, "trans", u64::from(slot.0)),
        SharedWord::Cache(page) => put_named(out, "cache", u64::from(page.0)),
        SharedWord::Page(page) => put_named(out, "page", u64::from(page.0)),
        SharedWord::Free(number) => put_named(out, "free", u64::from(number)),
        SharedWord::Available => put_word(out, "avail"),
        SharedWord::Bad(frame) => put_named(out, "bad", u64::from(frame.0)),
        SharedWord::Weak(frame) => put_named(out, "weak", u64::from(frame.0)),
        SharedWord::Counter => put_word(out, "count"),
        SharedWord::Process(process) => put_named(out, "proc", u64::from(process.0)),
        SharedWord::Policy(thread) => put_named(out, "policy", u64::from(thread.0)),
        SharedWord::Loss(file) => put_named(out, "file", u64::from(file.0)),
        SharedWord::Stop => put_word(out, "stop"),
    }
}

/// What the word said, and what it says now, if the step changed it.
fn put_change(
    out: &mut String,
    place: SharedWord,
    before: u64,
    after: u64,
) -> Result<(), OutOfMemory>
    ensures { OnOk result (string_bytes out.new ≡ string_bytes out.old ++ spaced (change_words place before after)) }
{
    put_value(out, place, before)?;
    if before == after {
        return Ok(());
    }
    put_word(out, "->")?;
    put_value(out, place, after)
}

fn turn_name(turn: Turn) -> &'static str
    ensures { result.now ≡ turn_word turn }
{
    match turn {
        Turn::Moved => "moved",
        Turn::Waits(_) => "waits",
        Turn::Changed(_) => "changed",
        Turn::Answered => "answered",
        Turn::Finished => "finished",
        Turn::NoMemory => "nomemory",
    }
}

/// What the turn came to.
fn put_end(out: &mut String, turn: Turn) -> Result<(), OutOfMemory>
    ensures { OnOk result (string_bytes out.new ≡ string_bytes out.old ++ line (codes ":" ∷ turn_word turn ∷ [])) }
{
    let turn = turn_name(turn);
    writeln!(out, ": {turn}")
}
