ghost use Rattle.std.specs.Prelude.{◌≡◌, ◌∷◌, [], ◌++◌, OnOk, string_bytes, codes, decimal, map};
ghost use Rattle.std.specs.List.{flat_map};
ghost use Rattle.hwp_page.specs.hwp_geom.Words.{line};
ghost use Rattle.hwp_report_text.specs.Terms.{situation_word as situation_text};
ghost use Rattle.hwp_report_text.specs.ReportText.{entry_lines, met_words, required_words, seen_words, signal_words, verb_words};

use crate::printing::verbs::put_verb;
use crate::terms::{code_word, situation_word};
use hwp_page::{
    Entry, Line, Met, OutOfMemory, Seen, Signal, Situation, Thread, VSlot, What, Who, policy_word,
};
use hwp_script_words::{Word, put_line};

/// The lines below a page.
pub(crate) fn put_entries(out: &mut String, entries: &[Entry]) -> Result<(), OutOfMemory>
    ensures { OnOk result (string_bytes out.new ≡ string_bytes out.old ++ flat_map line (flat_map entry_lines entries.now)) }
{
    for entry in entries {
        put_entry(out, entry)?;
    }
    Ok(())
}

fn put_entry(out: &mut String, entry: &Entry) -> Result<(), OutOfMemory>
    ensures { OnOk result (string_bytes out.new ≡ string_bytes out.old ++ flat_map line (entry_lines entry.now)) }
{
    let who = entry.who;
    match &entry.what {
        What::Load { slot, line, met } => put_access(out, "load", who, *slot, *line, *met),
        What::Store { slot, line, met } => put_access(out, "store", who, *slot, *line, *met),
        What::FaultIn => put_verb(out, "in", who, &[]),
        What::Map { slot } => put_verb(out, "map", who, &[Word::Number(slot.0 as u64)]),
        What::Free { slot } => put_verb(out, "free", who, &[Word::Number(slot.0 as u64)]),
        What::Drop => put_verb(out, "drop", who, &[]),
        What::Sync => put_verb(out, "sync", who, &[]),
        What::Out => put_verb(out, "out", who, &[]),
        What::Mce { slot, line, mask } => put_verb(
            out,
            "mce",
            who,
            &[
                Word::Number(slot.0 as u64),
                Word::Number(line.get() as u64),
                Word::Hex(mask.0),
            ],
        ),
        What::Fail {
            situation,
            required,
            seen,
            signals,
        } => {
            let seen = seen.as_slice();
            let signals = signals.as_slice();
            put_failure(out, who, *situation, *required, seen.len(), signals.len())?;
            put_seen_lines(out, seen)?;
            put_signal_lines(out, signals)
        }
        What::Soft => put_verb(out, "soft", who, &[]),
    }
}

fn put_access(
    out: &mut String,
    verb: &'static str,
    who: Who,
    slot: VSlot,
    at: Line,
    met: Met,
) -> Result<(), OutOfMemory>
    ensures { OnOk result (string_bytes out.new ≡ string_bytes out.old
        ++ line (verb_words verb.now who (decimal slot.0 ∷ decimal at ∷ met_words met))) }
{
    let slot = Word::Number(slot.0 as u64);
    let at = Word::Number(at.get() as u64);
    match met {
        Met::Word { mask, word } => put_verb(
            out,
            verb,
            who,
            &[slot, at, Word::Hex(mask.0), Word::Number(word)],
        ),
        Met::Sigbus { thread } => put_verb(
            out,
            verb,
            who,
            &[
                slot,
                at,
                Word::Text("sigbus"),
                Word::Number(thread.0 as u64),
            ],
        ),
    }
}

fn put_failure(
    out: &mut String,
    who: Who,
    situation: Situation,
    required: Option<Thread>,
    seen: usize,
    signals: usize,
) -> Result<(), OutOfMemory>
    ensures { OnOk result (string_bytes out.new ≡ string_bytes out.old
        ++ line (verb_words (codes "fail") who (situation_text situation ∷ (required_words required ++ decimal seen ∷ decimal signals ∷ [])))) }
{
    let situation = Word::Text(situation_word(situation));
    let seen = Word::Number(seen as u64);
    let signals = Word::Number(signals as u64);
    match required {
        Some(thread) => put_verb(
            out,
            "fail",
            who,
            &[
                situation,
                Word::Text("req"),
                Word::Number(thread.0 as u64),
                seen,
                signals,
            ],
        ),
        None => put_verb(
            out,
            "fail",
            who,
            &[situation, Word::Text("opt"), Word::Text("-"), seen, signals],
        ),
    }
}

fn put_seen_lines(out: &mut String, lines: &[Seen]) -> Result<(), OutOfMemory>
    ensures { OnOk result (string_bytes out.new ≡ string_bytes out.old ++ flat_map line (map seen_words lines.now)) }
{
    for seen in lines {
        put_seen(out, *seen)?;
    }
    Ok(())
}

fn put_seen(out: &mut String, seen: Seen) -> Result<(), OutOfMemory>
    ensures { OnOk result (string_bytes out.new ≡ string_bytes out.old ++ line (seen_words seen)) }
{
    let policy = policy_word(seen.policy);
    put_line(
        out,
        Word::Text("seen"),
        &[
            Word::Number(seen.thread.0 as u64),
            Word::Text(policy),
            Word::Number(seen.n as u64),
        ],
    )
}

fn put_signal_lines(out: &mut String, lines: &[Signal]) -> Result<(), OutOfMemory>
    ensures { OnOk result (string_bytes out.new ≡ string_bytes out.old ++ flat_map line (map signal_words lines.now)) }
{
    for signal in lines {
        put_signal(out, *signal)?;
    }
    Ok(())
}

fn put_signal(out: &mut String, signal: Signal) -> Result<(), OutOfMemory>
    ensures { OnOk result (string_bytes out.new ≡ string_bytes out.old ++ line (signal_words signal)) }
{
    let code = code_word(signal.code);
    put_line(
        out,
        Word::Text("signal"),
        &[
            Word::Number(signal.process.0 as u64),
            Word::Number(signal.thread.0 as u64),
            Word::Text(code),
            Word::Number(signal.slot.0 as u64),
        ],
    )
}
