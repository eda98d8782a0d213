ghost use Rattle.std.specs.Prelude.{◌^◌, ◌<◌, ◌≤◌, ◌≡◌, ◌≢◌, [], ◌∷◌, codes, decimal, map, IfSome, MatchOption};
ghost use Rattle.hwp_report_text.specs.hwp_kill.Limits.{signal_limit};
ghost use Rattle.hwp_report_text.specs.ReportText.{entry_words, met_words, required_words, seen_words, signal_words};
ghost use Rattle.hwp_report_words.specs.Reads.{IsReadAs, two_words};
ghost use Rattle.hwp_report_words.specs.pages.Fits.{FailFits, MetFits, PlainEntryFits, SeenFits, SignalFits, ThreadFits};
ghost use Rattle.hwp_report_words.specs.pages.Verbs.{verb_of, verb_text};
ghost use Rattle.hwp_report_words.specs.pages.Words.{AimFits, aim_words, CountsFit, failure_words, IsAccessRead, IsPlainRead, MceFits, mce_words, NeedFits, need_words};

use crate::failures::Failure;
use crate::numbers::{
    is_text, read_hex, read_line_number, read_number, read_u8, read_u16, read_u32, read_who,
};
use crate::terms::{read_code, read_policy, read_situation};
use crate::verbs::Verb;
use hwp_report_text::{
    Code, Entry, Line, MAX_SIGNALS, Mask, Met, Proc, Seen, Signal, Thread, VSlot, What,
};

/// What an access met.
fn read_met(first: &[u8], second: &[u8]) -> Option<Met>
    ensures { IsReadAs MetFits met_words (first.now ∷ second.now ∷ []) result }
{
    if is_text(first, "sigbus") {
        let Some(thread) = read_u8(second) else {
            return None;
        };
        return Some(Met::Sigbus {
            thread: Thread(thread),
        });
    }
    let Some(mask) = read_hex(first) else {
        return None;
    };
    let Some(word) = read_number(second) else {
        return None;
    };
    Some(Met::Word {
        mask: Mask(mask),
        word,
    })
}

/// The translation, the line and what was met there, of an access.
fn read_access(words: &[&[u8]]) -> Option<(VSlot, Line, Met)>
    ensures { IsAccessRead (map (λ w. w.now) words.now) result }
{
    let [slot, line, first, second] = words else {
        return None;
    };
    let Some(slot) = read_u16(slot) else {
        return None;
    };
    let Some(line) = read_line_number(line) else {
        return None;
    };
    let Some(met) = read_met(first, second) else {
        return None;
    };
    Some((VSlot(slot), line, met))
}

/// The translation that is the only word.
fn read_slot(words: &[&[u8]]) -> Option<VSlot>
    ensures { IsReadAs (λ slot. slot.0 < 2 ^ 16) (λ slot. decimal slot.0 ∷ []) (map (λ w. w.now) words.now) result }
{
    let [slot] = words else {
        return None;
    };
    let Some(slot) = read_u16(slot) else {
        return None;
    };
    Some(VSlot(slot))
}

/// The translation, the line and the bad lines, of a machine check.
fn read_mce(words: &[&[u8]]) -> Option<(VSlot, Line, Mask)>
    ensures { IsReadAs MceFits mce_words (map (λ w. w.now) words.now) result }
{
    let [slot, line, mask] = words else {
        return None;
    };
    let Some(slot) = read_u16(slot) else {
        return None;
    };
    let Some(line) = read_line_number(line) else {
        return None;
    };
    let Some(mask) = read_hex(mask) else {
        return None;
    };
    Some((VSlot(slot), line, Mask(mask)))
}

/// A happening that has no words of its own.
fn bare(words: &[&[u8]], what: What) -> Option<What>
    ensures { MatchOption result (map (λ w. w.now) words.now ≢ []) (λ given. (map (λ w. w.now) words.now ≡ []) × (given ≡ what)) }
{
    if words.is_empty() { Some(what) } else { None }
}

/// What happened to a page, other than a memory failure, by the words behind those that say who.
fn read_plain(verb: Verb, words: &[&[u8]]) -> Option<What>
    ensures { IsPlainRead verb (map (λ w. w.now) words.now) result }
{
    match verb {
        Verb::Load => {
            let Some((slot, line, met)) = read_access(words) else {
                return None;
            };
            Some(What::Load { slot, line, met })
        }
        Verb::Store => {
            let Some((slot, line, met)) = read_access(words) else {
                return None;
            };
            Some(What::Store { slot, line, met })
        }
        Verb::In => bare(words, What::FaultIn),
        Verb::Map => match read_slot(words) {
            Some(slot) => Some(What::Map { slot }),
            None => None,
        },
        Verb::Free => match read_slot(words) {
            Some(slot) => Some(What::Free { slot }),
            None => None,
        },
        Verb::Drop => bare(words, What::Drop),
        Verb::Sync => bare(words, What::Sync),
        Verb::Out => bare(words, What::Out),
        Verb::Mce => {
            let Some((slot, line, mask)) = read_mce(words) else {
                return None;
            };
            Some(What::Mce { slot, line, mask })
        }
        Verb::Fail => None,
        Verb::Soft => bare(words, What::Soft),
    }
}

/// Whether a memory failure was required, and by which thread.
fn read_required(first: &[u8], second: &[u8]) -> Option<Option<Thread>>
    ensures { IsReadAs (λ thread. IfSome thread ThreadFits) required_words (first.now ∷ second.now ∷ []) result }
{
    if is_text(first, "opt") && is_text(second, "-") {
        return Some(None);
    }
    if !is_text(first, "req") {
        return None;
    }
    let Some(thread) = read_u8(second) else {
        return None;
    };
    Some(Some(Thread(thread)))
}

/// The number of a failure's signals.
fn read_signal_count(word: &[u8]) -> Option<u64>
    ensures { IsReadAs (λ count. count ≤ signal_limit) decimal word.now result }
{
    let Some(count) = read_number(word) else {
        return None;
    };
    if count <= MAX_SIGNALS as u64 {
        Some(count)
    } else {
        None
    }
}

/// The numbers of a failure's policies and of its signals.
fn read_counts(words: &[&[u8]]) -> Option<(u64, u64)>
    ensures { IsReadAs CountsFit two_words (map (λ w. w.now) words.now) result }
{
    let [seen, signals] = words else {
        return None;
    };
    let Some(seen) = read_number(seen) else {
        return None;
    };
    let Some(signals) = read_signal_count(signals) else {
        return None;
    };
    Some((seen, signals))
}

/// Whether a memory failure was required, and the numbers of its policies and of its signals.
fn read_need(words: &[&[u8]]) -> Option<(Option<Thread>, u64, u64)>
    ensures { IsReadAs NeedFits need_words (map (λ w. w.now) words.now) result }
{
    let [first, second, counts @ ..] = words else {
        return None;
    };
    let Some(required) = read_required(first, second) else {
        return None;
    };
    let Some((seen, signals)) = read_counts(counts) else {
        return None;
    };
    Some((required, seen, signals))
}

/// A memory failure, by the words behind `fail`.
pub fn read_failure(words: &[&[u8]]) -> Option<Failure>
    ensures { IsReadAs FailFits failure_words (codes "fail" ∷ map (λ w. w.now) words.now) result }
{
    let [cpu, seq, situation, need @ ..] = words else {
        return None;
    };
    let Some(who) = read_who(cpu, seq) else {
        return None;
    };
    let Some(situation) = read_situation(situation) else {
        return None;
    };
    let Some((required, seen, signals)) = read_need(need) else {
        return None;
    };
    Some(Failure {
        who,
        situation,
        required,
        seen,
        signals,
    })
}

/// An entry that is no memory failure, by its first word and the words behind it.
pub fn read_plain_entry(verb: Verb, words: &[&[u8]]) -> Option<Entry>
    ensures { MatchOption result
        ((e : Entry) → verb_of e.what ≡ verb → PlainEntryFits e → verb_text verb ∷ map (λ w. w.now) words.now ≡ entry_words e.who e.what → ⊥)
        (λ e. PlainEntryFits e × (verb_text verb ∷ map (λ w. w.now) words.now ≡ entry_words e.who e.what)) }
{
    let [cpu, seq, rest @ ..] = words else {
        return None;
    };
    let Some(who) = read_who(cpu, seq) else {
        return None;
    };
    let Some(what) = read_plain(verb, rest) else {
        return None;
    };
    Some(Entry { who, what })
}

/// A policy that was read, by the words behind `seen`.
pub fn read_seen(words: &[&[u8]]) -> Option<Seen>
    ensures { IsReadAs SeenFits seen_words (codes "seen" ∷ map (λ w. w.now) words.now) result }
{
    let [thread, policy, n] = words else {
        return None;
    };
    let Some(thread) = read_u8(thread) else {
        return None;
    };
    let Some(policy) = read_policy(policy) else {
        return None;
    };
    let Some(n) = read_u32(n) else {
        return None;
    };
    Some(Seen {
        thread: Thread(thread),
        policy,
        n,
    })
}

/// The code and the translation of a signal.
fn read_aim(words: &[&[u8]]) -> Option<(Code, VSlot)>
    ensures { IsReadAs AimFits aim_words (map (λ w. w.now) words.now) result }
{
    let [code, slot] = words else {
        return None;
    };
    let Some(code) = read_code(code) else {
        return None;
    };
    let Some(slot) = read_u16(slot) else {
        return None;
    };
    Some((code, VSlot(slot)))
}

/// A signal, by the words behind `signal`.
pub fn read_signal(words: &[&[u8]]) -> Option<Signal>
    ensures { IsReadAs SignalFits signal_words (codes "signal" ∷ map (λ w. w.now) words.now) result }
{
    let [process, thread, aim @ ..] = words else {
        return None;
    };
    let Some(process) = read_u8(process) else {
        return None;
    };
    let Some(thread) = read_u8(thread) else {
        return None;
    };
    let Some((code, slot)) = read_aim(aim) else {
        return None;
    };
    Some(Signal {
        process: Proc(process),
        thread: Thread(thread),
        code,
        slot,
    })
}
