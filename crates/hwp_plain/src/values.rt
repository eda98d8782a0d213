//! What a word of the shared memory says, in its fields.
ghost use Rattle.std.specs.Prelude.{◌≡◌, ◌++◌, OnOk, string_bytes};
ghost use Rattle.hwp_plain.specs.TraceText.{counter_words, cycle_words, ended_words, frame_words, in_words, lock_words, mark_words, owner_words, policy_words, pte_words, spaced, stop_words, stopper_words, value_words};

use crate::line_words::{put_flag, put_named, put_number, put_set, put_word};
use hwp_core_rule::{
    CacheWord, CounterWord, Cpu, Frame, FrameWord, OutOfMemory, Page, PageWord, PolicyWord,
    ProcessWord, Pte, SharedWord, StopWord, policy_word,
};

/// What the word of a place says.
pub(crate) fn put_value(out: &mut String, place: SharedWord, word: u64) -> Result<(), OutOfMemory>
    ensures { OnOk result (string_bytes out.new ≡ string_bytes out.old ++ spaced (value_words place word)) }
{
    match place {
        SharedWord::Frame(_) => put_frame(out, FrameWord::unpack(word)),
        SharedWord::Trans(_) => put_pte(out, Pte::unpack(word)),
        SharedWord::Cache(_) => put_in(out, CacheWord::unpack(word).frame),
        SharedWord::Page(_) => put_lock(out, PageWord::unpack(word).locked),
        SharedWord::Free(_) | SharedWord::Bad(_) | SharedWord::Weak(_) => put_set(out, word),
        SharedWord::Available => put_number(out, word),
        SharedWord::Counter => put_counter(out, CounterWord::unpack(word)),
        SharedWord::Process(_) => put_ended(out, ProcessWord::unpack(word).ended_by),
        SharedWord::Policy(_) => put_policy(out, PolicyWord::unpack(word)),
        SharedWord::Loss(_) => put_named(out, "lost", word),
        SharedWord::Stop => put_stop(out, StopWord::unpack(word)),
    }
}

fn put_frame(out: &mut String, word: FrameWord) -> Result<(), OutOfMemory>
    ensures { OnOk result (string_bytes out.new ≡ string_bytes out.old ++ spaced (frame_words word)) }
{
    put_named(out, "count", u64::from(word.count))?;
    put_owner(out, word.owner)?;
    put_marks(out, word)?;
    put_cycle(out, word.cycle)
}

fn put_marks(out: &mut String, word: FrameWord) -> Result<(), OutOfMemory>
    ensures { OnOk result (string_bytes out.new ≡ string_bytes out.old ++ spaced (mark_words word)) }
{
    put_flag(out, word.locked, "locked")?;
    put_flag(out, word.poisoned, "poisoned")?;
    put_flag(out, word.handled, "handled")?;
    put_flag(out, word.kernel, "kernel")
}

fn put_owner(out: &mut String, owner: Option<Page>) -> Result<(), OutOfMemory>
    ensures { OnOk result (string_bytes out.new ≡ string_bytes out.old ++ spaced (owner_words owner)) }
{
    match owner {
        Some(page) => put_named(out, "owner", u64::from(page.0)),
        None => Ok(()),
    }
}

fn put_cycle(out: &mut String, cycle: u32) -> Result<(), OutOfMemory>
    ensures { OnOk result (string_bytes out.new ≡ string_bytes out.old ++ spaced (cycle_words cycle)) }
{
    if cycle == 0 {
        Ok(())
    } else {
        put_named(out, "cycle", u64::from(cycle))
    }
}

fn put_pte(out: &mut String, pte: Pte) -> Result<(), OutOfMemory>
    ensures { OnOk result (string_bytes out.new ≡ string_bytes out.old ++ spaced (pte_words pte)) }
{
    match pte {
        Pte::Empty => put_word(out, "none"),
        Pte::At(frame) => put_named(out, "frame", u64::from(frame.0)),
        Pte::Poison => put_word(out, "poison"),
    }
}

fn put_in(out: &mut String, frame: Option<Frame>) -> Result<(), OutOfMemory>
    ensures { OnOk result (string_bytes out.new ≡ string_bytes out.old ++ spaced (in_words frame)) }
{
    match frame {
        Some(frame) => put_named(out, "frame", u64::from(frame.0)),
        None => put_word(out, "none"),
    }
}

fn put_lock(out: &mut String, locked: bool) -> Result<(), OutOfMemory>
    ensures { OnOk result (string_bytes out.new ≡ string_bytes out.old ++ spaced (lock_words locked)) }
{
    put_word(out, if locked { "locked" } else { "unlocked" })
}

fn put_counter(out: &mut String, word: CounterWord) -> Result<(), OutOfMemory>
    ensures { OnOk result (string_bytes out.new ≡ string_bytes out.old ++ spaced (counter_words word)) }
{
    write!(
        out,
        "poisoned {} hardware {} ",
        word.poisoned, word.hardware
    )
}

fn put_ended(out: &mut String, page: Option<Page>) -> Result<(), OutOfMemory>
    ensures { OnOk result (string_bytes out.new ≡ string_bytes out.old ++ spaced (ended_words page)) }
{
    match page {
        Some(page) => put_named(out, "ended", u64::from(page.0)),
        None => put_word(out, "alive"),
    }
}

fn put_policy(out: &mut String, word: PolicyWord) -> Result<(), OutOfMemory>
    ensures { OnOk result (string_bytes out.new ≡ string_bytes out.old ++ spaced (policy_words word)) }
{
    put_named(out, policy_word(word.policy), word.settings)
}

fn put_stopper(out: &mut String, cpu: Option<Cpu>) -> Result<(), OutOfMemory>
    ensures { OnOk result (string_bytes out.new ≡ string_bytes out.old ++ spaced (stopper_words cpu)) }
{
    match cpu {
        Some(cpu) => put_named(out, "cpu", u64::from(cpu.0)),
        None => put_word(out, "none"),
    }
}

fn put_stop(out: &mut String, word: StopWord) -> Result<(), OutOfMemory>
    ensures { OnOk result (string_bytes out.new ≡ string_bytes out.old ++ spaced (stop_words word)) }
{
    put_stopper(out, word.cpu)?;
    put_flag(out, word.no_memory, "nomemory")
}
