ghost use Rattle.std.specs.Prelude.{◌≡◌, ◌≢◌, ◌<◌, ◌≤◌, ◌⊎◌, ◌∷◌, map, codes, true, MatchOption, MatchResult};
ghost use Rattle.hwp_script_words.specs.hwp_geom.Limits.{line_limit, frame_limit, file_limit, process_limit, thread_limit, page_limit, translation_limit};
ghost use Rattle.hwp_script_lines.specs.Grammar.{bit, CommandFits, IsAccessWithin, IsCommand, raise_word};
ghost use Rattle.hwp_script_words.specs.Commands.{IsCollectorWithin};
ghost use Rattle.hwp_script_lines.specs.Misfits.{IsCommandMisfit, command_with, fork, is_access_word, is_frame_word, is_page_word, log_word, watch};

use crate::keywords::CommandWord;
use crate::numbers::{Misfit, read_numbers, three_registers};
use hwp_script_words::{
    Command, FileNo, Frame, LINES, Line, MAX_FILES, MAX_FRAMES, MAX_PAGES, MAX_PROCS, MAX_THREADS,
    MAX_THRESHOLD, MAX_TRANS, MAX_WINDOW, Page, PrctlArgs, Proc, Thread, VSlot, is_text,
};

/// The thread of this number, if there may be one.
fn thread_of(number: u64) -> Option<Thread>
    ensures { MatchOption result (thread_limit ≤ number) (λ thread. (thread ≡ record { 0 = number }) × (number < thread_limit)) }
{
    if number < u64::from(MAX_THREADS) {
        Some(Thread(number as u8))
    } else {
        None
    }
}

/// The translation of this number, if there may be one.
fn slot_of(number: u64) -> Option<VSlot>
    ensures { MatchOption result (translation_limit ≤ number) (λ slot. (slot ≡ record { 0 = number }) × (number < translation_limit)) }
{
    if number < u64::from(MAX_TRANS) {
        Some(VSlot(number as u16))
    } else {
        None
    }
}

/// The page of this number, if there may be one.
fn page_of(number: u64) -> Option<Page>
    ensures { MatchOption result (page_limit ≤ number) (λ page. (page ≡ record { 0 = number }) × (number < page_limit)) }
{
    if number < u64::from(MAX_PAGES) {
        Some(Page(number as u16))
    } else {
        None
    }
}

/// The frame of this number, if there may be one.
fn frame_of(number: u64) -> Option<Frame>
    ensures { MatchOption result (frame_limit ≤ number) (λ frame. (frame ≡ record { 0 = number }) × (number < frame_limit)) }
{
    if number < u64::from(MAX_FRAMES) {
        Some(Frame(number as u16))
    } else {
        None
    }
}

/// The file of this number, if there may be one.
fn file_of(number: u64) -> Option<FileNo>
    ensures { MatchOption result (file_limit ≤ number) (λ file. (file ≡ record { 0 = number }) × (number < file_limit)) }
{
    if number < u64::from(MAX_FILES) {
        Some(FileNo(number as u8))
    } else {
        None
    }
}

/// The process of this number, if there may be one.
fn process_of(number: u64) -> Option<Proc>
    ensures { MatchOption result (process_limit ≤ number) (λ process. (process ≡ record { 0 = number }) × (number < process_limit)) }
{
    if number < u64::from(MAX_PROCS) {
        Some(Proc(number as u8))
    } else {
        None
    }
}

/// The line of this number, if there is one.
fn line_of(number: u64) -> Option<Line>
    ensures { MatchOption result (line_limit ≤ number) (λ line. (line ≡ number) × (number < line_limit)) }
{
    if number >= LINES as u64 {
        return None;
    }
    Line::new(number as u8)
}

/// The thread, the translation and the line of an access.
fn access_of(thread: u64, slot: u64, line: u64) -> Option<(Thread, VSlot, Line)>
    ensures { MatchOption result (IsAccessWithin (record { 0 = thread }) (record { 0 = slot }) line → ⊥) (λ a. (a.0 ≡ record { 0 = thread }) × (a.1 ≡ record { 0 = slot }) × (a.2 ≡ line) × IsAccessWithin (record { 0 = thread }) (record { 0 = slot }) line) }
{
    let Some(thread) = thread_of(thread) else {
        return None;
    };
    let Some(slot) = slot_of(slot) else {
        return None;
    };
    let Some(line) = line_of(line) else {
        return None;
    };
    Some((thread, slot, line))
}

/// A line of a frame.
fn place_of(frame: u64, line: u64) -> Option<(Frame, Line)>
    ensures { MatchOption result ((frame < frame_limit) × (line < line_limit) → ⊥) (λ p. (p.0 ≡ record { 0 = frame }) × (p.1 ≡ line) × (frame < frame_limit) × (line < line_limit)) }
{
    let Some(frame) = frame_of(frame) else {
        return None;
    };
    let Some(line) = line_of(line) else {
        return None;
    };
    Some((frame, line))
}

/// Frames from the first to the last.
fn range_of(first: u64, last: u64) -> Option<(Frame, Frame)>
    ensures { MatchOption result ((first ≤ last) × (last < frame_limit) → ⊥) (λ r. (r.0 ≡ record { 0 = first }) × (r.1 ≡ record { 0 = last }) × (first ≤ last) × (last < frame_limit)) }
{
    if first > last {
        return None;
    }
    let Some(last) = frame_of(last) else {
        return None;
    };
    Some((Frame(first as u16), last))
}

/// The threshold and the window of a collector.
fn collector_of(threshold: u64, window: u64) -> Option<(u16, u8)>
    ensures { MatchOption result (IsCollectorWithin threshold window → ⊥) (λ c. (c.0 ≡ threshold) × (c.1 ≡ window) × IsCollectorWithin threshold window) }
{
    if threshold < 1 || threshold > u64::from(MAX_THRESHOLD) {
        return None;
    }
    if window < 1 || window > u64::from(MAX_WINDOW) {
        return None;
    }
    Some((threshold as u16, window as u8))
}

/// The truth value that is written as this number, if it is one.
fn truth(number: u64) -> Option<bool>
    ensures { MatchOption result (1 < number) (λ value. number ≡ bit value) }
{
    if number <= 1 { Some(number == 1) } else { None }
}

/// The bits RIPV and EIPV.
fn bits_of(ripv: u64, eipv: u64) -> Option<(bool, bool)>
    ensures { MatchOption result ((1 < ripv) ⊎ (1 < eipv)) (λ b. (ripv ≡ bit b.0) × (eipv ≡ bit b.1)) }
{
    let Some(ripv) = truth(ripv) else {
        return None;
    };
    let Some(eipv) = truth(eipv) else {
        return None;
    };
    Some((ripv, eipv))
}

/// The machine check of a thread that these words behind `raise user` say.
fn read_user(words: &[&[u8]]) -> Result<Command, Misfit>
    ensures { MatchResult result (IsCommand raise_word (codes "user" ∷ map (λ w. w.now) words.now)) (IsCommandMisfit raise_word (codes "user" ∷ map (λ w. w.now) words.now)) }
{
    let numbers = match read_numbers(words, 3) {
        Ok(numbers) => numbers,
        Err(misfit) => return Err(misfit),
    };
    let Some(thread) = thread_of(numbers[0]) else {
        return Err(Misfit::OverLimit);
    };
    let Some((ripv, eipv)) = bits_of(numbers[1], numbers[2]) else {
        return Err(Misfit::OverLimit);
    };
    Ok(Command::RaiseUser { thread, ripv, eipv })
}

/// The machine check in the kernel that these words behind `raise kernel` say.
fn read_kernel(words: &[&[u8]]) -> Result<Command, Misfit>
    ensures { MatchResult result (IsCommand raise_word (codes "kernel" ∷ map (λ w. w.now) words.now)) (IsCommandMisfit raise_word (codes "kernel" ∷ map (λ w. w.now) words.now)) }
{
    let numbers = match read_numbers(words, 2) {
        Ok(numbers) => numbers,
        Err(misfit) => return Err(misfit),
    };
    let Some((ripv, eipv)) = bits_of(numbers[0], numbers[1]) else {
        return Err(Misfit::OverLimit);
    };
    Ok(Command::RaiseKernel { ripv, eipv })
}

/// The machine check that these words behind `raise` say.
fn read_raise(words: &[&[u8]]) -> Result<Command, Misfit>
    ensures { MatchResult result (IsCommand raise_word (map (λ w. w.now) words.now)) (IsCommandMisfit raise_word (map (λ w. w.now) words.now)) }
{
    let [mode, rest @ ..] = words else {
        return Err(Misfit::Unknown);
    };
    if is_text(mode, "user") {
        return read_user(rest);
    }
    if is_text(mode, "kernel") {
        return read_kernel(rest);
    }
    if is_text(mode, "nested") && rest.is_empty() {
        Ok(Command::RaiseNested)
    } else {
        Err(Misfit::Unknown)
    }
}

/// The access of this first word behind which these numbers stand, if each is within its range.
fn access_with(word: CommandWord, numbers: [u64; 6]) -> Option<Command>
    requires { is_access_word word ≡ true }
    ensures { MatchOption result (CommandFits (command_with word numbers) → ⊥) (λ c. (c ≡ command_with word numbers) × CommandFits (command_with word numbers)) }
{
    let [first, second, third, fourth, _, _] = numbers;
    match word {
        CommandWord::Load => {
            let Some((thread, slot, line)) = access_of(first, second, third) else {
                return None;
            };
            Some(Command::Load { thread, slot, line })
        }
        CommandWord::Fetch => {
            let Some((thread, slot, line)) = access_of(first, second, third) else {
                return None;
            };
            Some(Command::Fetch { thread, slot, line })
        }
        CommandWord::KLoad => {
            let Some((thread, slot, line)) = access_of(first, second, third) else {
                return None;
            };
            Some(Command::KLoad { thread, slot, line })
        }
        CommandWord::Store => {
            let Some((thread, slot, line)) = access_of(first, second, third) else {
                return None;
            };
            let word = fourth;
            Some(Command::Store {
                thread,
                slot,
                line,
                word,
            })
        }
        _ => unreachable!(),
    }
}

/// The command of this first word about a translation, a page or a file, if the number behind it is within its range.
fn page_with(word: CommandWord, numbers: [u64; 6]) -> Option<Command>
    requires { is_page_word word ≡ true }
    ensures { MatchOption result (CommandFits (command_with word numbers) → ⊥) (λ c. (c ≡ command_with word numbers) × CommandFits (command_with word numbers)) }
{
    match word {
        CommandWord::Free => {
            let slot = slot_of(numbers[0])?;
            Some(Command::Free { slot })
        }
        CommandWord::Drop => {
            let page = page_of(numbers[0])?;
            Some(Command::Drop { page })
        }
        CommandWord::Sync => {
            let page = page_of(numbers[0])?;
            Some(Command::Sync { page })
        }
        CommandWord::Out => {
            let page = page_of(numbers[0])?;
            Some(Command::Out { page })
        }
        CommandWord::Fsync => {
            let file = file_of(numbers[0])?;
            Some(Command::Fsync { file })
        }
        CommandWord::Open => {
            let file = file_of(numbers[0])?;
            Some(Command::Open { file })
        }
        _ => unreachable!(),
    }
}

/// The command of this first word about frames behind which these numbers stand, if each is within its range.
fn frame_with(word: CommandWord, numbers: [u64; 6]) -> Option<Command>
    requires { is_frame_word word ≡ true }
    ensures { MatchOption result (CommandFits (command_with word numbers) → ⊥) (λ c. (c ≡ command_with word numbers) × CommandFits (command_with word numbers)) }
{
    match word {
        CommandWord::Bad => {
            let (frame, line) = place_of(numbers[0], numbers[1])?;
            Some(Command::Bad { frame, line })
        }
        CommandWord::Weak => {
            let (frame, line) = place_of(numbers[0], numbers[1])?;
            Some(Command::Weak { frame, line })
        }
        CommandWord::Scrub => {
            let (first, last) = range_of(numbers[0], numbers[1])?;
            Some(Command::Scrub { first, last })
        }
        CommandWord::Inject => {
            let frame = frame_of(numbers[0])?;
            Some(Command::Inject { frame })
        }
        CommandWord::Soft => {
            let frame = frame_of(numbers[0])?;
            Some(Command::Soft { frame })
        }
        CommandWord::Unpoison => {
            let frame = frame_of(numbers[0])?;
            Some(Command::Unpoison { frame })
        }
        _ => unreachable!(),
    }
}

/// The collector of this threshold and window, if both are within their ranges.
fn watch_with(threshold: u64, window: u64) -> Option<Command>
    ensures { MatchOption result (CommandFits (watch threshold window) → ⊥) (λ c. (c ≡ watch threshold window) × CommandFits (watch threshold window)) }
{
    let Some((threshold, window)) = collector_of(threshold, window) else {
        return None;
    };
    Some(Command::Watch { threshold, window })
}

/// The fork of this thread and process, if there may be both.
fn fork_with(thread: u64, process: u64) -> Option<Command>
    ensures { MatchOption result (CommandFits (fork thread process) → ⊥) (λ c. (c ≡ fork thread process) × CommandFits (fork thread process)) }
{
    let Some(thread) = thread_of(thread) else {
        return None;
    };
    let Some(process) = process_of(process) else {
        return None;
    };
    Some(Command::Fork { thread, process })
}

/// The command of this first word behind which these numbers stand, if each is within its range.
fn command_with(word: CommandWord, numbers: [u64; 6]) -> Option<Command>
    requires { (word ≢ log_word) × (word ≢ raise_word) }
    ensures { MatchOption result (CommandFits (command_with word numbers) → ⊥) (λ c. (c ≡ command_with word numbers) × CommandFits (command_with word numbers)) }
{
    match word {
        CommandWord::Load | CommandWord::Fetch | CommandWord::KLoad | CommandWord::Store => {
            access_with(word, numbers)
        }
        CommandWord::Free
        | CommandWord::Drop
        | CommandWord::Sync
        | CommandWord::Out
        | CommandWord::Fsync
        | CommandWord::Open => page_with(word, numbers),
        CommandWord::Prctl => {
            let [first, operation, arg2, arg3, arg4, arg5] = numbers;
            let Some(thread) = thread_of(first) else {
                return None;
            };
            let args = PrctlArgs {
                operation,
                arg2,
                arg3,
                arg4,
                arg5,
            };
            Some(Command::Prctl { thread, args })
        }
        CommandWord::Bad
        | CommandWord::Weak
        | CommandWord::Scrub
        | CommandWord::Inject
        | CommandWord::Soft
        | CommandWord::Unpoison => frame_with(word, numbers),
        CommandWord::Watch => watch_with(numbers[0], numbers[1]),
        CommandWord::Fork => fork_with(numbers[0], numbers[1]),
        CommandWord::Log | CommandWord::Raise => unreachable!(),
    }
}

/// The command of this first word, which has numbers only, that these words behind it say.
fn read_plain_command(word: CommandWord, words: &[&[u8]]) -> Result<Command, Misfit>
    requires { (word ≢ log_word) × (word ≢ raise_word) }
    ensures { MatchResult result (IsCommand word (map (λ w. w.now) words.now)) (IsCommandMisfit word (map (λ w. w.now) words.now)) }
{
    match read_numbers(words, word.number_count()) {
        Ok(numbers) => match command_with(word, numbers) {
            Some(command) => Ok(command),
            None => Err(Misfit::OverLimit),
        },
        Err(misfit) => Err(misfit),
    }
}

/// The command of this first word that these words behind it say.
pub(crate) fn read_command(word: CommandWord, words: &[&[u8]]) -> Result<Command, Misfit>
    ensures { MatchResult result (IsCommand word (map (λ w. w.now) words.now)) (IsCommandMisfit word (map (λ w. w.now) words.now)) }
{
    match word {
        CommandWord::Log => match three_registers(words) {
            Ok((status, addr, misc)) => Ok(Command::Log { status, addr, misc }),
            Err(misfit) => Err(misfit),
        },
        CommandWord::Raise => read_raise(words),
        _ => read_plain_command(word, words),
    }
}
