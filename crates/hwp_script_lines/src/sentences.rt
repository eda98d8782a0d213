ghost use Rattle.std.specs.Prelude.{◌≡◌, ◌≢◌, ℕ, map, decimal, true, Bool, IfOk, MatchOption, MatchResult};
ghost use Rattle.hwp_script_words.specs.hwp_geom.Limits.{number};
ghost use Rattle.hwp_script_words.specs.hwp_geom.declared.Version.{Version};
ghost use Rattle.hwp_script_lines.specs.Grammar.{IsSentence, HasLockedShape, thread_keyword, page_keyword, schedule_keyword, header_keyword, trans_keyword, cow_keyword, command_keyword, end_keyword, handler_text};
ghost use Rattle.hwp_script_words.specs.Numbers.{IsNumber};
ghost use Rattle.hwp_script_lines.specs.Misfits.{ArePageWords, IsLockedFront, IsPageMisfit, IsSentenceMisfit, form_with, has_one_number};

use crate::commands::read_command;
use crate::keywords::{CommandWord, Keyword};
use crate::numbers::{Misfit, one_number, read_numbers};
use crate::script_line::{Backing, ScriptLine};
use crate::turns::read_schedule;
use hwp_script_words::{OutOfMemory, Version, is_text, read_number};
use std::alloc::Global;

/// Whether a thread has a handler, by its last word.
fn read_handler(word: &[u8]) -> Option<bool>
    ensures { MatchOption result ((handler : Bool) → word.now ≡ handler_text handler → ⊥) (λ handler. word.now ≡ handler_text handler) }
{
    if is_text(word, "handler") {
        Some(true)
    } else if is_text(word, "nohandler") {
        Some(false)
    } else {
        None
    }
}

/// The numbers that three words are.
fn three_of(first: &[u8], second: &[u8], third: &[u8]) -> Option<(u64, u64, u64)>
    ensures { MatchOption result ((m n p : ℕ) → IsNumber first.now m → IsNumber second.now n → IsNumber third.now p → ⊥) (λ n. IsNumber first.now n.0 × IsNumber second.now n.1 × IsNumber third.now n.2) }
{
    let Some(first) = read_number(first) else {
        return None;
    };
    let Some(second) = read_number(second) else {
        return None;
    };
    let Some(third) = read_number(third) else {
        return None;
    };
    Some((first, second, third))
}

/// The thread that these words behind `thread` declare.
fn read_thread(words: &[&[u8]]) -> Result<ScriptLine, Misfit>
    ensures { MatchResult result (IsSentence thread_keyword (map (λ w. w.now) words.now)) (IsSentenceMisfit thread_keyword (map (λ w. w.now) words.now)) }
{
    let [thread, process, cpu, word] = words else {
        return Err(Misfit::Unknown);
    };
    let Some(handler) = read_handler(word) else {
        return Err(Misfit::Unknown);
    };
    let Some((thread, process, cpu)) = three_of(thread, process, cpu) else {
        return Err(Misfit::BadNumber);
    };
    Ok(ScriptLine::Thread {
        thread,
        process,
        cpu,
        handler,
    })
}

/// The number of a page that isn't locked, and what stands behind it, as these words say it.
fn read_backing(words: &[&[u8]]) -> Result<(u64, Backing), Misfit>
    ensures { MatchResult result (ArePageWords (map (λ w. w.now) words.now)) (IsPageMisfit (map (λ w. w.now) words.now)) }
{
    match words {
        [page, kind] => {
            if !is_text(kind, "anon") {
                return Err(Misfit::Unknown);
            }
            match read_number(page) {
                Some(page) => Ok((page, Backing::Anon)),
                None => Err(Misfit::BadNumber),
            }
        }
        [page, kind, file, of, fill] => {
            if !is_text(kind, "file") || !is_text(of, "fill") {
                return Err(Misfit::Unknown);
            }
            match three_of(page, file, fill) {
                Some((page, file, fill)) => Ok((page, Backing::File { file, fill })),
                None => Err(Misfit::BadNumber),
            }
        }
        _ => Err(Misfit::Unknown),
    }
}

/// The words before `locked`, where that is the last word of a page's line.
fn before_locked<'a>(words: &'a [&'a [u8]]) -> Option<&'a [&'a [u8]]>
    ensures { MatchOption result (HasLockedShape (map (λ w. w.now) words.now) → ⊥) (λ front. IsLockedFront (map (λ w. w.now) words.now) (map (λ w. w.now) front.now)) }
{
    if words.len() != 3 && words.len() != 6 {
        return None;
    }
    let [front @ .., last] = words else {
        return None;
    };
    if is_text(last, "locked") {
        Some(front)
    } else {
        None
    }
}

/// The page that these words behind `page` declare.
fn read_page(words: &[&[u8]]) -> Result<ScriptLine, Misfit>
    ensures { MatchResult result (IsSentence page_keyword (map (λ w. w.now) words.now)) (IsSentenceMisfit page_keyword (map (λ w. w.now) words.now)) }
{
    match before_locked(words) {
        Some(front) => match read_backing(front) {
            Ok((page, backing)) => Ok(ScriptLine::Page {
                page,
                backing,
                locked: true,
            }),
            Err(misfit) => Err(misfit),
        },
        None => match read_backing(words) {
            Ok((page, backing)) => Ok(ScriptLine::Page {
                page,
                backing,
                locked: false,
            }),
            Err(misfit) => Err(misfit),
        },
    }
}

/// The version that a word names.
fn read_version(word: &[u8]) -> Option<Version>
    ensures { MatchOption result ((v : Version) → word.now ≡ decimal (number v) → ⊥) (λ v. word.now ≡ decimal (number v)) }
{
    if is_text(word, "1") {
        Some(Version::One)
    } else if is_text(word, "2") {
        Some(Version::Two)
    } else {
        None
    }
}

/// The head, if these words behind `hwp` are a version of the format.
fn read_header(words: &[&[u8]]) -> Result<ScriptLine, Misfit>
    ensures { MatchResult result (IsSentence header_keyword (map (λ w. w.now) words.now)) (IsSentenceMisfit header_keyword (map (λ w. w.now) words.now)) }
{
    let [version] = words else {
        return Err(Misfit::Unknown);
    };
    match read_version(version) {
        Some(version) => Ok(ScriptLine::Header(version)),
        None => Err(Misfit::Unknown),
    }
}

/// The end, if no words stand behind `end`.
fn read_end(words: &[&[u8]]) -> Result<ScriptLine, Misfit>
    ensures { MatchResult result (IsSentence end_keyword (map (λ w. w.now) words.now)) (IsSentenceMisfit end_keyword (map (λ w. w.now) words.now)) }
{
    match words {
        [] => Ok(ScriptLine::End),
        _ => Err(Misfit::Unknown),
    }
}

/// The line of this first word behind which this number stands.
fn numbered_form(keyword: Keyword, number: u64) -> ScriptLine
    requires { has_one_number keyword ≡ true }
    ensures { result ≡ form_with keyword number }
{
    match keyword {
        Keyword::Cpus => ScriptLine::Cpus(number),
        Keyword::Frames => ScriptLine::Frames(number),
        Keyword::Kernel => ScriptLine::Kernel(number),
        Keyword::Recovery => ScriptLine::Recovery(number),
        Keyword::Early => ScriptLine::Early(number),
        Keyword::File => ScriptLine::File(number),
        Keyword::Proc => ScriptLine::Proc(number),
        Keyword::Guest => ScriptLine::Guest(number),
        Keyword::Cpu => ScriptLine::Cpu(number),
        _ => unreachable!(),
    }
}

/// The line of this first word, which has just one number, that these words behind it say.
fn read_numbered(keyword: Keyword, words: &[&[u8]]) -> Result<ScriptLine, Misfit>
    requires { has_one_number keyword ≡ true }
    ensures { MatchResult result (IsSentence keyword (map (λ w. w.now) words.now)) (IsSentenceMisfit keyword (map (λ w. w.now) words.now)) }
{
    match one_number(words) {
        Ok(number) => Ok(numbered_form(keyword, number)),
        Err(misfit) => Err(misfit),
    }
}

/// The translation that these words behind `trans` declare.
fn read_trans(words: &[&[u8]]) -> Result<ScriptLine, Misfit>
    ensures { MatchResult result (IsSentence trans_keyword (map (λ w. w.now) words.now)) (IsSentenceMisfit trans_keyword (map (λ w. w.now) words.now)) }
{
    match read_numbers(words, 3) {
        Ok(numbers) => Ok(ScriptLine::Trans {
            slot: numbers[0],
            process: numbers[1],
            page: numbers[2],
        }),
        Err(misfit) => Err(misfit),
    }
}

/// The twin that these words behind `cow` give a translation.
fn read_cow(words: &[&[u8]]) -> Result<ScriptLine, Misfit>
    ensures { MatchResult result (IsSentence cow_keyword (map (λ w. w.now) words.now)) (IsSentenceMisfit cow_keyword (map (λ w. w.now) words.now)) }
{
    match read_numbers(words, 2) {
        Ok(numbers) => Ok(ScriptLine::Cow {
            slot: numbers[0],
            twin: numbers[1],
        }),
        Err(misfit) => Err(misfit),
    }
}

/// The line of a command with this first word that these words behind it say.
fn read_command_line(word: CommandWord, words: &[&[u8]]) -> Result<ScriptLine, Misfit>
    ensures { MatchResult result (IsSentence (command_keyword word) (map (λ w. w.now) words.now)) (IsSentenceMisfit (command_keyword word) (map (λ w. w.now) words.now)) }
{
    match read_command(word, words) {
        Ok(command) => Ok(ScriptLine::Command(command)),
        Err(misfit) => Err(misfit),
    }
}

/// The line of this first word, other than a schedule, that these words behind it say.
fn read_plain_sentence(keyword: Keyword, words: &[&[u8]]) -> Result<ScriptLine, Misfit>
    requires { keyword ≢ schedule_keyword }
    ensures { MatchResult result (IsSentence keyword (map (λ w. w.now) words.now)) (IsSentenceMisfit keyword (map (λ w. w.now) words.now)) }
{
    match keyword {
        Keyword::Hwp => read_header(words),
        Keyword::Thread => read_thread(words),
        Keyword::Page => read_page(words),
        Keyword::Trans => read_trans(words),
        Keyword::Cow => read_cow(words),
        Keyword::Command(word) => read_command_line(word, words),
        Keyword::End => read_end(words),
        Keyword::Schedule => unreachable!(),
        _ => read_numbered(keyword, words),
    }
}

/// The line of this first word that these words behind it say.
pub(crate) fn read_sentence(
    alloc: Global,
    keyword: Keyword,
    words: &[&[u8]],
) -> Result<Result<ScriptLine, Misfit>, OutOfMemory>
    ensures { IfOk result (λ read. MatchResult read (IsSentence keyword (map (λ w. w.now) words.now)) (IsSentenceMisfit keyword (map (λ w. w.now) words.now))) }
{
    match keyword {
        Keyword::Schedule => match read_schedule(alloc, words)? {
            Ok(turns) => Ok(Ok(ScriptLine::Schedule(turns))),
            Err(misfit) => Ok(Err(misfit)),
        },
        _ => Ok(read_plain_sentence(keyword, words)),
    }
}
