ghost use Rattle.std.specs.Prelude.{◌≡◌, ◌<◌, ◌+◌, ◌++◌, ℕ, List as Items, [], ◌∷◌, length, map, codes, IfOk, IfSome, MatchResult, MatchOption};
ghost use Rattle.hwp_script_words.specs.hwp_geom.Limits.{cpu_limit};
ghost use Rattle.hwp_script_words.specs.hwp_geom.Pairs.{Pairs};
ghost use Rattle.hwp_script_lines.specs.Grammar.{AreTurnPieces, IsTurn, behind_number, pieces_of, schedule_keyword};
ghost use Rattle.hwp_script_lines.specs.Misfits.{AreTurnMisfit, IsTurnMisfit, IsSentenceMisfit};

use crate::kinds::read_kind;
use crate::numbers::Misfit;
use crate::words::parts;
use hwp_script_words::{Cpu, Go, List, MAX_CPUS, OutOfMemory, Until, read_number};
use std::alloc::Global;

/// What stands before the dot at the end of a word.
fn before_dot(word: &[u8]) -> Option<&[u8]>
    ensures { MatchOption result ((front : Items ℕ) → word.now ≡ front ++ codes "." → ⊥) (λ front. word.now ≡ front.now ++ codes ".") }
{
    word.strip_suffix(b".")
}

/// The word of the schedule of this number, if it may be that of a processor.
fn go_on(cpu: u64, until: Until) -> Result<Go, Misfit>
    ensures { MatchResult result (AreTurnPieces (pieces_of cpu until)) (AreTurnMisfit (pieces_of cpu until)) }
{
    if cpu < u64::from(MAX_CPUS) {
        Ok(Go {
            cpu: Cpu(cpu as u8),
            until,
        })
    } else {
        Err(Misfit::OverLimit)
    }
}

/// The schedule word that a word without `@` is.
fn read_plain_turn(word: &[u8]) -> Result<Go, Misfit>
    ensures { MatchResult result (AreTurnPieces (word.now ∷ [])) (AreTurnMisfit (word.now ∷ [])) }
{
    match before_dot(word) {
        Some(front) => {
            let Some(cpu) = read_number(front) else {
                return Err(Misfit::BadNumber);
            };
            go_on(cpu, Until::Command)
        }
        None => {
            let Some(cpu) = read_number(word) else {
                return Err(Misfit::BadNumber);
            };
            go_on(cpu, Until::One)
        }
    }
}

/// The schedule word that two words with an `@` between them are.
fn read_kind_turn(cpu: &[u8], kind: &[u8]) -> Result<Go, Misfit>
    ensures { MatchResult result (AreTurnPieces (cpu.now ∷ kind.now ∷ [])) (AreTurnMisfit (cpu.now ∷ kind.now ∷ [])) }
{
    let Some(kind) = read_kind(kind) else {
        return Err(Misfit::Unknown);
    };
    let Some(cpu) = read_number(cpu) else {
        return Err(Misfit::BadNumber);
    };
    go_on(cpu, Until::After(kind))
}

/// The schedule word whose pieces around each `@` these are.
fn read_pieces(pieces: &[&[u8]]) -> Result<Go, Misfit>
    ensures { MatchResult result (AreTurnPieces (map (λ p. p.now) pieces.now)) (AreTurnMisfit (map (λ p. p.now) pieces.now)) }
{
    match pieces {
        [plain] => read_plain_turn(plain),
        [cpu, kind] => read_kind_turn(cpu, kind),
        _ => Err(Misfit::Unknown),
    }
}

/// The number of a processor that a digit writes.
fn cpu_of(digit: u8) -> Option<u8>
    ensures { IfSome result (λ cpu. (cpu < 10) × (digit ≡ 48 + cpu)) }
{
    match digit {
        b'0'..=b'9' => Some(digit - b'0'),
        _ => None,
    }
}

/// How long a processor goes on, by what stands behind its number in a word of the schedule.
fn until_of(rest: &[u8]) -> Option<Until>
    ensures { IfSome result (λ until. rest.now ≡ behind_number until) }
{
    match rest {
        [] => Some(Until::One),
        [b'.'] => Some(Until::Command),
        [b'@', kind @ ..] => match read_kind(kind) {
            Some(kind) => Some(Until::After(kind)),
            None => None,
        },
        _ => None,
    }
}

/// The schedule word that a word is, read without memory, where its processor has one digit; `None` where this way can't tell.
fn short_turn(word: &[u8]) -> Option<Go>
    ensures { IfSome result (IsTurn word.now) }
{
    let [digit, rest @ ..] = word else {
        return None;
    };
    let Some(cpu) = cpu_of(*digit) else {
        return None;
    };
    let Some(until) = until_of(rest) else {
        return None;
    };
    Some(Go {
        cpu: Cpu(cpu),
        until,
    })
}

/// The schedule word that a word is.
fn read_turn(alloc: Global, word: &[u8]) -> Result<Result<Go, Misfit>, OutOfMemory>
    ensures { IfOk result (λ read. MatchResult read (IsTurn word.now) (IsTurnMisfit word.now)) }
{
    if let Some(turn) = short_turn(word) {
        return Ok(Ok(turn));
    }
    let pieces = parts(alloc, word, b'@')?;
    Ok(read_pieces(pieces.as_slice()))
}

/// The words of a schedule, one or more.
pub(crate) fn read_schedule(
    alloc: Global,
    words: &[&[u8]],
) -> Result<Result<List<Go>, Misfit>, OutOfMemory>
    ensures { IfOk result (λ read. MatchResult read (λ turns. (0 < length turns) × Pairs IsTurn (map (λ w. w.now) words.now) turns) (IsSentenceMisfit schedule_keyword (map (λ w. w.now) words.now))) }
{
    if words.is_empty() {
        return Ok(Err(Misfit::Unknown));
    }
    let mut turns = Vec::new(alloc);
    let mut is_bad = false;
    let mut is_over = false;
    for word in words {
        match read_turn(alloc, word)? {
            Ok(turn) => turns.push(turn)?,
            Err(Misfit::OverLimit) => is_over = true,
            Err(Misfit::BadNumber) => is_bad = true,
            Err(Misfit::Unknown) => return Ok(Err(Misfit::Unknown)),
        }
    }
    if is_bad {
        Ok(Err(Misfit::BadNumber))
    } else if is_over {
        Ok(Err(Misfit::OverLimit))
    } else {
        Ok(Ok(List::from_vec(turns)))
    }
}
