ghost use Rattle.std.specs.Prelude.{◌≡◌, ◌≤◌, ℕ, ◌^◌, ◌<◌, [], ◌∷◌, length, map, decimal, MatchResult, MatchOption};
ghost use Rattle.std.specs.Str.Parse.{AllDigits, digits_value};
ghost use Rattle.hwp_script_words.specs.Numbers.{IsNumberWord};
ghost use Rattle.hwp_script_lines.specs.Numbers.{IsRegister, IsRegisterWord};
ghost use Rattle.hwp_script_lines.specs.Grammar.{AreRegisters};
ghost use Rattle.hwp_script_lines.specs.Misfits.{AreMisfit, AreNumbers};

use hwp_script_words::read_number;

/// Why words are no line.
#[derive(Clone, Copy)]
pub(crate) enum Misfit {
    /// There are too many or too few, or a fixed word isn't in its place.
    Unknown,
    /// A word in the place of a number, a register word or a schedule word is none.
    BadNumber,
    /// A number of a command, or of a word of the schedule, is outside its range.
    OverLimit,
}

/// The number that hex digits write, if they are hex digits.
fn read_hex(digits: &[u8]) -> Option<u64>
    requires { length digits.now ≤ 16 }
    ensures { MatchOption result (AllDigits 16 digits.now → ⊥) (λ n. AllDigits 16 digits.now × (n ≡ digits_value 16 digits.now)) }
{
    let mut number = 0;
    for byte in digits {
        let Some(digit) = char::from(*byte).to_digit(16) else {
            return None;
        };
        number = number * 16 + u64::from(digit);
    }
    Some(number)
}

/// The value of a register word: `0`, or `0x` and 1 to 16 hex digits of either case.
fn register(word: &[u8]) -> Option<u64>
    ensures { MatchOption result ((n : ℕ) → IsRegister word.now n → ⊥) (IsRegister word.now) }
{
    match word {
        b"0" => Some(0),
        [b'0', b'x', digits @ ..] if !digits.is_empty() && digits.len() <= 16 => read_hex(digits),
        _ => None,
    }
}

/// The values of the register words status, address and misc.
fn registers_of(status: &[u8], addr: &[u8], misc: &[u8]) -> Option<(u64, u64, u64)>
    ensures { MatchOption result ((s a m : ℕ) → IsRegister status.now s → IsRegister addr.now a → IsRegister misc.now m → ⊥) (λ n. IsRegister status.now n.0 × IsRegister addr.now n.1 × IsRegister misc.now n.2) }
{
    let Some(status) = register(status) else {
        return None;
    };
    let Some(addr) = register(addr) else {
        return None;
    };
    let Some(misc) = register(misc) else {
        return None;
    };
    Some((status, addr, misc))
}

/// The values of three register words: status, address and misc.
pub(crate) fn three_registers(words: &[&[u8]]) -> Result<(u64, u64, u64), Misfit>
    ensures { MatchResult result (λ n. AreRegisters (map (λ w. w.now) words.now) n.0 n.1 n.2) (AreMisfit IsRegisterWord 3 (map (λ w. w.now) words.now)) }
{
    let [status, addr, misc] = words else {
        return Err(Misfit::Unknown);
    };
    match registers_of(status, addr, misc) {
        Some(values) => Ok(values),
        None => Err(Misfit::BadNumber),
    }
}

/// The number that these words are: just one.
pub(crate) fn one_number(words: &[&[u8]]) -> Result<u64, Misfit>
    ensures { MatchResult result (λ n. (n < 2 ^ 64) × (map (λ w. w.now) words.now ≡ decimal n ∷ [])) (AreMisfit IsNumberWord 1 (map (λ w. w.now) words.now)) }
{
    let [word] = words else {
        return Err(Misfit::Unknown);
    };
    match read_number(word) {
        Some(number) => Ok(number),
        None => Err(Misfit::BadNumber),
    }
}

/// The numbers that these words are, if there are `count` of them: each in its place, and 0 in the places behind.
pub(crate) fn read_numbers(words: &[&[u8]], count: usize) -> Result<[u64; 6], Misfit>
    requires { count ≤ 6 }
    ensures { MatchResult result (AreNumbers count (map (λ w. w.now) words.now)) (AreMisfit IsNumberWord count (map (λ w. w.now) words.now)) }
{
    if words.len() != count {
        return Err(Misfit::Unknown);
    }
    let mut numbers = [0; 6];
    for at in 0..count {
        let Some(number) = read_number(words[at]) else {
            return Err(Misfit::BadNumber);
        };
        numbers[at] = number;
    }
    Ok(numbers)
}
