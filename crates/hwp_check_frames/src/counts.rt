ghost use Rattle.std.specs.Prelude.{◌≡◌, ◌+◌, ◌<◌, ◌^◌, ℕ, OnOk, cond};
ghost use Rattle.hwp_check_frames.specs.Counts.{at_key, raise};

use hwp_check_rules::OutOfMemory;
use std::collections::HashMap;

/// A processor, the number of one of its commands, and a number that says what of it is counted.
pub type Key = ((u8, u32), u64);

/// How often each key was counted.
pub type Counts = HashMap<Key, u64>;

/// How often the key was counted.
pub fn count(counts: &Counts, key: Key) -> u64
    ensures { result ≡ at_key counts.now key }
{
    counts.get(&key).copied().unwrap_or(0)
}

/// Counts the key once more.
pub fn add(counts: &mut Counts, key: Key) -> Result<(), OutOfMemory>
    requires room { at_key counts.old key + 1 < 2 ^ 64 }
    ensures { OnOk result ((q : (ℕ × ℕ) × ℕ) → at_key counts.new q ≡ at_key counts.old q + raise key q) }
{
    let before = count(counts, key);
    counts.insert(key, before + 1)?;
    Ok(())
}

/// Counts the key once more, where it is to be counted.
pub fn add_if(counts: &mut Counts, counted: bool, key: Key) -> Result<(), OutOfMemory>
    requires room { at_key counts.old key + 1 < 2 ^ 64 }
    ensures { OnOk result ((q : (ℕ × ℕ) × ℕ) → at_key counts.new q ≡ at_key counts.old q + cond counted (raise key q) 0) }
{
    if counted {
        add(counts, key)?;
    }
    Ok(())
}
