ghost use Rattle.std.specs.Prelude.{◌≡◌, ◌*◌, ◌<◌, ◌≤◌, ◌++◌, map, length, take, drop, replicate, OnOk, IfOk};
ghost use Rattle.hwp_core_rule.specs.hwp_geom.Layout.{IsSound};
ghost use Rattle.hwp_core_rule.specs.hwp_geom.Limits.{frame_limit, translation_limit};
ghost use Rattle.hwp_core_rule.specs.Opening.{below, opening_frame, free_bits, opening_free, opening_words};
ghost use Rattle.hwp_core_rule.specs.Words.{free_words};
ghost use Rattle.hwp_plain.specs.Openings.{usable_in};

use hwp_core_rule::{Layout, OutOfMemory};
use std::alloc::Global;

/// All words at opening, those of each kind after those of the kind before.
pub fn opening_words(alloc: Global, layout: &Layout) -> Result<Vec<u64>, OutOfMemory>
    requires sound { IsSound layout.now }
    ensures { IfOk result (λ words. words.items ≡ opening_words layout.now) }
{
    let mut words = Vec::new(alloc);
    add_frames(&mut words, layout.kernel.as_slice())?;
    fill(&mut words, layout.trans.len(), 0)?;
    fill(&mut words, layout.pages.len(), 0)?;
    fill(&mut words, layout.pages.len(), 0)?;
    add_frees(&mut words, layout)?;
    fill(&mut words, 1, available(layout.kernel.as_slice()))?;
    fill(&mut words, usize::from(layout.frames), 0)?;
    fill(&mut words, usize::from(layout.frames), 0)?;
    fill(&mut words, 1, 0)?;
    fill(&mut words, usize::from(layout.procs), 0)?;
    fill(&mut words, layout.threads.len(), 2)?;
    fill(&mut words, usize::from(layout.files), 0)?;
    fill(&mut words, 1, 0)?;
    Ok(words)
}

/// So many equal words more.
fn fill(words: &mut Vec<u64>, count: usize, word: u64) -> Result<(), OutOfMemory>
    requires { count ≤ translation_limit }
    ensures { OnOk result (words.new.items ≡ words.old.items ++ replicate count word) }
{
    words.resize(words.len() + count, word)
}

/// The words of the frames: KERNEL where a frame is the kernel's, and else 0.
fn add_frames(words: &mut Vec<u64>, kernel: &[bool]) -> Result<(), OutOfMemory>
    ensures { OnOk result (words.new.items ≡ words.old.items ++ map opening_frame kernel.now) }
{
    for is_kernel in kernel {
        words.push(if *is_kernel { 8 } else { 0 })?;
    }
    Ok(())
}

/// The free words.
fn add_frees(words: &mut Vec<u64>, layout: &Layout) -> Result<(), OutOfMemory>
    requires sound { IsSound layout.now }
    ensures { OnOk result (words.new.items ≡ words.old.items ++ map (opening_free layout.now) (below (free_words layout.now))) }
{
    let kernel = layout.kernel.as_slice();
    let count = (usize::from(layout.frames) + 63) / 64;
    for number in 0..count {
        words.push(free_word(kernel, number))?;
    }
    Ok(())
}

/// The free word of this number.
fn free_word(kernel: &[bool], number: usize) -> u64
    requires { number * 64 < length kernel.now }
    ensures { result ≡ free_bits (take 64 (drop (number * 64) kernel.now)) }
{
    let rest = &kernel[number * 64..];
    if rest.len() < 64 {
        bits_of(rest)
    } else {
        bits_of(&rest[..64])
    }
}

/// A bit for each frame that isn't the kernel's, the first in bit 0.
fn bits_of(kernel: &[bool]) -> u64
    requires { length kernel.now ≤ 64 }
    ensures { result ≡ free_bits kernel.now }
{
    let mut bits = 0;
    for turn in 0..kernel.len() {
        bits = bits * 2 + u64::from(!kernel[kernel.len() - 1 - turn]);
    }
    bits
}

/// How many frames are not the kernel's.
fn available(kernel: &[bool]) -> u64
    requires { length kernel.now ≤ frame_limit }
    ensures { result ≡ usable_in kernel.now }
{
    let mut count = 0;
    for is_kernel in kernel {
        count += u64::from(!*is_kernel);
    }
    count
}
