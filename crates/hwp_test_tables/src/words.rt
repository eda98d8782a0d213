//! The words by their layout, and the edges of each field.

use crate::checking::check;
use hwp_kill::{Cpu, Frame, Mask, Page, Policy};
use hwp_words::{
    AvailableWord, CacheWord, CounterWord, DamageWord, FrameWord, FreeWord, LossWord, PageWord,
    PolicyWord, ProcessWord, Pte, StopWord,
};

const NONE: FrameWord = FrameWord {
    locked: false,
    poisoned: false,
    handled: false,
    kernel: false,
    count: 0,
    owner: None,
    cycle: 0,
};

const FRAMES: [(u64, FrameWord); 5] = [
    (0, NONE),
    (
        0x8,
        FrameWord {
            kernel: true,
            ..NONE
        },
    ),
    (
        0x16,
        FrameWord {
            poisoned: true,
            handled: true,
            count: 1,
            ..NONE
        },
    ),
    (
        0x2000_0600_0033,
        FrameWord {
            locked: true,
            poisoned: true,
            count: 3,
            owner: Some(Page(5)),
            cycle: 2,
            ..NONE
        },
    ),
    (
        0xffff_f001_00ff_fff0,
        FrameWord {
            count: 0xf_ffff,
            owner: Some(Page(255)),
            cycle: 0xf_ffff,
            ..NONE
        },
    ),
];

/// Each word has these fields.
fn are_frames(rows: &[(u64, FrameWord)]) -> bool {
    for (word, want) in rows {
        let read = FrameWord::unpack(*word);
        if (read != *want) | (read.pack() != *word) {
            return false;
        }
    }
    true
}

#[test]
fn a_frame_word_has_its_fields_from_bit_0_up(rt: HostRuntime) {
    check(&rt, are_frames(&FRAMES));
}

/// The word says so many hardware failures and poisoned frames.
fn counts(word: u64, hardware: u32, poisoned: i32) -> bool {
    let read = CounterWord::unpack(word);
    (read.hardware == hardware) & (read.poisoned == poisoned) & (read.pack() == word)
}

#[test]
fn the_poisoned_frames_of_a_counter_word_have_a_sign(rt: HostRuntime) {
    check(
        &rt,
        counts(0, 0, 0)
            & counts(0x1, 0, 1)
            & counts(0x1_0000_0001, 1, 1)
            & counts(0xffff_ffff_ffff_ffff, 0, -1)
            & counts(0xffff_ffff, 1, -1)
            & counts(0x5_8000_0000, 6, -2147483648)
            & counts(0xffff_ffff_7fff_ffff, 0xffff_ffff, 2147483647),
    );
}

/// The word of a translation says this.
fn leads(word: u64, want: Pte) -> bool {
    let read = Pte::unpack(word);
    (read == want) & (read.pack() == word)
}

#[test]
fn a_translation_word_is_empty_a_frame_or_poison(rt: HostRuntime) {
    check(
        &rt,
        leads(0, Pte::Empty)
            & leads(1, Pte::At(Frame(0)))
            & leads(256, Pte::At(Frame(255)))
            & leads(0x8000_0000_0000_0000, Pte::Poison),
    );
}

/// The word of a thread says this policy, after so many settings.
fn has_policy(word: u64, policy: Policy, settings: u64) -> bool {
    let read = PolicyWord::unpack(word);
    (read.policy == policy) & (read.settings == settings) & (read.pack() == word)
}

#[test]
fn a_policy_word_counts_settings_above_its_policy(rt: HostRuntime) {
    check(
        &rt,
        has_policy(2, Policy::Default, 0)
            & has_policy(4, Policy::Late, 1)
            & has_policy(13, Policy::Early, 3)
            & has_policy(
                0xffff_ffff_ffff_fffe,
                Policy::Default,
                0x3fff_ffff_ffff_ffff,
            ),
    );
}

/// The stop word names this processor, and says whether memory was wanting.
fn stops(word: u64, cpu: Option<Cpu>, no_memory: bool) -> bool {
    let read = StopWord::unpack(word);
    (read == StopWord { cpu, no_memory }) & (read.pack() == word)
}

#[test]
fn a_stop_word_names_a_processor_beside_want_of_memory(rt: HostRuntime) {
    check(
        &rt,
        stops(0, None, false)
            & stops(3, Some(Cpu(2)), false)
            & stops(0x8000_0000_0000_0000, None, true)
            & stops(0x8000_0000_0000_0008, Some(Cpu(7)), true),
    );
}

/// The same word as that of a page's lock, of a page's frame and of the page that ended a process.
fn is_of_one_value(word: u64, page: PageWord, cache: CacheWord, process: ProcessWord) -> bool {
    let read = (PageWord::unpack(word) == page)
        & (CacheWord::unpack(word) == cache)
        & (ProcessWord::unpack(word) == process);
    read & (page.pack() == word) & (cache.pack() == word) & (process.pack() == word)
}

#[test]
fn words_of_one_value(rt: HostRuntime) {
    check(
        &rt,
        is_of_one_value(
            0,
            PageWord { locked: false },
            CacheWord { frame: None },
            ProcessWord { ended_by: None },
        ) & is_of_one_value(
            1,
            PageWord { locked: true },
            CacheWord {
                frame: Some(Frame(0)),
            },
            ProcessWord {
                ended_by: Some(Page(0)),
            },
        ),
    );
}

/// A number is its own word.
#[test]
fn words_of_a_number(rt: HostRuntime) {
    let available = AvailableWord { frames: 7 };
    let loss = LossWord { lost: 3 };
    check(
        &rt,
        (available.pack() == 7)
            & (loss.pack() == 3)
            & (AvailableWord::unpack(7) == available)
            & (LossWord::unpack(3) == loss),
    );
}

/// The lowest bit of the word is this one.
fn is_lowest(word: u64, want: Option<u8>) -> bool {
    let damage = DamageWord::unpack(word);
    let same = match (damage.lowest(), FreeWord::unpack(word).lowest(), want) {
        (None, None, None) => true,
        (Some(line), Some(bit), Some(want)) => (line.get() == want) & (bit == u32::from(want)),
        _ => false,
    };
    same & (damage.lines == Mask(word))
}

#[test]
fn the_lowest_bit_of_a_word(rt: HostRuntime) {
    check(
        &rt,
        is_lowest(0, None) & is_lowest(0b1100, Some(2)) & is_lowest(1 << 63, Some(63)),
    );
}
