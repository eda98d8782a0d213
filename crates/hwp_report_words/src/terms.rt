ghost use Rattle.std.specs.Prelude.{decimal};
ghost use Rattle.hwp_report_text.specs.hwp_kill.Prctl as prctl;
ghost use Rattle.hwp_report_text.specs.Terms as terms;
ghost use Rattle.hwp_report_words.specs.Reads.{IsNamedBy};

use crate::numbers::{is_text, read_below};
use crate::words::{HasWord, named};
use hwp_report_text::{
    Acted, Code, Mode, Outcome, Policy, Situation, Version, acted_word, outcome_word, policy_word,
    situation_word,
};

/// All policies.
const POLICIES: [Policy; 3] = [Policy::Late, Policy::Early, Policy::Default];

impl HasWord for Policy {
    ghost text = { prctl.policy_word };

    fn word(self) -> &'static str {
        policy_word(self)
    }
}

/// All situations.
const SITUATIONS: [Situation; 10] = [
    Situation::Free,
    Situation::Kernel,
    Situation::FileClean,
    Situation::FileDirty,
    Situation::AnonOnly,
    Situation::SwapClean,
    Situation::SwapDirty,
    Situation::LockedClean,
    Situation::LockedFile,
    Situation::LockedAnon,
];

impl HasWord for Situation {
    ghost text = { terms.situation_word };

    fn word(self) -> &'static str {
        situation_word(self)
    }
}

/// All outcomes.
const OUTCOMES: [Outcome; 3] = [Outcome::Recovered, Outcome::Delayed, Outcome::Ignored];

impl HasWord for Outcome {
    ghost text = { terms.outcome_word };

    fn word(self) -> &'static str {
        outcome_word(self)
    }
}

/// All that can be done about an event.
const ACTED: [Acted; 12] = [
    Acted::None,
    Acted::Keep,
    Acted::Deferred,
    Acted::Logged,
    Acted::Recovered,
    Acted::Delayed,
    Acted::Ignored,
    Acted::Already,
    Acted::Outside,
    Acted::Stop,
    Acted::Panic,
    Acted::Held,
];

impl HasWord for Acted {
    ghost text = { terms.acted_word };

    fn word(self) -> &'static str {
        acted_word(self)
    }
}

/// The version that a word names.
pub fn read_version(word: &[u8]) -> Option<Version>
    ensures { IsNamedBy terms.version_word word.now result }
{
    if is_text(word, "1") {
        return Some(Version::One);
    }
    if is_text(word, "2") {
        return Some(Version::Two);
    }
    None
}

/// The yes or no whose number a word is.
pub fn read_flag(word: &[u8]) -> Option<bool>
    ensures { IsNamedBy (λ flag. decimal (terms.flag_number flag)) word.now result }
{
    let Some(number) = read_below(word, 2) else {
        return None;
    };
    Some(number == 1)
}

/// The mode that a word names.
pub fn read_mode(word: &[u8]) -> Option<Mode>
    ensures { IsNamedBy terms.mode_word word.now result }
{
    if is_text(word, "user") {
        return Some(Mode::User);
    }
    if is_text(word, "kernel") {
        return Some(Mode::Kernel);
    }
    None
}

/// The policy that a word names.
pub fn read_policy(word: &[u8]) -> Option<Policy>
    ensures { IsNamedBy prctl.policy_word word.now result }
{
    named(word, &POLICIES)
}

/// The code of a signal that a word names.
pub fn read_code(word: &[u8]) -> Option<Code>
    ensures { IsNamedBy terms.code_word word.now result }
{
    if is_text(word, "ar") {
        return Some(Code::Ar);
    }
    if is_text(word, "ao") {
        return Some(Code::Ao);
    }
    None
}

/// The situation that a word names.
pub fn read_situation(word: &[u8]) -> Option<Situation>
    ensures { IsNamedBy terms.situation_word word.now result }
{
    named(word, &SITUATIONS)
}

/// What a word says came of a memory failure.
pub fn read_outcome(word: &[u8]) -> Option<Outcome>
    ensures { IsNamedBy terms.outcome_word word.now result }
{
    named(word, &OUTCOMES)
}

/// Whether a word says that a memory failure came from a bank's event, and not from a command.
pub fn read_origin(word: &[u8]) -> Option<bool>
    ensures { IsNamedBy terms.origin_word word.now result }
{
    if is_text(word, "hw") {
        return Some(true);
    }
    if is_text(word, "sw") {
        return Some(false);
    }
    None
}

/// What a word says was done about an event.
pub fn read_acted(word: &[u8]) -> Option<Acted>
    ensures { IsNamedBy terms.acted_word word.now result }
{
    named(word, &ACTED)
}

/// Whether a word says that the machine check of a guest stopped the guest, and not that its address is bad.
pub fn read_guest_outcome(word: &[u8]) -> Option<bool>
    ensures { IsNamedBy terms.guest_word word.now result }
{
    if is_text(word, "stop") {
        return Some(true);
    }
    if is_text(word, "bad") {
        return Some(false);
    }
    None
}
