ghost use Rattle.std.specs.Prelude.{◌≡◌};
ghost use Rattle.hwp_report_text.specs.Terms as terms;

use crate::lines::Acted;
use hwp_page::{Code, Mode, Outcome, Situation, Version};

/// The word of a version.
pub(crate) fn version_word(version: Version) -> &'static str
    ensures { result.now ≡ terms.version_word version }
{
    match version {
        Version::One => "1",
        Version::Two => "2",
    }
}

/// The number of a yes or no.
pub(crate) fn flag_number(set: bool) -> u8
    ensures { result ≡ terms.flag_number set }
{
    if set { 1 } else { 0 }
}

/// The word of a mode.
pub(crate) fn mode_word(mode: Mode) -> &'static str
    ensures { result.now ≡ terms.mode_word mode }
{
    match mode {
        Mode::User => "user",
        Mode::Kernel => "kernel",
    }
}

/// The word of a signal's code.
pub(crate) fn code_word(code: Code) -> &'static str
    ensures { result.now ≡ terms.code_word code }
{
    match code {
        Code::Ar => "ar",
        Code::Ao => "ao",
    }
}

/// The word of a situation.
pub fn situation_word(situation: Situation) -> &'static str
    ensures { result.now ≡ terms.situation_word situation }
{
    match situation {
        Situation::Free => "free",
        Situation::Kernel => "kernel",
        Situation::FileClean => "fileclean",
        Situation::FileDirty => "filedirty",
        Situation::AnonOnly => "anononly",
        Situation::SwapClean => "swapclean",
        Situation::SwapDirty => "swapdirty",
        Situation::LockedClean => "lockedclean",
        Situation::LockedFile => "lockedfile",
        Situation::LockedAnon => "lockedanon",
    }
}

/// The word of what came of a memory failure.
pub fn outcome_word(outcome: Outcome) -> &'static str
    ensures { result.now ≡ terms.outcome_word outcome }
{
    match outcome {
        Outcome::Recovered => "recovered",
        Outcome::Delayed => "delayed",
        Outcome::Ignored => "ignored",
    }
}

/// The word of what a memory failure came from: a bank's event, or a command.
pub(crate) fn origin_word(hardware: bool) -> &'static str
    ensures { result.now ≡ terms.origin_word hardware }
{
    if hardware { "hw" } else { "sw" }
}

/// The word of what was done about an event.
pub fn acted_word(acted: Acted) -> &'static str
    ensures { result.now ≡ terms.acted_word acted }
{
    match acted {
        Acted::None => "none",
        Acted::Keep => "keep",
        Acted::Deferred => "deferred",
        Acted::Logged => "logged",
        Acted::Recovered => "recovered",
        Acted::Delayed => "delayed",
        Acted::Ignored => "ignored",
        Acted::Already => "already",
        Acted::Outside => "outside",
        Acted::Stop => "stop",
        Acted::Panic => "panic",
        Acted::Held => "held",
    }
}

/// The word of what the machine check of a guest did: it stopped the guest, or its address is bad.
pub fn guest_word(stops: bool) -> &'static str
    ensures { result.now ≡ terms.guest_word stops }
{
    if stops { "stop" } else { "bad" }
}
