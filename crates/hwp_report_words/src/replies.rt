ghost use Rattle.hwp_report_words.specs.Reads.{IsNamedBy};
ghost use Rattle.hwp_report_words.specs.Answers.{counted_text, placed_text, short_text, valued_text};

use crate::words::{HasWord, named};

/// A word that is an answer.
#[derive(Clone, Copy)]
pub(crate) enum Short {
    NoFrame,
    Stopped,
    Done,
    Einval,
    Recovered,
    Delayed,
    Ignored,
    Already,
    TakenFree,
    Kernel,
    NotPoisoned,
    HardwareSeen,
    GuestStopped,
    GuestBad,
}

/// A word of an answer that a number follows.
#[derive(Clone, Copy)]
pub(crate) enum Counted {
    Gone,
    Eio,
    Opened,
    Is,
    HasBad,
    InUse,
    Scrubbed,
    Raised,
}

/// A word of an answer that a place follows.
#[derive(Clone, Copy)]
pub(crate) enum Placed {
    Stored,
    Sigbus,
    Done,
    NotResident,
    NotMapped,
    Dirty,
    Mapped,
    Locked,
}

/// A word of an answer that a value and a place follow.
#[derive(Clone, Copy)]
pub(crate) enum Valued {
    Value,
    BadLines,
    Moved,
}

/// The words that are answers.
const SHORT: [Short; 14] = [
    Short::NoFrame,
    Short::Stopped,
    Short::Done,
    Short::Einval,
    Short::Recovered,
    Short::Delayed,
    Short::Ignored,
    Short::Already,
    Short::TakenFree,
    Short::Kernel,
    Short::NotPoisoned,
    Short::HardwareSeen,
    Short::GuestStopped,
    Short::GuestBad,
];

/// The words of answers that a number follows.
const COUNTED: [Counted; 8] = [
    Counted::Gone,
    Counted::Eio,
    Counted::Opened,
    Counted::Is,
    Counted::HasBad,
    Counted::InUse,
    Counted::Scrubbed,
    Counted::Raised,
];

/// The words of answers that a place follows.
const PLACED: [Placed; 8] = [
    Placed::Stored,
    Placed::Sigbus,
    Placed::Done,
    Placed::NotResident,
    Placed::NotMapped,
    Placed::Dirty,
    Placed::Mapped,
    Placed::Locked,
];

/// The words of answers that a value and a place follow.
const VALUED: [Valued; 3] = [Valued::Value, Valued::BadLines, Valued::Moved];

impl HasWord for Short {
    ghost text = { short_text };

    fn word(self) -> &'static str {
        match self {
            Short::NoFrame => "noframe",
            Short::Stopped => "stopped",
            Short::Done => "done",
            Short::Einval => "einval",
            Short::Recovered => "recovered",
            Short::Delayed => "delayed",
            Short::Ignored => "ignored",
            Short::Already => "already",
            Short::TakenFree => "takenfree",
            Short::Kernel => "kernel",
            Short::NotPoisoned => "notpoisoned",
            Short::HardwareSeen => "hardwareseen",
            Short::GuestStopped => "gueststopped",
            Short::GuestBad => "guestbad",
        }
    }
}

impl HasWord for Counted {
    ghost text = { counted_text };

    fn word(self) -> &'static str {
        match self {
            Counted::Gone => "gone",
            Counted::Eio => "eio",
            Counted::Opened => "opened",
            Counted::Is => "is",
            Counted::HasBad => "hasbad",
            Counted::InUse => "inuse",
            Counted::Scrubbed => "scrubbed",
            Counted::Raised => "raised",
        }
    }
}

impl HasWord for Placed {
    ghost text = { placed_text };

    fn word(self) -> &'static str {
        match self {
            Placed::Stored => "stored",
            Placed::Sigbus => "sigbus",
            Placed::Done => "done",
            Placed::NotResident => "notresident",
            Placed::NotMapped => "notmapped",
            Placed::Dirty => "dirty",
            Placed::Mapped => "mapped",
            Placed::Locked => "locked",
        }
    }
}

impl HasWord for Valued {
    ghost text = { valued_text };

    fn word(self) -> &'static str {
        match self {
            Valued::Value => "value",
            Valued::BadLines => "badlines",
            Valued::Moved => "moved",
        }
    }
}

/// The word that it is, if it is a word that is an answer.
pub(crate) fn read_short(word: &[u8]) -> Option<Short>
    ensures { IsNamedBy short_text word.now result }
{
    named(word, &SHORT)
}

/// The word that it is, if it is a word of an answer that a number follows.
pub(crate) fn read_counted(word: &[u8]) -> Option<Counted>
    ensures { IsNamedBy counted_text word.now result }
{
    named(word, &COUNTED)
}

/// The word that it is, if it is a word of an answer that a place follows.
pub(crate) fn read_placed(word: &[u8]) -> Option<Placed>
    ensures { IsNamedBy placed_text word.now result }
{
    named(word, &PLACED)
}

/// The word that it is, if it is a word of an answer that a value and a place follow.
pub(crate) fn read_valued(word: &[u8]) -> Option<Valued>
    ensures { IsNamedBy valued_text word.now result }
{
    named(word, &VALUED)
}
