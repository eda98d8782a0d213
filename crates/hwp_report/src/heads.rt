ghost use Rattle.hwp_report_words.specs.Reads.{IsNamedBy};
ghost use Rattle.hwp_report.specs.Heads.{head_text};

use hwp_report_words::{HasWord, Verb, named};

/// The first word of a line, other than a processor's, whose lines begin with a number.
#[derive(Clone, Copy)]
pub(crate) enum Head {
    Header,
    Stop,
    Count,
    File,
    Frame,
    Poisoned,
    Unpoisoned,
    Page,
    Entry(Verb),
    Seen,
    Signal,
    Cpu,
    End,
}

/// The first words of all lines, other than a processor's.
const HEADS: [Head; 23] = [
    Head::Header,
    Head::Stop,
    Head::Count,
    Head::File,
    Head::Frame,
    Head::Poisoned,
    Head::Unpoisoned,
    Head::Page,
    Head::Seen,
    Head::Signal,
    Head::Cpu,
    Head::End,
    Head::Entry(Verb::Load),
    Head::Entry(Verb::Store),
    Head::Entry(Verb::In),
    Head::Entry(Verb::Map),
    Head::Entry(Verb::Free),
    Head::Entry(Verb::Drop),
    Head::Entry(Verb::Sync),
    Head::Entry(Verb::Out),
    Head::Entry(Verb::Mce),
    Head::Entry(Verb::Fail),
    Head::Entry(Verb::Soft),
];

impl HasWord for Head {
    ghost text = { head_text };

    fn word(self) -> &'static str {
        match self {
            Head::Header => "hwp-report",
            Head::Stop => "stop",
            Head::Count => "count",
            Head::File => "file",
            Head::Frame => "frame",
            Head::Poisoned => "poisoned",
            Head::Unpoisoned => "unpoisoned",
            Head::Page => "page",
            Head::Seen => "seen",
            Head::Signal => "signal",
            Head::Cpu => "cpu",
            Head::End => "end",
            Head::Entry(verb) => verb.text(),
        }
    }
}

/// The first word of a line that a word is.
pub(crate) fn read_head(word: &[u8]) -> Option<Head>
    ensures { IsNamedBy head_text word.now result }
{
    named(word, &HEADS)
}
