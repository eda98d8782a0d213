ghost use Rattle.std.specs.Prelude.{◌≡◌};
ghost use Rattle.hwp_check_rules.specs.Verdicts.{number};

/// A rule of a report. Each has a number, in this order.
#[derive(Clone, Copy)]
pub enum Rule {
    /// As many files, frames, pages and processors as the script has.
    Shape,
    /// Each page's history.
    Histories,
    /// The answers and the event lines.
    Answers,
    /// The policies that were seen.
    Seen,
    /// The records of frames.
    Marks,
    /// The count of poisoned frames.
    Count,
    /// The losses of files.
    Losses,
    /// The stop.
    Stop,
    /// The lines of frames.
    Frames,
}

impl Rule {
    /// The number of the rule, from 1.
    pub fn number(self) -> u8
        ensures { result ≡ number self }
    {
        match self {
            Rule::Shape => 1,
            Rule::Histories => 2,
            Rule::Answers => 3,
            Rule::Seen => 4,
            Rule::Marks => 5,
            Rule::Count => 6,
            Rule::Losses => 7,
            Rule::Stop => 8,
            Rule::Frames => 9,
        }
    }
}

/// What is said of a report.
#[derive(Clone, Copy)]
pub enum Verdict {
    /// A run of the script can have this report.
    Legal,
    /// It can't: the first line of the report, from 1, that breaks a rule, and the lowest rule that is broken.
    Not { line: u64, rule: Rule },
}
