/// Why a script is refused. A line is refused with the lowest reason that applies to it.
#[derive(Clone, Copy, Debug, PartialEq, Eq)]
pub enum Why {
    /// The first line is not the header.
    BadHeader,
    /// A line of no known form.
    UnknownWord,
    /// A word in a number's place that is no number.
    BadNumber,
    /// A number outside its range, or a command too many.
    OverLimit,
    /// A name that is not declared above, or a translation of another process than the thread's.
    Undeclared,
    /// A declaration of what is declared already, or a processor's second list.
    Twice,
    /// A line that may not stand here.
    WrongPlace,
    /// No line ends the script.
    NoEnd,
    /// The script is longer than `MAX_SCRIPT`.
    TooLong,
}

/// The line that a script is refused at, counted from 1 (0 for the whole script), and the reason.
#[derive(Clone, Copy, Debug, PartialEq, Eq)]
pub struct Refused {
    pub line: u32,
    pub why: Why,
}
