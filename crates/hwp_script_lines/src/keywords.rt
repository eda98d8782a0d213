ghost use Rattle.std.specs.Prelude.{◌≡◌, ◌≤◌, IfSome, IfNone};
ghost use Rattle.hwp_script_lines.specs.Grammar.{keyword_text, command_text, is_newer, is_newer_word};
ghost use Rattle.hwp_script_lines.specs.Misfits.{number_count};
ghost use Rattle.hwp_script_lines.specs.declared.keywords.Keyword.{Keyword};
ghost use Rattle.hwp_script_lines.specs.declared.keywords.CommandWord.{CommandWord};

use hwp_script_words::is_text;

/// The first word of a line, which says its kind.
#[derive(Clone, Copy)]
pub(crate) enum Keyword {
    Hwp,
    Cpus,
    Frames,
    Kernel,
    Recovery,
    Early,
    File,
    Proc,
    Thread,
    Guest,
    Page,
    Trans,
    Cow,
    Cpu,
    Schedule,
    End,
    Command(CommandWord),
}

/// The first word of a command.
#[derive(Clone, Copy)]
pub(crate) enum CommandWord {
    Load,
    Fetch,
    KLoad,
    Store,
    Free,
    Drop,
    Sync,
    Out,
    Fsync,
    Open,
    Prctl,
    Bad,
    Weak,
    Scrub,
    Log,
    Raise,
    Inject,
    Soft,
    Unpoison,
    Watch,
    Fork,
}

/// The first words of all commands.
const COMMAND_WORDS: [CommandWord; 21] = [
    CommandWord::Load,
    CommandWord::Fetch,
    CommandWord::KLoad,
    CommandWord::Store,
    CommandWord::Free,
    CommandWord::Drop,
    CommandWord::Sync,
    CommandWord::Out,
    CommandWord::Fsync,
    CommandWord::Open,
    CommandWord::Prctl,
    CommandWord::Bad,
    CommandWord::Weak,
    CommandWord::Scrub,
    CommandWord::Log,
    CommandWord::Raise,
    CommandWord::Inject,
    CommandWord::Soft,
    CommandWord::Unpoison,
    CommandWord::Watch,
    CommandWord::Fork,
];

/// The first words of all other lines.
const HEADS: [Keyword; 16] = [
    Keyword::Hwp,
    Keyword::Cpus,
    Keyword::Frames,
    Keyword::Kernel,
    Keyword::Recovery,
    Keyword::Early,
    Keyword::File,
    Keyword::Proc,
    Keyword::Thread,
    Keyword::Guest,
    Keyword::Page,
    Keyword::Trans,
    Keyword::Cow,
    Keyword::Cpu,
    Keyword::Schedule,
    Keyword::End,
];

impl CommandWord {
    /// The text of the word.
    pub(crate) fn text(self) -> &'static str
        ensures { result.now ≡ command_text self }
    {
        match self {
            CommandWord::Load => "load",
            CommandWord::Fetch => "fetch",
            CommandWord::KLoad => "kload",
            CommandWord::Store => "store",
            CommandWord::Free => "free",
            CommandWord::Drop => "drop",
            CommandWord::Sync => "sync",
            CommandWord::Out => "out",
            CommandWord::Fsync => "fsync",
            CommandWord::Open => "open",
            CommandWord::Prctl => "prctl",
            CommandWord::Bad => "bad",
            CommandWord::Weak => "weak",
            CommandWord::Scrub => "scrub",
            CommandWord::Log => "log",
            CommandWord::Raise => "raise",
            CommandWord::Inject => "inject",
            CommandWord::Soft => "soft",
            CommandWord::Unpoison => "unpoison",
            CommandWord::Watch => "watch",
            CommandWord::Fork => "fork",
        }
    }

    /// Whether version 2 alone has commands of this word.
    fn is_newer(self) -> bool
        ensures { result ≡ is_newer_word self }
    {
        matches!(
            self,
            CommandWord::Open | CommandWord::Watch | CommandWord::Fork
        )
    }

    /// How many numbers stand behind the word, where only numbers do.
    pub(crate) fn number_count(self) -> usize
        ensures count { result ≡ number_count self }
        ensures most { result ≤ 6 }
    {
        match self {
            CommandWord::Load | CommandWord::Fetch | CommandWord::KLoad => 3,
            CommandWord::Store => 4,
            CommandWord::Bad
            | CommandWord::Weak
            | CommandWord::Scrub
            | CommandWord::Watch
            | CommandWord::Fork => 2,
            CommandWord::Prctl => 6,
            _ => 1,
        }
    }
}

impl Keyword {
    /// The text of the word.
    pub(crate) fn text(self) -> &'static str
        ensures { result.now ≡ keyword_text self }
    {
        match self {
            Keyword::Hwp => "hwp",
            Keyword::Cpus => "cpus",
            Keyword::Frames => "frames",
            Keyword::Kernel => "kernel",
            Keyword::Recovery => "recovery",
            Keyword::Early => "early",
            Keyword::File => "file",
            Keyword::Proc => "proc",
            Keyword::Thread => "thread",
            Keyword::Guest => "guest",
            Keyword::Page => "page",
            Keyword::Trans => "trans",
            Keyword::Cow => "cow",
            Keyword::Cpu => "cpu",
            Keyword::Schedule => "schedule",
            Keyword::End => "end",
            Keyword::Command(word) => word.text(),
        }
    }

    /// Whether a line of this word with so many behind it has a form in version 2 alone.
    pub(crate) fn is_newer(self, count: usize) -> bool
        ensures { result ≡ is_newer self count }
    {
        match self {
            Keyword::Page => count == 3 || count == 6,
            Keyword::Cow | Keyword::Guest => true,
            Keyword::Command(word) => word.is_newer(),
            _ => false,
        }
    }
}

/// The first word of a command that a word is.
fn read_command_word(word: &[u8]) -> Option<CommandWord>
    ensures some { IfSome result (λ w. word.now ≡ command_text w) }
    ensures none { IfNone result ((w : CommandWord) → word.now ≡ command_text w → ⊥) }
{
    for first in &COMMAND_WORDS {
        if is_text(word, first.text()) {
            return Some(*first);
        }
    }
    None
}

/// The keyword that a word is.
pub(crate) fn read_keyword(word: &[u8]) -> Option<Keyword>
    ensures some { IfSome result (λ k. word.now ≡ keyword_text k) }
    ensures none { IfNone result ((k : Keyword) → word.now ≡ keyword_text k → ⊥) }
{
    for head in &HEADS {
        if is_text(word, head.text()) {
            return Some(*head);
        }
    }
    let Some(first) = read_command_word(word) else {
        return None;
    };
    Some(Keyword::Command(first))
}
