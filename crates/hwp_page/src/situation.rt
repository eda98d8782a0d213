ghost use Rattle.std.specs.Prelude.{◌≡◌};
ghost use Rattle.hwp_page.specs.Situations.{is_signalling, always_signals, outcome_of};

/// What a memory failure finds in its frame (after Linux hwpoison.rst; these ten cases are this project's rule).
#[derive(Clone, Copy, PartialEq, Eq)]
pub enum Situation {
    /// The frame has no page.
    Free,
    /// The frame is the kernel's own.
    Kernel,
    /// A page of a file, equal to the file.
    FileClean,
    /// A page of a file that was stored to.
    FileDirty,
    /// An anonymous page that stands nowhere else.
    AnonOnly,
    /// An anonymous page, equal to what was swapped out.
    SwapClean,
    /// An anonymous page that was swapped out and then stored to.
    SwapDirty,
    /// A locked page of a file, equal to the file.
    LockedClean,
    /// A locked page of a file that was stored to.
    LockedFile,
    /// A locked anonymous page.
    LockedAnon,
}

/// What came of a memory failure (Linux hwpoison.rst has these words).
#[derive(Clone, Copy, PartialEq, Eq)]
pub enum Outcome {
    /// The page was taken away, and its content or the loss of it is settled.
    Recovered,
    /// The loss of the content shows only when the page is used again.
    Delayed,
    /// Nothing was done.
    Ignored,
}

impl Situation {
    /// Whether a failure in this situation signals processes at all.
    pub fn signals(self) -> bool
        ensures { result ≡ is_signalling self }
    {
        match self {
            Situation::FileDirty
            | Situation::AnonOnly
            | Situation::LockedFile
            | Situation::LockedAnon => true,
            Situation::Free
            | Situation::Kernel
            | Situation::FileClean
            | Situation::SwapClean
            | Situation::SwapDirty
            | Situation::LockedClean => false,
        }
    }

    /// Whether a failure in this situation tells every process that maps the page, also where none of its threads is early.
    pub fn always_signals(self) -> bool
        ensures { result ≡ always_signals self }
    {
        match self {
            Situation::LockedFile | Situation::LockedAnon => true,
            Situation::Free
            | Situation::Kernel
            | Situation::FileClean
            | Situation::FileDirty
            | Situation::AnonOnly
            | Situation::SwapClean
            | Situation::SwapDirty
            | Situation::LockedClean => false,
        }
    }

    /// What comes of a failure in this situation.
    pub fn outcome(self) -> Outcome
        ensures { result ≡ outcome_of self }
    {
        match self {
            Situation::Free
            | Situation::FileClean
            | Situation::FileDirty
            | Situation::AnonOnly
            | Situation::SwapClean
            | Situation::LockedClean
            | Situation::LockedFile
            | Situation::LockedAnon => Outcome::Recovered,
            Situation::SwapDirty => Outcome::Delayed,
            Situation::Kernel => Outcome::Ignored,
        }
    }
}
