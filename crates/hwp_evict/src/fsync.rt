ghost use Rattle.std.specs.Prelude.{◌≡◌, is_some, is_none};
ghost use Rattle.hwp_evict.specs.Fsyncs.{begin, plan, answer, number, after_stop, after_report, reported};

use hwp_core::{
    Body, FileNo, Layout, Ranked, Scheduled, SharedWord, Step, Task, Turn, Who, is_stopped,
    let_go_of,
};

/// Tells how much of a file was lost since a handle saw its loss word last. A handle is the pair of a processor and a file, and its
/// number the losses that it has seen (Linux errseq_t, of which each open file keeps a sample; this is a simple form). The opening
/// of a handle answers the count.
#[derive(Clone, Copy)]
pub struct Fsync {
    who: Who,
    file: FileNo,
    handle: u64,
    opens: bool,
    at: FsyncAt,
}

#[derive(Clone, Copy)]
enum FsyncAt {
    LoadStop,
    Report,
    Over { answer: FsyncAnswer, number: u64 },
}

/// What an `Fsync` came to (this project's rule).
#[derive(Clone, Copy)]
pub enum FsyncAnswer {
    /// The machine has stopped.
    Stopped,
    /// Nothing of the file was lost since.
    Done,
    /// So much was lost since, at least once.
    Eio(u64),
    /// The handle was opened, and so much of the file had been lost.
    Opened(u64),
}

impl Fsync {
    /// The command asks for the losses of the file that its handle, which has this number, hasn't seen; or opens the handle.
    pub fn new(who: Who, file: FileNo, handle: u64, opens: bool) -> Fsync
        ensures { result ≡ begin who file handle opens }
    {
        Fsync {
            who,
            file,
            handle,
            opens,
            at: FsyncAt::LoadStop,
        }
    }

    /// The file.
    pub fn file(&self) -> FileNo
        ensures { result ≡ self.now.file }
    {
        self.file
    }

    /// What the task came to; `None` until it is over.
    pub fn answer(&self) -> Option<FsyncAnswer>
        ensures answer { result ≡ answer self.now }
        ensures over { is_some result ≡ is_none (plan self.now) }
    {
        match self.at {
            FsyncAt::LoadStop | FsyncAt::Report => None,
            FsyncAt::Over { answer, .. } => Some(answer),
        }
    }

    /// The handle's number: the losses that it has seen when the task is over, and until then, or where the machine has stopped,
    /// those that it had seen before.
    pub fn number(&self) -> u64
        ensures { result ≡ number self.now }
    {
        match self.at {
            FsyncAt::LoadStop | FsyncAt::Report => self.handle,
            FsyncAt::Over { number, .. } => number,
        }
    }

    fn after_stop(handle: u64, word: u64) -> FsyncAt
        ensures { result ≡ after_stop handle word }
    {
        if is_stopped(word) {
            FsyncAt::Over {
                answer: FsyncAnswer::Stopped,
                number: handle,
            }
        } else {
            FsyncAt::Report
        }
    }

    fn after_report(handle: u64, opens: bool, word: u64) -> FsyncAt
        ensures { result ≡ after_report handle opens word }
    {
        FsyncAt::Over {
            answer: reported(handle, opens, word),
            number: word,
        }
    }
}

/// What a handle with this number is told where so much has been lost.
fn reported(handle: u64, opens: bool, word: u64) -> FsyncAnswer
    ensures { result ≡ reported handle opens word }
{
    if opens {
        FsyncAnswer::Opened(word)
    } else if word == handle {
        FsyncAnswer::Done
    } else {
        FsyncAnswer::Eio(word.saturating_sub(handle))
    }
}

impl Task for Fsync {
    ghost use Rattle.hwp_evict.specs.Fsyncs as fsyncs;

    ghost task = { fsyncs.task };

    fn who(&self) -> Who {
        self.who
    }

    fn plan(&self) -> Option<Step> {
        match self.at {
            FsyncAt::LoadStop => Some(Step::Load {
                place: SharedWord::Stop,
            }),
            FsyncAt::Report => Some(Step::ReportLost { file: self.file }),
            FsyncAt::Over { .. } => None,
        }
    }

    fn give(&mut self) -> Option<Body> {
        None
    }

    fn settle(&mut self, _layout: &Layout, found: u64, body: Option<Body>) -> Turn {
        let_go_of(body);
        match self.at {
            FsyncAt::LoadStop => {
                self.at = Fsync::after_stop(self.handle, found);
                if is_stopped(found) {
                    Turn::Answered
                } else {
                    Turn::Moved
                }
            }
            FsyncAt::Report => {
                self.at = Fsync::after_report(self.handle, self.opens, found);
                Turn::Answered
            }
            FsyncAt::Over { .. } => Turn::Moved,
        }
    }
}

impl Ranked for Fsync {
    fn class(&self) -> u8 {
        4
    }

    fn ranked() {}
}

impl Scheduled for Fsync {
    fn tells() {}
}
