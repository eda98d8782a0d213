ghost use Rattle.std.specs.Prelude.{◌≡◌, ◌<◌, ◌^◌, length, IfOk};
ghost use Rattle.hwp_check_rules.specs.Standing.{last_line};
ghost use Rattle.hwp_check_frames.specs.Index.{IsIndex};

use crate::beside::lines_beside;
use crate::counts::Counts;
use crate::flags::flags_of;
use crate::given::{Given, given_of};
use crate::own::own_counts;
use crate::said::{Said, said_of};
use hwp_check_rules::{OutOfMemory, Report, Script};
use std::alloc::Global;

/// What is looked up of a report: the answers of commands, their event lines with a result, which frames have such lines beyond
/// their marks, and the lines of soft offlines beside answers.
pub struct Index {
    /// The answers of commands.
    pub(crate) given: Given,
    /// What is noted of their event lines with a result.
    pub(crate) said: Said,
    /// Which frames have event lines of a command beyond its marks.
    pub(crate) beyond: Vec<bool>,
    /// How many lines of a command, beside its answer, say of a frame that its content moved, or that it was taken free.
    pub beside: Counts,
}

// Proved here once: crates above that let one go cite it.
impl Drop for Index {
    fn drop(self) {
        let Index {
            given: _given,
            said: _said,
            beyond: _beyond,
            beside: _beside,
        } = self;
    }
}

/// The index of a report.
pub fn index_of(alloc: Global, script: &Script, report: &Report) -> Result<Index, OutOfMemory>
    requires cpus { length report.now.cpus ≡ script.now.layout.cpus }
    requires frames { length report.now.frames ≡ script.now.layout.frames }
    requires room { last_line report.now < 2 ^ 64 }
    ensures { IfOk result (λ index. IsIndex report.now index) }
{
    let (cpus, frames) = (script.layout.cpus, script.layout.frames);
    let given = given_of(alloc, cpus, report)?;
    let said = said_of(alloc, cpus, report)?;
    let own = own_counts(alloc, frames, report.frames.as_slice())?;
    let beyond = flags_of(alloc, cpus, frames, report, &own, &said.many)?;
    let beside = lines_beside(alloc, cpus, report)?;
    Ok(Index {
        given,
        said,
        beyond,
        beside,
    })
}
