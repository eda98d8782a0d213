ghost use Rattle.std.specs.Prelude.{◌≡◌, ◌<◌, ◌++◌, All, IfOk, OnOk, IfSome, length};
ghost use Rattle.hwp_cec.specs.Limits.{threshold_limit, window_limit};
ghost use Rattle.hwp_check_rules.specs.hwp_geom.declared.Frame.{Frame as FrameValue};
ghost use Rattle.hwp_check_rules.specs.hwp_script_words.Commands.{IsCollectorWithin};
ghost use Rattle.hwp_check_rules.specs.hwp_check_event_line.Firsts.{shown_lines};
ghost use Rattle.hwp_check_rules.specs.hwp_law.Notes.{notes};
ghost use Rattle.hwp_check_frames.specs.Collecting.{AreDue, AreTaken, IsBegun, IsGoneOn, IsLimited, IsNoted, IsRounded, begun_by, ends_round, if_goes, is_offline};

use crate::notes::notes;
use hwp_cec::{Collector, Noted};
use hwp_check_rules::{Answer, Command, Frame, Layout, List, OutOfMemory, Shown};
use std::alloc::Global;

/// The numbers of a collector: how many notes take a frame out of use, and within how many rounds.
#[derive(Clone, Copy)]
pub struct Limits {
    pub threshold: u16,
    pub window: u8,
}

/// Whether the note takes its frame out of use.
fn is_offline(noted: Noted) -> bool
    ensures { result ≡ is_offline noted }
{
    matches!(noted, Noted::Offline)
}

/// Takes a note: whether it takes its frame out of use.
fn note(collector: &mut Collector, frame: Frame) -> bool
    requires { frame.0 < length collector.old.counts }
    ensures { IsNoted collector.old collector.new frame result }
{
    is_offline(collector.note(frame))
}

/// Adds the frame where it goes out of use.
fn add_if(frames: &mut List<Frame>, goes: bool, frame: Frame) -> Result<(), OutOfMemory>
    ensures { OnOk result (frames.new ≡ frames.old ++ if_goes goes frame) }
{
    if goes {
        frames.push(frame)?;
    }
    Ok(())
}

/// The frames that these notes take out of use, in order.
fn take_out(
    alloc: Global,
    collector: &mut Collector,
    notes: &[Frame],
) -> Result<List<Frame>, OutOfMemory>
    requires { All (λ (f : FrameValue). f.0 < length collector.old.counts) notes.now }
    ensures { IfOk result (λ frames. AreTaken collector.old collector.new notes.now frames) }
{
    let mut frames = List::new(alloc);
    for frame in notes {
        let goes = note(collector, *frame);
        add_if(&mut frames, goes, *frame)?;
    }
    Ok(frames)
}

/// The frames that a command with these notes takes out of use: none where the collector isn't on.
fn due(
    alloc: Global,
    collector: &mut Collector,
    on: bool,
    notes: &[Frame],
) -> Result<List<Frame>, OutOfMemory>
    requires { All (λ (f : FrameValue). f.0 < length collector.old.counts) notes.now }
    ensures { IfOk result (λ frames. AreDue on collector.old collector.new notes.now frames) }
{
    if on {
        take_out(alloc, collector, notes)
    } else {
        Ok(List::new(alloc))
    }
}

/// The frames that a command with these event lines takes out of use.
pub(crate) fn due_by(
    alloc: Global,
    layout: &Layout,
    collector: &mut Collector,
    on: bool,
    lines: &[Shown],
) -> Result<List<Frame>, OutOfMemory>
    requires { length collector.old.counts ≡ layout.now.frames }
    ensures { IfOk result (λ frames. AreDue on collector.old collector.new (notes layout.now (shown_lines lines.now)) frames) }
{
    let noted = notes(alloc, layout, lines)?;
    due(alloc, collector, on, noted.as_slice())
}

/// The numbers of the collector that a command with this answer gives its processor, if it gives one.
fn begun_by(command: &Command, answer: Answer) -> Option<Limits>
    ensures { result ≡ begun_by command.now answer }
{
    match *command {
        Command::Watch { threshold, window } if matches!(answer, Answer::Done) => {
            Some(Limits { threshold, window })
        }
        _ => None,
    }
}

/// Whether a command with this answer ends a round.
fn ends_round(command: &Command, answer: Answer) -> bool
    ensures { result ≡ ends_round command.now answer }
{
    matches!(command, Command::Scrub { .. }) && matches!(answer, Answer::Scrubbed(_))
}

/// Ends a round.
fn end_round(collector: &mut Collector)
    ensures { IsRounded collector.old collector.new }
{
    collector.round();
}

/// Begins anew with these numbers.
fn begin(collector: &mut Collector, limits: Limits)
    requires { IsCollectorWithin limits.threshold limits.window }
    ensures { IsBegun limits collector.old collector.new }
{
    collector.restart(limits.threshold, limits.window);
}

/// Goes on behind the notes of a command with this answer: whether the collector is on then.
pub(crate) fn go_on(collector: &mut Collector, on: bool, command: &Command, answer: Answer) -> bool
    requires { IsLimited command.now }
    ensures { IsGoneOn command.now answer on result collector.old collector.new }
{
    match begun_by(command, answer) {
        Some(limits) => {
            begin(collector, limits);
            true
        }
        None => {
            if on && ends_round(command, answer) {
                end_round(collector);
            }
            on
        }
    }
}
