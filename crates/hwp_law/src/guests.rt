ghost use Rattle.std.specs.Prelude.{◌≡◌};
ghost use Rattle.hwp_law.specs.GuestRule.{access_by, guest_access};

use hwp_report_text::Access;
use hwp_script_words::{Command, Layout, Line, Mode, Proc, Thread, VSlot};

/// An access by a thread of a guest: the guest, the translation, which is its guest frame, the line, whether it is a fetch, and the
/// processor's mode (this project's rule).
#[derive(Clone, Copy)]
pub struct GuestAccess {
    pub process: Proc,
    pub slot: VSlot,
    pub line: Line,
    pub kind: Access,
    pub mode: Mode,
}

/// The access of a thread through this translation, where the thread is one of a guest.
fn access_by(
    layout: &Layout,
    thread: Thread,
    slot: VSlot,
    line: Line,
    kind: Access,
    mode: Mode,
) -> Option<GuestAccess>
    ensures { result ≡ access_by layout.now thread slot line kind mode }
{
    let Some(declared) = layout.threads.as_slice().get(usize::from(thread.0)) else {
        return None;
    };
    let process = declared.process;
    if layout.is_guest(process) {
        Some(GuestAccess {
            process,
            slot,
            line,
            kind,
            mode,
        })
    } else {
        None
    }
}

/// The access of a command, where its thread is one of a guest.
pub fn guest_access(layout: &Layout, command: &Command) -> Option<GuestAccess>
    ensures { result ≡ guest_access layout.now command.now }
{
    match *command {
        Command::Load { thread, slot, line }
        | Command::Store {
            thread,
            slot,
            line,
            ..
        } => { access_by(layout, thread, slot, line, Access::Plain, Mode::User) }
        Command::Fetch { thread, slot, line } => {
            access_by(layout, thread, slot, line, Access::Fetch, Mode::User)
        }
        Command::KLoad { thread, slot, line } => {
            access_by(layout, thread, slot, line, Access::Plain, Mode::Kernel)
        }
        _ => None,
    }
}
