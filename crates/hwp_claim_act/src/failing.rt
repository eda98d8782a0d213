ghost use Rattle.std.specs.Prelude.{◌≡◌, ◌≤◌, length};
ghost use Rattle.hwp_core.specs.hwp_kill.Kill.{Killed};
ghost use Rattle.hwp_core.specs.hwp_kill.Limits.{signal_limit};
ghost use Rattle.hwp_core.specs.hwp_page.Actions.{situation_of};
ghost use Rattle.hwp_core.specs.hwp_page.Situations.{always_signals, is_signalling};
ghost use Rattle.hwp_claim_act.specs.Abandons.{endings_of, is_unhandled, signals_now};
ghost use Rattle.hwp_claim_act.specs.Failing.{CanEnter, HasMadeEntry, bars_of, lost_of};

use crate::abandon::{Failed, Losses};
use hwp_core::{
    At, Body, Code, Entry, FileNo, Layout, List, PageKind, PageState, Seen, Signal, SignalList,
    SignalRoom, Situation, Thread, What, Who, signals,
};

/// A body with the entry of its failure, and what the failure costs.
#[derive(Drop)]
pub(crate) struct Entered {
    pub(crate) body: Body,
    pub(crate) losses: Losses,
    pub(crate) failed: Failed,
}

/// Whether the signal ends its process.
fn is_unhandled(layout: &Layout, signal: Signal) -> bool
    ensures { result ≡ is_unhandled layout.now signal }
{
    match layout.threads.as_slice().get(usize::from(signal.thread.0)) {
        Some(thread) => !thread.handler,
        None => false,
    }
}

/// The signals that end their processes.
fn endings(layout: &Layout, signals: &SignalList) -> SignalList
    ensures endings { result ≡ endings_of layout.now signals.now }
    ensures few { length result ≤ signal_limit }
{
    let mut endings = SignalList::new();
    for signal in signals.as_slice() {
        if is_unhandled(layout, *signal) {
            endings.push(*signal);
        }
    }
    endings
}

/// Whether one of the signals is to the thread that needs the page now.
fn signals_now(signals: &SignalList) -> bool
    ensures { result ≡ signals_now signals.now }
{
    signals
        .as_slice()
        .iter()
        .any(|signal| signal.code == Code::Ar)
}

/// The file that loses what was stored to the page, if one does.
fn lost_file(state: &PageState) -> Option<FileNo>
    ensures { result ≡ lost_of state.now }
{
    match (state.kind, state.dirty) {
        (PageKind::File { file, .. }, true) => Some(file),
        (PageKind::File { .. }, false) | (PageKind::Anon, _) => None,
    }
}

/// Whether the translations in use get poison entries.
pub(crate) fn bars(situation: Situation) -> bool
    ensures { result ≡ bars_of situation }
{
    match situation {
        Situation::FileDirty
        | Situation::AnonOnly
        | Situation::LockedFile
        | Situation::LockedAnon => true,
        Situation::Free
        | Situation::Kernel
        | Situation::FileClean
        | Situation::SwapClean
        | Situation::SwapDirty
        | Situation::LockedClean => false,
    }
}

/// The signals of the failure, by the policies that were read.
fn due_signals(body: &Body, required: Option<Thread>, seen: &List<Seen>) -> SignalList
    ensures { Killed body.now.layout body.now.state.maps (is_signalling (situation_of body.now.state)) (always_signals (situation_of body.now.state)) required seen.now result }
{
    let state = body.state();
    let situation = state.situation();
    let mut due = SignalList::new();
    signals(
        body.layout(),
        &state.maps,
        situation.signals(),
        situation.always_signals(),
        required,
        seen,
        &mut due,
    );
    due
}

/// The body gets the entry of the failure, by the policies that were read.
pub(crate) fn enter(
    who: Who,
    required: Option<Thread>,
    body: Body,
    seen: List<Seen>,
    room: SignalRoom,
) -> Entered
    requires { CanEnter required body seen }
    ensures { HasMadeEntry who required body seen result }
{
    let mut body = body;
    let state = body.state();
    let situation = state.situation();
    let due = due_signals(&body, required, &seen);
    let losses = Losses {
        file: lost_file(state),
        endings: endings(body.layout(), &due),
    };
    let failed = Failed {
        situation,
        required,
        at: At {
            page: body.page(),
            entry: body.len(),
        },
        signalled: signals_now(&due),
    };
    body.append(Entry {
        who,
        what: What::Fail {
            situation,
            required,
            seen,
            signals: room.list(&due),
        },
    });
    Entered {
        body,
        losses,
        failed,
    }
}
