ghost use Rattle.std.specs.Prelude.{◌≡◌, IfOk, length, take};
ghost use Rattle.std.specs.List.{list_any};
ghost use Rattle.hwp_check_rules.specs.hwp_law.GuestRule.{denial, denied};
ghost use Rattle.hwp_check_processes.specs.Admission.{AreAdmissions, admission_of, is_spoil, is_spoil_by, is_stop, is_stop_by, sigbus_by};

use hwp_check_rules::{
    Admit, Answer, Command, GuestAccess, Layout, Mode, OutOfMemory, Proc, VSlot, guest_access,
};
use std::alloc::Global;

/// The access of a command with this answer, where it was one of a guest that SIGBUS answered.
fn sigbus_by(layout: &Layout, pair: &(Command, Answer)) -> Option<GuestAccess>
    ensures { result ≡ sigbus_by layout.now pair.now }
{
    match pair.1 {
        Answer::Sigbus(_) => guest_access(layout, &pair.0),
        _ => None,
    }
}

/// Whether the access is one of the guest, in kernel mode.
fn is_stop_by(process: Proc, access: &GuestAccess) -> bool
    ensures { result ≡ is_stop_by process access.now }
{
    match access.mode {
        Mode::Kernel => access.process.0 == process.0,
        Mode::User => false,
    }
}

/// Whether the access is one of the guest through the translation, in user mode.
fn is_spoil_by(process: Proc, slot: VSlot, access: &GuestAccess) -> bool
    ensures { result ≡ is_spoil_by process slot access.now }
{
    match access.mode {
        Mode::User => access.process.0 == process.0 && access.slot.0 == slot.0,
        Mode::Kernel => false,
    }
}

/// Whether a command with this answer stopped the guest.
#[tactic(auto, using(crate::proofs::AdmissionLaws::sigbus_none, crate::proofs::AdmissionLaws::sigbus_stop))]
fn is_stop(layout: &Layout, process: Proc, pair: &(Command, Answer)) -> bool
    ensures { result ≡ is_stop layout.now process pair.now }
{
    match sigbus_by(layout, pair) {
        Some(access) => is_stop_by(process, &access),
        None => false,
    }
}

/// Whether it made this frame of the guest bad.
#[tactic(auto, using(crate::proofs::AdmissionLaws::spoilt_none, crate::proofs::AdmissionLaws::sigbus_spoil))]
fn is_spoil(layout: &Layout, process: Proc, slot: VSlot, pair: &(Command, Answer)) -> bool
    ensures { result ≡ is_spoil layout.now process slot pair.now }
{
    match sigbus_by(layout, pair) {
        Some(access) => is_spoil_by(process, slot, &access),
        None => false,
    }
}

/// Whether one of these commands stopped the guest.
fn is_stopped(layout: &Layout, process: Proc, earlier: &[(Command, Answer)]) -> bool
    ensures { result ≡ list_any (is_stop layout.now process) earlier.now }
{
    earlier.iter().any(|pair| is_stop(layout, process, pair))
}

/// Whether one of them made this frame of the guest bad.
fn is_spoilt(layout: &Layout, process: Proc, slot: VSlot, earlier: &[(Command, Answer)]) -> bool
    ensures { result ≡ list_any (is_spoil layout.now process slot) earlier.now }
{
    earlier
        .iter()
        .any(|pair| is_spoil(layout, process, slot, pair))
}

/// Whether the guest admits the access, behind these commands of its processor. A stopped guest is told before a bad frame.
#[tactic(auto, using(crate::proofs::AdmissionLaws::stopped_is, crate::proofs::AdmissionLaws::spoilt_is, crate::proofs::AdmissionLaws::admitted_is))]
fn admission_of(layout: &Layout, earlier: &[(Command, Answer)], access: &GuestAccess) -> Admit
    ensures { result ≡ admission_of layout.now earlier.now access.now }
{
    if is_stopped(layout, access.process, earlier) {
        return Admit::Stopped;
    }
    if is_spoilt(layout, access.process, access.slot, earlier) {
        return Admit::Bad;
    }
    Admit::Yes
}

/// The same of the access of a command; one of no guest is admitted.
#[tactic(auto, using(crate::proofs::AdmissionLaws::no_access, crate::proofs::AdmissionLaws::by_access))]
fn admission(layout: &Layout, earlier: &[(Command, Answer)], command: &Command) -> Admit
    ensures { denial result ≡ denied layout.now earlier.now command.now }
{
    match guest_access(layout, command) {
        Some(access) => admission_of(layout, earlier, &access),
        None => Admit::Yes,
    }
}

/// The pairs before the command with the number.
pub(crate) fn before(pairs: &[(Command, Answer)], number: usize) -> &[(Command, Answer)]
    ensures { result.now ≡ take number pairs.now }
{
    if number < pairs.len() {
        &pairs[..number]
    } else {
        pairs
    }
}

/// Whether its guest admits the access of each command, by the commands of the processor with their answers.
pub(crate) fn admissions(
    alloc: Global,
    layout: &Layout,
    commands: &[Command],
    pairs: &[(Command, Answer)],
) -> Result<Vec<Admit>, OutOfMemory>
    ensures { IfOk result (λ admits. AreAdmissions layout.now commands.now pairs.now (length commands.now) admits.items) }
{
    let mut admits = Vec::new(alloc);
    for number in 0..commands.len() {
        admits.push(admission(layout, before(pairs, number), &commands[number]))?;
    }
    Ok(admits)
}
