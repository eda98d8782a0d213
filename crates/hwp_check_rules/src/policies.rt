ghost use Rattle.std.specs.Prelude.{◌≡◌, ◌<◌, ◌≤◌, length};
ghost use Rattle.hwp_law.specs.hwp_kill.Prctl.{policy_set};
ghost use Rattle.hwp_law.specs.Settings.{arguments};
ghost use Rattle.hwp_law.specs.hwp_script_words.Forks.{is_thread_of};
ghost use Rattle.hwp_check_rules.specs.Pasts.{next_of, policy_by, set_if, set_in, step_of};

use hwp_law::{Command, Layout, Policy, PrctlArgs, Proc, Thread};

/// The policy that the arguments of prctl(2) set, if they set one.
fn policy_set(args: &PrctlArgs) -> Option<Policy>
    ensures { result ≡ policy_set (arguments args.now) }
{
    if args.operation != 33 || args.arg4 != 0 || args.arg5 != 0 {
        return None;
    }
    match (args.arg2, args.arg3) {
        (0, 0) => Some(Policy::Default),
        (1, 0) => Some(Policy::Late),
        (1, 1) => Some(Policy::Early),
        (1, 2) => Some(Policy::Default),
        _ => None,
    }
}

/// Whether the thread is one of the process.
fn is_thread_of(layout: &Layout, process: Proc, thread: Thread) -> bool
    ensures { result ≡ is_thread_of layout.now process.0 thread.0 }
{
    match layout.threads.as_slice().get(usize::from(thread.0)) {
        Some(declared) => declared.process.0 == process.0,
        None => false,
    }
}

/// What a command that was done does to the policy of a thread.
#[derive(Clone, Copy)]
pub enum PolicyStep {
    /// The policy stays.
    Stays,
    /// The thread sets this one.
    Set(Policy),
    /// A fork makes the thread's process: it gets the policy that this thread has then.
    From(Thread),
}

/// What the command does to the policy of the thread, if it is done.
fn step_of(layout: &Layout, thread: Thread, command: &Command, done: bool) -> PolicyStep
    ensures { result ≡ step_of layout.now thread command.now done }
{
    match *command {
        Command::Prctl {
            thread: other,
            ref args,
        } if done && other.0 == thread.0 => match policy_set(args) {
            Some(policy) => PolicyStep::Set(policy),
            None => PolicyStep::Stays,
        },
        Command::Fork {
            thread: parent,
            process,
        } if done && is_thread_of(layout, process, thread) => PolicyStep::From(parent),
        _ => PolicyStep::Stays,
    }
}

/// The policy that the step sets, if it sets one.
fn set_in(step: PolicyStep) -> Option<Policy>
    ensures { result ≡ set_in step }
{
    match step {
        PolicyStep::Set(policy) => Some(policy),
        _ => None,
    }
}

/// The thread whose policy before the step is this thread's behind it.
fn next_of(step: PolicyStep, thread: Thread) -> Thread
    ensures { result ≡ next_of step thread }
{
    match step {
        PolicyStep::From(parent) => parent,
        _ => thread,
    }
}

/// The policy of a thread before the command with the number, where the earlier ones were done so. They are read from the last one on.
pub fn policy_before(
    layout: &Layout,
    commands: &[Command],
    done: &[bool],
    number: usize,
    thread: Thread,
) -> Policy
    requires each { length done.now ≡ length commands.now }
    requires within { number ≤ length commands.now }
    ensures { result ≡ policy_by layout.now thread commands.now done.now number }
{
    let mut of = thread;
    for back in 0..number {
        let at = number - 1 - back;
        let step = step_of(layout, of, &commands[at], done[at]);
        match set_in(step) {
            Some(policy) => return policy,
            None => of = next_of(step, of),
        }
    }
    Policy::Default
}

/// The policy that the command with the number set for the thread, if it was done and set one.
pub(crate) fn set_if(
    layout: &Layout,
    commands: &[Command],
    done: &[bool],
    number: usize,
    thread: Thread,
) -> Option<Policy>
    requires each { length done.now ≡ length commands.now }
    requires within { number < length commands.now }
    ensures { result ≡ set_if layout.now thread commands.now done.now number }
{
    match step_of(layout, thread, &commands[number], done[number]) {
        PolicyStep::Stays => None,
        PolicyStep::Set(policy) => Some(policy),
        PolicyStep::From(parent) => Some(policy_before(layout, commands, done, number, parent)),
    }
}
