use hwp_geom::{Proc, Thread, VSlot};

/// When a thread is signalled for a memory failure of a page that it has mapped (prctl(2), PR_MCE_KILL): late, when it
/// meets the page; early, at once; or as the system default `vm.memory_failure_early_kill` says.
#[derive(Clone, Copy, PartialEq, Eq)]
pub enum Policy {
    Late,
    Early,
    Default,
}

/// A thread's policy as a memory failure read it, with the number of the thread's policy settings so far.
#[derive(Clone, Copy)]
pub struct Seen {
    pub thread: Thread,
    pub policy: Policy,
    pub n: u32,
}

/// The code of a SIGBUS (sigaction(2)): BUS_MCEERR_AR, action required, or BUS_MCEERR_AO, action optional.
#[derive(Clone, Copy, PartialEq, Eq)]
pub enum Code {
    Ar,
    Ao,
}

/// A SIGBUS to a thread of a process, for the address of one of the process's translations.
#[derive(Clone, Copy, PartialEq, Eq)]
pub struct Signal {
    pub process: Proc,
    pub thread: Thread,
    pub code: Code,
    pub slot: VSlot,
}

/// What a prctl(2) call does: it sets a policy, it answers the policy, or it is refused as EINVAL.
#[derive(Clone, Copy, PartialEq, Eq)]
pub enum Reply {
    Set(Policy),
    Is(Policy),
    Einval,
}
