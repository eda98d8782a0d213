ghost use Rattle.std.specs.Prelude.{◌≡◌};
ghost use Rattle.hwp_kill.specs.Prctl.{policy_number, policy_word, reply};

use crate::types::{Policy, Reply};

/// The operation of prctl(2) that sets the policy of a thread.
pub const PR_MCE_KILL: u64 = 33;
/// The operation of prctl(2) that answers the policy of a thread.
pub const PR_MCE_KILL_GET: u64 = 34;
/// How PR_MCE_KILL sets the policy back to the system default (prctl(2)).
pub const PR_MCE_KILL_CLEAR: u64 = 0;
/// How PR_MCE_KILL sets the policy that its next argument names (prctl(2)).
pub const PR_MCE_KILL_SET: u64 = 1;
/// The number of the policy `Late` (prctl(2)).
pub const PR_MCE_KILL_LATE: u64 = 0;
/// The number of the policy `Early` (prctl(2)).
pub const PR_MCE_KILL_EARLY: u64 = 1;
/// The number of the policy `Default` (prctl(2)).
pub const PR_MCE_KILL_DEFAULT: u64 = 2;

impl Policy {
    /// The number of the policy in prctl(2).
    pub fn number(self) -> u64
        ensures { result ≡ policy_number self }
    {
        match self {
            Policy::Late => PR_MCE_KILL_LATE,
            Policy::Early => PR_MCE_KILL_EARLY,
            Policy::Default => PR_MCE_KILL_DEFAULT,
        }
    }
}

/// The word of a policy.
pub fn policy_word(policy: Policy) -> &'static str
    ensures { result.now ≡ policy_word policy }
{
    match policy {
        Policy::Late => "late",
        Policy::Early => "early",
        Policy::Default => "default",
    }
}

/// What prctl(2) does with these arguments, where the calling thread has the policy `old`. It is `Einval` exactly where
/// the arguments are none of those that set a policy or ask for it: an argument that is not used has to be zero.
pub fn prctl(old: Policy, arguments: [u64; 5]) -> Reply
    ensures { result ≡ reply old arguments }
{
    match arguments {
        [PR_MCE_KILL, PR_MCE_KILL_CLEAR, 0, 0, 0] => Reply::Set(Policy::Default),
        [PR_MCE_KILL, PR_MCE_KILL_SET, PR_MCE_KILL_LATE, 0, 0] => Reply::Set(Policy::Late),
        [PR_MCE_KILL, PR_MCE_KILL_SET, PR_MCE_KILL_EARLY, 0, 0] => Reply::Set(Policy::Early),
        [PR_MCE_KILL, PR_MCE_KILL_SET, PR_MCE_KILL_DEFAULT, 0, 0] => Reply::Set(Policy::Default),
        [PR_MCE_KILL_GET, 0, 0, 0, 0] => Reply::Is(old),
        _ => Reply::Einval,
    }
}
