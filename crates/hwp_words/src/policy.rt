ghost use Rattle.std.specs.Prelude.{◌≡◌, ◌^◌, ◌<◌};
ghost use Rattle.hwp_words.specs.Policies.{policy_code, policy_coded, policy_reading, policy_word};

use crate::field::field;
use hwp_kill::Policy;

/// The word of a thread's policy (this project's rule; the policies are those of prctl(2), PR_MCE_KILL).
#[derive(Clone, Copy, PartialEq, Eq)]
pub struct PolicyWord {
    /// Bits 0 and 1: 0 late, 1 early, 2 default.
    pub policy: Policy,
    /// Bits 2 to 63: how often the policy was set.
    pub settings: u64,
}

impl PolicyWord {
    /// The word of these values.
    pub fn pack(self) -> u64
        requires settings { self.settings < 2 ^ 62 }
        ensures word { result ≡ policy_word self }
        ensures back { policy_reading result ≡ self }
    {
        policy_code(self.policy) + (self.settings << 2)
    }

    /// What a word says. The code 3, which no policy has, counts as the default.
    pub fn unpack(word: u64) -> PolicyWord
        ensures { result ≡ policy_reading word }
    {
        PolicyWord {
            policy: policy_coded(field(word, 0, 2)),
            settings: field(word, 2, 62),
        }
    }
}

/// The number of a policy in a word.
fn policy_code(policy: Policy) -> u64
    ensures value { result ≡ policy_code policy }
    ensures below { result < 2 ^ 2 }
{
    match policy {
        Policy::Late => 0,
        Policy::Early => 1,
        Policy::Default => 2,
    }
}

/// The policy of a number in a word.
fn policy_coded(code: u64) -> Policy
    ensures { result ≡ policy_coded code }
{
    match code {
        0 => Policy::Late,
        1 => Policy::Early,
        _ => Policy::Default,
    }
}
