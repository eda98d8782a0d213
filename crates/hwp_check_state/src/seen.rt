ghost use Rattle.std.specs.Prelude.{◌≡◌, ◌↔◌, IsTrue, ◌+◌, ◌-◌, ◌*◌, ◌<◌, ◌≤◌, ◌^◌, ◌==◌, cond, length, min, slice_index, take, IfOk, MatchBool, MatchOption};
ghost use Rattle.std.specs.List.{All};
ghost use Rattle.std.specs.List.Sorted.{IsNonDecreasingBy};
ghost use Rattle.hwp_check_rules.specs.hwp_law.Settings.{last_policy};
ghost use Rattle.hwp_check_rules.specs.hwp_law.SeenPolicies.{IsOwnCount, IsPolicySeen};
ghost use Rattle.hwp_check_rules.specs.hwp_kill.declared.Policy.TheVariants.{Default};
ghost use Rattle.hwp_check_rules.specs.hwp_check_event_line.Scripts.{IsDeclared};
ghost use Rattle.hwp_check_rules.specs.Pasts.{ArePasts, IsPast};
ghost use Rattle.hwp_check_state.specs.Sights.{IsBelow, IsFirstOf, IsNotBelow, IsRight, IsSmall, IsWrong, group_of, key_of, top_of};
ghost use Rattle.hwp_check_rules.specs.Standing.{last_line};
ghost use Rattle.hwp_check_rules.specs.Firsts.{IsFirstFault};
ghost use Rattle.hwp_check_rules.specs.Rules.{SeenFit};
ghost use Rattle.hwp_check_rules.specs.Faults.{IsSeenFault};

use crate::sights::{Sight, add_pages};
use hwp_check_rules::{
    OutOfMemory, Policy, Report, Script, Seen, ThreadPolicies, page_at, pasts_of, sooner_if,
    soonest,
};
use std::alloc::Global;

/// The policy after so many settings.
fn policy_after(policies: &[Policy], n: usize) -> Policy
    requires { n ≤ length policies.now }
    ensures { result ≡ last_policy (take n policies.now) }
{
    if n == 0 {
        Policy::Default
    } else {
        policies[n - 1]
    }
}

/// Whether the policy is the one after the thread's setting of that number.
fn is_policy_seen(script: &Script, report: &Report, past: &ThreadPolicies, seen: Seen) -> bool
    requires { IsPast script.now report.now seen.thread past.now }
    ensures { MatchBool result (IsPolicySeen script.now report.now seen) (IsPolicySeen script.now report.now seen → ⊥) }
{
    let policies = past.policies.as_slice();
    let n = seen.n as usize;
    n <= policies.len() && policy_after(policies, n) == seen.policy
}

/// The count before a command, or behind the last one.
fn count_before(done: &[u64], seq: u32) -> u64
    requires { 0 < length done.now }
    ensures { result ≡ slice_index done.now (min seq (length done.now - 1)) }
{
    done[(seq as usize).min(done.len() - 1)]
}

/// Whether the number of settings is that of those done before the command, where the thread is of the command's processor.
fn is_own_count(script: &Script, report: &Report, past: &ThreadPolicies, sight: &Sight) -> bool
    requires { IsPast script.now report.now sight.now.seen.thread past.now }
    ensures { MatchBool result (IsOwnCount script.now report.now sight.now.who sight.now.seen) (IsOwnCount script.now report.now sight.now.who sight.now.seen → ⊥) }
{
    if past.cpu != sight.who.cpu {
        return true;
    }
    count_before(past.done.as_slice(), sight.who.seq) == u64::from(sight.seen.n)
}

/// Whether a policy seen of this thread is right by itself.
fn is_right_of(script: &Script, report: &Report, past: &ThreadPolicies, sight: &Sight) -> bool
    requires { IsPast script.now report.now sight.now.seen.thread past.now }
    ensures { MatchBool result (IsRight script.now report.now sight.now) (IsWrong script.now report.now sight.now) }
{
    is_policy_seen(script, report, past, sight.seen) && is_own_count(script, report, past, sight)
}

/// Whether it is the default, before any setting.
fn is_default(seen: Seen) -> bool
    ensures { IsTrue result ↔ (seen.n ≡ 0) × (seen.policy ≡ Default) }
{
    seen.n == 0 && seen.policy == Policy::Default
}

/// Whether a policy seen is right by itself. A thread that isn't declared has none but the default.
fn is_right(script: &Script, report: &Report, pasts: &[ThreadPolicies], sight: &Sight) -> bool
    requires { ArePasts script.now report.now pasts.now }
    ensures { MatchBool result (IsRight script.now report.now sight.now) (IsWrong script.now report.now sight.now) }
{
    match pasts.get(usize::from(sight.seen.thread.0)) {
        Some(past) => is_right_of(script, report, past, sight),
        None => is_default(sight.seen),
    }
}

/// The numbers of a policy seen are of their widths.
fn small(sight: Sight)
    ensures { IsSmall sight }
{
    let _sight = sight;
}

/// The first line of a policy seen that is wrong by itself.
fn first_wrong(
    script: &Script,
    report: &Report,
    pasts: &[ThreadPolicies],
    list: &[Sight],
) -> Option<u64>
    requires { ArePasts script.now report.now pasts.now }
    ensures first { IsFirstOf (IsRight script.now report.now) (IsWrong script.now report.now) list.now result }
    ensures small { All IsSmall list.now }
{
    let mut found = None;
    for sight in list {
        small(*sight);
        let right = is_right(script, report, pasts, sight);
        found = sooner_if(!right, found, sight.line);
    }
    found
}

/// Two numbers as one.
fn pair(high: u8, low: u8) -> u128
    ensures pair { result ≡ high * 256 + low }
    ensures small { result < 65536 }
{
    u128::from(high) * 256 + u128::from(low)
}

/// A number behind two others.
fn behind(high: u128, middle: u32, low: u32) -> u128
    requires { high < 65536 }
    ensures { result ≡ (high * 2 ^ 32 + middle) * 2 ^ 32 + low }
{
    (high * 4294967296 + u128::from(middle)) * 4294967296 + u128::from(low)
}

/// The processor and the thread of a policy seen as one number.
fn group_of(sight: &Sight) -> u128
    ensures group { result ≡ group_of sight.now }
    ensures small { result < 65536 }
{
    pair(sight.who.cpu.0, sight.seen.thread.0)
}

/// The same with the command and the policy's number.
fn key_of(sight: &Sight) -> u128
    ensures { result ≡ key_of sight.now }
{
    behind(group_of(sight), sight.who.seq, sight.seen.n)
}

/// The highest number so far, which counts only in the same group.
fn top_of(group: u128, own: u128, top: u32) -> u32
    ensures { result ≡ top_of group own top }
{
    if group == own { top } else { 0 }
}

/// The first line of a policy seen that is older than one that an earlier command saw, of a list in the order of keys.
fn first_below(list: &[Sight]) -> Option<u64>
    requires sorted { IsNonDecreasingBy key_of list.now }
    requires small { All IsSmall list.now }
    ensures { IsFirstOf (IsNotBelow list.now) (IsBelow list.now) list.now result }
{
    let mut group = 0;
    let mut top = 0;
    let mut found = None;
    for sight in list {
        let own = group_of(sight);
        let before = top_of(group, own, top);
        found = sooner_if(sight.seen.n < before, found, sight.line);
        top = before.max(sight.seen.n);
        group = own;
    }
    found
}

/// Whether each policy seen is one that its thread had, and along a processor's commands none is older than the one before;
/// else the first line that breaks this.
pub fn seen_fault(
    alloc: Global,
    script: &Script,
    report: &Report,
) -> Result<Option<u64>, OutOfMemory>
    requires valid { IsDeclared script.now }
    requires room { last_line report.now < 2 ^ 64 }
    ensures { IfOk result (λ found. MatchOption found (SeenFit script.now report.now) (IsFirstFault (SeenFit script.now report.now) (IsSeenFault script.now report.now))) }
{
    let pasts = pasts_of(alloc, script, report)?;
    let mut list = Vec::new(alloc);
    add_pages(&mut list, report.pages.as_slice(), page_at(report, 0))?;
    let wrong = first_wrong(script, report, pasts.as_slice(), list.as_slice());
    list.sort_by_key(|sight| key_of(sight))?;
    let below = first_below(list.as_slice());
    Ok(soonest(wrong, below))
}
