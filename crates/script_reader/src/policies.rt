//! What a policy line means, or why it means nothing.

ghost use Rattle.std.specs.Prelude.{◌≡◌, ◌<◌, ◌≤◌, true, IfSome, IfNone};
ghost use Rattle.wave_base.specs.Names.{is_digits};
ghost use Rattle.wave_base.specs.Shapes.{IsShape};
ghost use Rattle.wave_base.specs.declared.limits.TheConstants.{EVENT_LINES};
ghost use Rattle.wave_text.specs.Numbers.{number_of};
ghost use Rattle.script_reader.specs.Elastics.{judged_worded};
ghost use Rattle.script_reader.specs.Policies.{is_policy_form, balance_policy, drain_policy, policy_of, judged_policy};
ghost use Rattle.script_reader.specs.inner.Gives.{Gives};
ghost use Rattle.script_reader.specs.inner.ElasticProgressed.{IsWellWorded};

use crate::elastic_progress::ElasticProgress;
use crate::error::Fault;
use crate::judge::{judgment, number_within};
use crate::named::NamedShape;
use crate::policy_form::PolicyForm;
use crate::refusal::Refusal;
use crate::told::Told;
use crate::worded::Worded;
use std::alloc::Global;
use wave_base::{EVENT_LINES, Host, Policy};
use wave_text::whole_of;

// The number of moves that digits stand for, where a policy may make so many.
fn count_of(digits: &[u8]) -> Option<u32>
    requires { is_digits digits.now ≡ true }
    ensures some { IfSome result (λ n. n ≡ number_of digits.now) }
    ensures within { IfSome result (λ n. n ≤ EVENT_LINES) }
    ensures none { IfNone result (EVENT_LINES < number_of digits.now) }
{
    match whole_of(digits) {
        Some(n) if 0 <= n && n <= EVENT_LINES as i64 => Some(n as u32),
        _ => None,
    }
}

fn balance_policy(digits: &[u8]) -> Result<Policy, Fault>
    requires { is_digits digits.now ≡ true }
    ensures { result ≡ balance_policy (number_of digits.now) }
{
    match count_of(digits) {
        Some(n) if 1 <= n => Ok(Policy::Balance(n)),
        _ => Err(Fault::CountRange),
    }
}

// The host that digits stand for, where it is below their count.
fn host_of(hosts: u8, digits: &[u8]) -> Option<u8>
    requires { is_digits digits.now ≡ true }
    ensures some { IfSome result (λ h. h ≡ number_of digits.now) }
    ensures below { IfSome result (λ h. h < hosts) }
    ensures none { IfNone result (hosts ≤ number_of digits.now) }
{
    match number_within(digits, hosts) {
        Some(host) if host < hosts => Some(host),
        _ => None,
    }
}

fn drain_policy(hosts: u8, from: &[u8], to: &[u8]) -> Result<Policy, Fault>
    requires from { is_digits from.now ≡ true }
    requires to { is_digits to.now ≡ true }
    ensures { result ≡ drain_policy hosts (number_of from.now) (number_of to.now) }
{
    match (host_of(hosts, from), host_of(hosts, to)) {
        (Some(from), Some(to)) if from != to => Ok(Policy::Drain(Host(from), Host(to))),
        _ => Err(Fault::HostRange),
    }
}

fn policy_of(hosts: u8, form: &PolicyForm) -> Result<Policy, Fault>
    requires { is_policy_form form.now ≡ true }
    ensures { result ≡ policy_of hosts form.now }
{
    match form {
        PolicyForm::Balance(count) => balance_policy(count.as_slice()),
        PolicyForm::Drain(from, to) => drain_policy(hosts, from.as_slice(), to.as_slice()),
    }
}

// What a policy line of this form is, where so many hosts and event lines stand before.
fn judged_policy(before: &ElasticProgress, form: &PolicyForm) -> Result<Policy, Fault>
    requires { is_policy_form form.now ≡ true }
    ensures { result ≡ judged_policy before.now.plain.hosts before.now.plain.events before.now.under_way form.now }
{
    if before.plain.events >= EVENT_LINES {
        return Err(Fault::TooMany);
    }
    if before.under_way {
        return Err(Fault::PolicyLate);
    }
    policy_of(before.plain.hosts, form)
}

/// What a line is, after the lines before: taken, or refused.
pub(crate) fn judged_worded(
    alloc: Global,
    shape: &NamedShape<'_>,
    before: &ElasticProgress,
    worded: &Worded<'_>,
) -> Result<Told, Refusal>
    requires shape { IsShape shape.now }
    requires form { IsWellWorded worded.now }
    ensures { Gives result (judged_worded shape.now before.now.plain.hosts before.now.plain.begun before.now.plain.events before.now.under_way worded.now) }
{
    match worded {
        Worded::Plain(said) => Ok(Told::Plain(judgment(alloc, shape, &before.plain, said)?)),
        Worded::Policy(form) => Ok(Told::Policed(judged_policy(before, form)?)),
    }
}
