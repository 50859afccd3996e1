//! The context that moves next.

ghost use Rattle.std.specs.Prelude.{◌≡◌, ◌≤◌, ◌<◌, length, position, IfSome};
ghost use Rattle.std.specs.List.{zip};
ghost use Rattle.elastic_policy.specs.inner.Turns.{goes, IsTurn};

use crate::sums::{SUMS, heaviest, lightest};
use wave_base::Host;

/// A context that moves: its place in path order, the host that it leaves and the one that it goes to.
#[derive(Clone, Copy)]
pub struct Turn {
    pub index: usize,
    pub from: Host,
    pub to: Host,
}

/// What moves next, where something does.
pub fn next_turn(at: &[Host], loads: &[u64], sums: &[u64; SUMS], hosts: u8) -> Option<Turn>
    requires paired { length at.now ≡ length loads.now }
    requires some_host { 1 ≤ hosts }
    requires few_hosts { hosts ≤ SUMS }
    ensures turn { IsTurn hosts sums.now (zip at.now loads.now) result }
    ensures within { IfSome result (λ t. t.index < length at.now) }
    ensures from { IfSome result (λ t. t.from.0 < hosts) }
    ensures to { IfSome result (λ t. t.to.0 < hosts) }
{
    let from = heaviest(sums, hosts);
    let to = lightest(sums, hosts);
    let spread = sums[from.0 as usize] - sums[to.0 as usize];
    let index = first_mover(at, loads, from, spread)?;
    Some(Turn { index, from, to })
}

// The first context on a host whose load is above 0 and below a difference.
fn first_mover(at: &[Host], loads: &[u64], from: Host, spread: u64) -> Option<usize>
    requires { length at.now ≡ length loads.now }
    ensures first { result ≡ position (goes from.0 spread) (zip at.now loads.now) }
    ensures within { IfSome result (λ i. i < length at.now) }
{
    at.iter().zip(loads).position(|(host, load)| *host == from && 0 < *load && *load < spread)
}
