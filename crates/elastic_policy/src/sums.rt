//! The loads of hosts.

ghost use Rattle.std.specs.Prelude.{◌≡◌, ◌≤◌, ◌<◌, ◌^◌, ◌+◌, ℕ, length, map, sum, All, IfOk, slice_index};
ghost use Rattle.std.specs.List.{zip};
ghost use Rattle.elastic_policy.specs.Moves.{load_on, first_greatest, first_least};
ghost use Rattle.elastic_policy.specs.inner.Turns.{IsShifted};

use std::alloc::Global;
use wave_base::{Host, OutOfMemory, Place};

/// As many as there are hosts at most.
pub const SUMS: usize = 8;

/// The host of each context.
pub fn hosts_of(alloc: Global, places: &[Place]) -> Result<Vec<Host>, OutOfMemory>
    ensures { IfOk result (λ v. v.items ≡ map (λ x. x.host) places.now) }
{
    Ok(places.iter().map(|place| place.host).collect(alloc)?)
}

/// The load of each host.
pub fn sums_of(places: &[Place], loads: &[u64]) -> [u64; SUMS]
    requires paired { length places.now ≡ length loads.now }
    requires below { All (λ x. x.host.0 < SUMS) places.now }
    requires small { sum loads.now ≤ 2 ^ 60 }
    ensures loads { (h : ℕ) → h < SUMS → slice_index result h ≡ load_on (zip places.now loads.now) h }
    ensures long { length result ≡ SUMS }
{
    let mut sums = [0; SUMS];
    for (i, place) in places.iter().enumerate() {
        sums[place.host.0 as usize] += loads[i];
    }
    sums
}

/// The first host of greatest load.
pub fn heaviest(sums: &[u64; SUMS], hosts: u8) -> Host
    requires { hosts ≤ SUMS }
    ensures { result.0 ≡ first_greatest (slice_index sums.now) hosts }
{
    let mut best = 0u8;
    for host in 0..hosts {
        if sums[best as usize] < sums[host as usize] {
            best = host;
        }
    }
    Host(best)
}

/// The first host of least load.
pub fn lightest(sums: &[u64; SUMS], hosts: u8) -> Host
    requires { hosts ≤ SUMS }
    ensures { result.0 ≡ first_least (slice_index sums.now) hosts }
{
    let mut best = 0u8;
    for host in 0..hosts {
        if sums[host as usize] < sums[best as usize] {
            best = host;
        }
    }
    Host(best)
}

/// A load leaves one host for another.
pub fn shift(sums: &mut [u64; SUMS], from: Host, to: Host, load: u64)
    requires from { from.0 < SUMS }
    requires to { to.0 < SUMS }
    requires some { load ≤ slice_index sums.old from.0 }
    requires room { slice_index sums.old to.0 + load < 2 ^ 64 }
    ensures loads { IsShifted sums.old sums.new from.0 to.0 load }
    ensures long { length sums.new ≡ length sums.old }
{
    sums[from.0 as usize] -= load;
    sums[to.0 as usize] += load;
}
