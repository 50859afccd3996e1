//! Which moves a policy asks for.

ghost use Rattle.std.specs.Prelude.{◌≡◌, ◌≤◌, ◌<◌, ◌^◌, length, map, sum, All, IfOk};
ghost use Rattle.std.specs.List.{filter, zip};
ghost use Rattle.script_fold.specs.Lives.{has_load};
ghost use Rattle.std.specs.List.Sorted.{IsStrictlySortedBy};
ghost use Rattle.wave_base.specs.Paths.{path_cmp};
ghost use Rattle.wave_base.specs.Scripts.{IsPolicy};
ghost use Rattle.elastic_policy.specs.Moves.{moves_of, balance};
ghost use Rattle.elastic_policy.specs.inner.Turns.{drained_moves};
ghost use Rattle.elastic_policy.specs.MoveFacts.{FitsScript, IsEven, IsDrained, FollowsInTree};

use crate::sums::{hosts_of, shift, sums_of};
use crate::turn::next_turn;
use std::alloc::Global;
use wave_base::{EVENT_LINES, HOSTS, Host, Line, OutOfMemory, Place, Policy, Seq};

/// The moves that a policy asks for, of contexts in path order with the load of each.
pub fn plan_moves(
    alloc: Global,
    places: &Seq<Place>,
    loads: &Seq<u64>,
    hosts: u8,
    policy: &Policy,
) -> Result<Seq<Line>, OutOfMemory>
    requires paired { length places.now ≡ length loads.now }
    requires ordered { IsStrictlySortedBy path_cmp (map (λ x. x.path) places.now) }
    requires some_host { 1 ≤ hosts }
    requires few_hosts { hosts ≤ HOSTS }
    requires below { All (λ x. x.host.0 < hosts) places.now }
    requires policy { IsPolicy hosts policy.now }
    requires small { sum loads.now ≤ 2 ^ 60 }
    ensures moves { IfOk result (λ ms. ms ≡ moves_of hosts policy.now (zip places.now loads.now)) }
    ensures fits { IfOk result (FitsScript hosts places.now) }
    ensures even { IfOk result (IsEven hosts policy.now (zip places.now loads.now)) }
    ensures drained { IfOk result (IsDrained policy.now (zip places.now loads.now)) }
    ensures places { IfOk result (FollowsInTree (zip places.now loads.now)) }
{
    match *policy {
        Policy::Balance(most) => {
            balance_moves(alloc, places.as_slice(), loads.as_slice(), hosts, most)
        }
        Policy::Drain(from, to) => drain_moves(alloc, places.as_slice(), from, to),
    }
}

// A drain asks for no loads.
fn drain_moves(
    alloc: Global,
    places: &[Place],
    from: Host,
    to: Host,
) -> Result<Seq<Line>, OutOfMemory>
    ensures { IfOk result (λ ms. ms ≡ drained_moves from.0 to.0 places.now) }
{
    let on_host = places.iter().filter(|place| place.host == from);
    let moves = on_host.map(|place| Line::Move(place.path, to));
    Ok(Seq::from_vec(moves.take(EVENT_LINES).collect(alloc)?))
}

// The contexts with a load, each with its own: no other one counts for a balance.
fn loads_of(
    alloc: Global,
    places: &[Place],
    loads: &[u64],
) -> Result<(Vec<Place>, Vec<u64>), OutOfMemory>
    requires { length places.now ≡ length loads.now }
    ensures paired { IfOk result (λ r. length r.0.items ≡ length r.1.items) }
    ensures found { IfOk result (λ r. zip r.0.items r.1.items ≡ filter has_load (zip places.now loads.now)) }
{
    let mut some = Vec::new(alloc);
    let mut its = Vec::new(alloc);
    for (i, place) in places.iter().enumerate() {
        if 0 < loads[i] {
            some.push(*place)?;
            its.push(loads[i])?;
        }
    }
    Ok((some, its))
}

// It looks at the contexts with a load alone, each time.
fn balance_moves(
    alloc: Global,
    places: &[Place],
    loads: &[u64],
    hosts: u8,
    most: u32,
) -> Result<Seq<Line>, OutOfMemory>
    requires paired { length places.now ≡ length loads.now }
    requires ordered { IsStrictlySortedBy path_cmp (map (λ x. x.path) places.now) }
    requires some_host { 1 ≤ hosts }
    requires few_hosts { hosts ≤ HOSTS }
    requires below { All (λ x. x.host.0 < hosts) places.now }
    requires small { sum loads.now ≤ 2 ^ 60 }
    ensures { IfOk result (λ ms. ms ≡ balance hosts most (zip places.now loads.now)) }
{
    let (places, loads) = loads_of(alloc, places, loads)?;
    balance_among(alloc, &places, &loads, hosts, most)
}

// At each move the host of its context is written, and the loads of two hosts.
fn balance_among(
    alloc: Global,
    places: &[Place],
    loads: &[u64],
    hosts: u8,
    most: u32,
) -> Result<Seq<Line>, OutOfMemory>
    requires paired { length places.now ≡ length loads.now }
    requires ordered { IsStrictlySortedBy path_cmp (map (λ x. x.path) places.now) }
    requires some_host { 1 ≤ hosts }
    requires few_hosts { hosts ≤ HOSTS }
    requires below { All (λ x. x.host.0 < hosts) places.now }
    requires small { sum loads.now ≤ 2 ^ 60 }
    ensures { IfOk result (λ ms. ms ≡ balance hosts most (zip places.now loads.now)) }
{
    let mut moves = Seq::new(alloc);
    let mut at = hosts_of(alloc, places)?;
    let mut sums = sums_of(places, loads);
    for _turn in 0..most {
        let Some(turn) = next_turn(&at, loads, &sums, hosts) else {
            return Ok(moves);
        };
        let i = turn.index;
        moves.add(Line::Move(places[i].path, turn.to))?;
        at[i] = turn.to;
        shift(&mut sums, turn.from, turn.to, loads[i]);
    }
    Ok(moves)
}
