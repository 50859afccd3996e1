//! Which moves policies ask for.

ghost use Rattle.std.specs.Prelude.{◌≤◌, ◌<◌, length, All};
ghost use Rattle.wave_base.specs.declared.limits.TheConstants.{HOSTS};
ghost use Rattle.wave_base.specs.Scripts.{IsPolicy};

use elastic_policy::plan_moves;
use std::alloc::Global;
use std::test::Fail;
use tests_services::hall;
use wave_base::{EVENT_LINES, Host, Line, OutOfMemory, Place, Policy, Seq};

fn goes(line: Option<&Line>, key: i64, to: u8) -> bool {
    matches!(line, Some(Line::Move(path, host)) if *path == hall(key) && *host == Host(to))
}

// The moves that are asked for of contexts with these hosts and loads, the keys in order from 0.
fn moves_asked(
    alloc: Global,
    rows: &[(u8, u64)],
    hosts: u8,
    policy: &Policy,
) -> Result<Seq<Line>, OutOfMemory>
    requires some_host { 1 ≤ hosts }
    requires few_hosts { hosts ≤ HOSTS }
    requires below { All (λ r. r.0 < hosts) rows.now }
    requires light { All (λ r. r.1 ≤ 9) rows.now }
    requires few { length rows.now ≤ 5000 }
    requires policy { IsPolicy hosts policy.now }
{
    let mut places = Seq::new(alloc);
    let mut loads = Seq::new(alloc);
    for (key, (host, load)) in rows.iter().enumerate() {
        let path = hall(key as i64);
        let host = Host(*host);
        places.add(Place { path, host })?;
        loads.add(*load)?;
    }
    plan_moves(alloc, &places, &loads, hosts, policy)
}

#[test]
fn a_balance_moves_the_first_that_may_go(rt: HostRuntime) -> Result<(), Fail> {
    let six = [(0, 3), (0, 2), (0, 1), (0, 1), (0, 1), (0, 1)];
    let moves = moves_asked(rt.alloc(), &six, 2, &Policy::Balance(2))?;
    assert_eq!(rt; moves.len(), 2);
    assert!(rt; goes(moves.get(0), 0, 1));
    assert!(rt; goes(moves.get(1), 1, 1));
    let moves = moves_asked(rt.alloc(), &six, 2, &Policy::Balance(1))?;
    assert_eq!(rt; moves.len(), 1);
    assert!(rt; goes(moves.get(0), 0, 1));
    Ok(())
}

#[test]
fn a_balance_ends_where_none_may_go(rt: HostRuntime) -> Result<(), Fail> {
    let equal = [(0, 2), (1, 2)];
    let moves = moves_asked(rt.alloc(), &equal, 2, &Policy::Balance(3))?;
    assert!(rt; moves.is_empty());
    let whole = [(0, 5), (1, 0)];
    let moves = moves_asked(rt.alloc(), &whole, 2, &Policy::Balance(3))?;
    assert!(rt; moves.is_empty());
    Ok(())
}

#[test]
fn of_equal_loads_the_first_host_is_taken(rt: HostRuntime) -> Result<(), Fail> {
    let rows = [(2, 3), (1, 3), (2, 2), (1, 2)];
    let moves = moves_asked(rt.alloc(), &rows, 4, &Policy::Balance(1))?;
    assert_eq!(rt; moves.len(), 1);
    assert!(rt; goes(moves.get(0), 1, 0));
    Ok(())
}

#[test]
fn a_drain_moves_all_in_path_order(rt: HostRuntime) -> Result<(), Fail> {
    let rows = [(1, 7), (0, 7), (1, 0)];
    let moves = moves_asked(rt.alloc(), &rows, 3, &Policy::Drain(Host(1), Host(2)))?;
    assert_eq!(rt; moves.len(), 2);
    assert!(rt; goes(moves.get(0), 0, 2));
    assert!(rt; goes(moves.get(1), 2, 2));
    let moves = moves_asked(rt.alloc(), &rows, 3, &Policy::Drain(Host(2), Host(1)))?;
    assert!(rt; moves.is_empty());
    Ok(())
}

#[test]
fn a_drain_has_no_more_lines_than_a_script(rt: HostRuntime) -> Result<(), Fail> {
    let rows = [(0, 1); 4_001];
    let moves = moves_asked(rt.alloc(), &rows, 2, &Policy::Drain(Host(0), Host(1)))?;
    assert_eq!(rt; moves.len(), EVENT_LINES);
    assert!(rt; goes(moves.get(3_999), 3_999, 1));
    Ok(())
}

#[test]
fn a_balance_of_many_contexts(rt: HostRuntime) -> Result<(), Fail> {
    let rows = [(0, 1); 3_000];
    let moves = moves_asked(rt.alloc(), &rows, 8, &Policy::Balance(1))?;
    assert_eq!(rt; moves.len(), 1);
    assert!(rt; goes(moves.get(0), 0, 1));
    Ok(())
}
