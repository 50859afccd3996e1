//! Scripts run by the code of their service and by the evaluator: both come to the same, with all results, traps, trees,
//! places and loads.

use crate::coded_texts;
use std::alloc::Global;
use std::process::Abort;
use std::test::Fail;
use tests_services::{CHAIN, MARKET};
use wave_base::OutOfMemory;

const SALES: &[u8] = b"hosts 2
request buy(1,1,3)
request buy(1,2,4)
snapshot
request buy(1,1,40)
move /Hall[1] to 1
request pair(1)
request same(2)
move /Hall[9] to 1
request buy(3,-1,1)
snapshot
";

const CREATED: &[u8] = b"request two()
request one()
settle
request again()
request two()
";

const LOOP: &[u8] = b"service Loop {
  var n: int = 0;
  var seen: map = empty;
  var top: int = 9223372036854775807;
  context Room[int] {
    var size: int = 0;
    method grow(by: int): int { require by < 15; size = size + by; return size; }
  }
  method all(k: int): int {
    let sum = 0;
    for i in 0 to k { sum = sum + Room[i % 3].grow(i); seen[i] = sum; }
    return sum;
  }
  event sum(k: int): int { here { let s = all(k); n = n + s; } reply s; }
  event spin(): int { here { let i = 0; while true { i = i + 1; } } reply i; }
  event past(): int { here { n = n + 1; top = top + 1; } reply top; }
  event over(k: int): int { here { n = n / k; send \"seen\", seen; } reply n; }
}
";

const SUMS: &[u8] = b"request sum(7)
request spin()
request past()
request over(0)
request over(2)
request sum(20)
snapshot
";

// A service's script comes to so many results, the same by the code and by the evaluator.
fn agrees(
    rt: &impl Abort,
    alloc: Global,
    service: &[u8],
    script: &[u8],
    results: usize,
) -> Result<(), OutOfMemory> {
    let Some(coded) = coded_texts(alloc, service, script) else {
        panic!(rt; "no script of a service");
    };
    let service = &coded.typed.resolved;
    let ran = code_meaning::run_script(alloc, &coded.program, service, &coded.script)?;
    let shape = &coded.program.program().shape;
    let meant = wave_meaning::run_script(alloc, shape, service, &coded.script)?;
    assert_eq!(rt; ran.results.len(), results);
    assert!(rt; ran == meant);
    Ok(())
}

#[test]
fn markets(rt: HostRuntime) -> Result<(), Fail> {
    agrees(&rt, rt.alloc(), MARKET, SALES, 10)?;
    Ok(())
}

#[test]
fn created_calls(rt: HostRuntime) -> Result<(), Fail> {
    agrees(&rt, rt.alloc(), CHAIN, CREATED, 12)?;
    Ok(())
}

#[test]
fn loops_and_traps(rt: HostRuntime) -> Result<(), Fail> {
    agrees(&rt, rt.alloc(), LOOP, SUMS, 7)?;
    Ok(())
}
