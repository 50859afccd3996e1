//! Events that trap: a row for each way to a trap, with its place; and what an event that traps leaves behind.

use super::{due, has, join, rows_of, sides, without_mark};
use std::alloc::Global;
use std::process::Abort;
use std::test::Fail;
use wave_base::OutOfMemory;
use wave_text::put_number;

const FRONT: &[u8] =
    b"service S { var n: int = 5; var m: map = empty; var t: text = \"0123456789\"; context C[int] { var v: int = 0; method set(k: int): int { v = k; return v; } } method one(): int { return 1; } event e() { ";

const BACK: &[u8] = b" } }\n----\nrequest e()\n";

// The kind that is told, and the phases of an event, where `^` marks the place.
const TRAPS: &[u8] = b"
Overflow: here { n = 1 + ^9223372036854775807 * 2; }
Overflow: here { n = 9223372036854775807; n = ^n + one(); }
Overflow: here { n = 0 - 9223372036854775807 - 1; n = ^-n; }
Overflow: here { n = 0 - 9223372036854775807 - 1; n = 2 * (1 + ^n / (0 - 1)); }
DivZero: here { n = 1 + ^n / 0; }
DivZero: here { require 1 < ^n % (n - 5); }
TooLong: here { for i in 0 to 7 { t = ^t + t; } }
Absent: here { n = 1 + ^m[n]; }
Absent: here { m[1] = 1; n = ^key(m, 1); }
Absent: here { t = t + ^part(t, 5, 11); }
Absent: here { t = t + ^part(t, 2, 1); }
Full: here { for i in 0 to 1001 { ^m[i] = i; } }
Require: here { n = 6; ^require n < 6; }
Ticks: here { ^while true { } }
Ticks: here { ^for i in 0 to 100001 { } }
Ticks: here { for i in 0 to 1 { } while true { n = 1 + ^one(); } }
Sends: here { for i in 0 to 65 { ^send \"m\", i; } }
Spawns: here { for i in 0 to 5 { ^spawn e(); } }
Reach: here { for i in 0 to 256 { n = 1 + ^C[i].set(i); } }
Reach: here { for i in 0 to 255 { C[i].set(i); } } ^down C[255] { }
";

// The part of an event that comes first traps, and what comes later is left out.
const FIRST: &[u8] = b"
Absent: here { n = ^m[0] + 1 / 0; }
Absent: here { n = C[^m[0]].set(1 / 0); }
Absent: here { m[^m[0]] = 1 / 0; }
DivZero: here { C[1].set(^1 / 0); }
DivZero: here { send \"m\", ^1 / 0; }
DivZero: here { for i in ^1 / 0 to m[0] { } }
DivZero: here { } down C[^1 / 0] { v = S.m[0]; }
Require: here { n = 9; ^require false && 1 / 0 == 1 || n < 9; }
Overflow: here { for i in 0 to 3 { n = i; i = 9; require n != 2 || i == 0 - 1 || ^9223372036854775807 + n < 0; } }
";

// What the evaluator gives of a service and a script, one of its events having trapped.
fn gives(rt: &impl Abort, alloc: Global, input: &[u8], listing: &[u8]) -> Result<(), OutOfMemory> {
    let answer = due(rt, alloc, "seq", input)?;
    has(rt, &answer, 1, b"", listing);
    Ok(())
}

fn traps(rt: &impl Abort, alloc: Global, table: &[u8]) -> Result<(), OutOfMemory> {
    for row in rows_of(rt, alloc, table)?.as_slice() {
        let (kind, phases) = sides(row);
        let marked = join(alloc, &[FRONT, phases, BACK])?;
        let (column, input) = without_mark(alloc, marked.as_slice())?;
        let mut listing = join(alloc, &[b"#1 e trap ", kind, b" at 1:"])?;
        put_number(alloc, &mut listing, column)?;
        listing.extend_from_slice(b"\ndone 1\n")?;
        gives(rt, alloc, input.as_slice(), listing.as_slice())?;
    }
    Ok(())
}

#[test]
fn each_trap_is_told_at_its_place(rt: HostRuntime) -> Result<(), Fail> {
    traps(&rt, rt.alloc(), TRAPS)?;
    Ok(())
}

#[test]
fn what_comes_first_traps(rt: HostRuntime) -> Result<(), Fail> {
    traps(&rt, rt.alloc(), FIRST)?;
    Ok(())
}

#[test]
fn generation_4_creates_nothing(rt: HostRuntime) -> Result<(), Fail> {
    let input = b"service S { var n: int = 0; event e() { here { n = n + 1; spawn e(); } } }
----
request e()
snapshot
";
    let listing = b"#1 e ok
#1 made #3
#2 snapshot 1
#2 at / n=1
#3 e ok
#3 made #4
#4 e ok
#4 made #5
#5 e ok
#5 made #6
#6 e trap Generation at 1:59
done 6
";
    gives(&rt, rt.alloc(), input, listing)?;
    Ok(())
}

#[test]
fn changes_stay_and_messages_are_dropped(rt: HostRuntime) -> Result<(), Fail> {
    let input = b"service S {
  var n: int = 0;
  context C[int] {
    var v: int = 2;
    method put(k: int) { v = k; }
  }
  event e() {
    here {
      n = n + 1;
      send \"m\", n;
      spawn e();
      C[7].put(n);
      require n == 2;
      n = 9;
    }
  }
}
----
request e()
snapshot
request e()

snapshot
";
    let listing = b"#1 e trap Require at 13:7
#2 snapshot 2
#2 at / n=1
#2 at /C[7] v=1
#3 e ok
#3 send \"m\" 2
#3 made #5
#4 snapshot 2
#4 at / n=9
#4 at /C[7] v=2
#5 e trap Require at 13:7
done 5
";
    gives(&rt, rt.alloc(), input, listing)?;
    Ok(())
}

#[test]
fn limits_of_an_event(rt: HostRuntime) -> Result<(), Fail> {
    let input = b"service S {
  var m: map = empty;
  var n: int = 0;
  context C[int] {
    var v: int = 0;
    method set() { v = 1; }
  }
  event full(k: int): int {
    here { for i in 0 to k { m[i] = 1; } }
    reply size(m);
  }
  event ticks(k: int): int {
    here { for i in 0 to k { n = n + 1; } }
    reply n;
  }
  event reach(k: int) { here { for i in 0 to k { C[i].set(); } } }
}
----
request full(1000)
request full(1001)
request ticks(100000)
request ticks(100001)
request reach(255)
request reach(256)
";
    let listing = b"#1 full = 1000
#2 full trap Full at 9:30
#3 ticks = 100000
#4 ticks trap Ticks at 13:12
#5 reach ok
#6 reach trap Reach at 16:50
done 6
";
    gives(&rt, rt.alloc(), input, listing)?;
    Ok(())
}
