//! Services of version 2: what is told of them, their code, and what their scripts come to.

use super::rows::{all_hold, holds, plain, traps, works};
use std::test::Fail;

const TWO: &[u8] = b"service Two 2 {
  event pick(a: int): int {
    here { if a < 0 { finish 0; } }
    reply abs(a);
  }
  event least(a: int): int { reply abs(a); }
}
";

const TWO_PRINTED: &[u8] = b"service Two 2 {
event pick ( a : int ) : int {
here {
if a < 0 {
finish 0 ;
}
}
reply abs ( a ) ;
}
event least ( a : int ) : int {
reply abs ( a ) ;
}
}
";

const TWO_CODE: &[u8] = b"function 0 pick args 1 locals 1 stack 2
0 Load 0 @3:15
1 PushInt 0 @3:19
2 Op lt @3:15
3 JumpFalse 6 @3:12
4 PushInt 0 @3:30
5 Reply @3:23
6 Load 0 @4:15
7 Op abs @4:11
8 Reply @4:5
function 1 least args 1 locals 1 stack 1
0 Load 0 @6:40
1 Op abs @6:36
2 Reply @6:30
";

// Blocks that surely end, in a branch and in a loop: no jump follows them.
const ENDS: &[u8] = b"service Ends 2 {
  method sign(a: int): int { if a < 0 { return -1; } else { return 1; } }
  event first(k: int) { here { for i in 0 to k { finish; } } }
  event last(k: int): int { here { if k > 0 { finish sign(k); } else { finish 0; } } }
}
";

const ENDS_CODE: &[u8] = b"function 0 Ends.sign args 1 locals 1 stack 2
0 Load 0 @2:33
1 PushInt 0 @2:37
2 Op lt @2:33
3 JumpFalse 7 @2:30
4 PushInt 1 @2:49
5 Op neg @2:48
6 Return @2:41
7 PushInt 1 @2:68
8 Return @2:61
function 1 first args 1 locals 4 stack 2
0 PushInt 0 @3:41
1 Store 1 @3:32
2 Load 0 @3:46
3 Store 2 @3:32
4 Load 1 @3:32
5 Load 2 @3:32
6 Op lt @3:32
7 JumpFalse 12 @3:32
8 Tick @3:32
9 Load 1 @3:32
10 Store 3 @3:32
11 End @3:50
12 End @3:3
function 2 last args 1 locals 1 stack 2
0 Load 0 @4:39
1 PushInt 0 @4:43
2 Op gt @4:39
3 JumpFalse 8 @4:36
4 Load 0 @4:59
5 Tick @4:54
6 Call 0 @4:54
7 Reply @4:47
8 PushInt 0 @4:79
9 Reply @4:72
";

const TOUR: &[u8] = b"service Tour 2 {
  var sums: map = empty;
  context A[int] {
    var n: int = 0;
    context B[int] {
      var k: int = 5;
      method first(least: int): int {
        for i in 0 to 9 {
          if i * k > least { k = k + 1; return i; }
        }
        return -1;
      }
      method twice() { if k > 5 { return; } k = 9; }
    }
    method both(b: int): int { let i = B[b].first(12); B[b].twice(); return i; }
  }
  event halt(a: int): int {
    here { sums[a] = 1; send \"here\", sums; spawn look(a); }
    down A[a] {
      for i in 0 to 9 {
        n = n + 1;
        if i > 2 { send \"on the way\", i; finish n; } else { require n < 9; }
      }
    }
    down B[1] { k = 1; }
    reply 100;
  }
  event look(a: int): int { down A[a] { let i = both(1); } down B[1] { } reply 10 * i + k; }
}
";

// An event for each builtin of version 2.
const SIX: &[u8] = b"service Six 2 {
  var m: map = empty;
  event low(a: int, b: int): int { reply min(a, b); }
  event high(a: int, b: int): int { reply max(a, b); }
  event gap(a: int): int { reply abs(a); }
  event put(k: int, v: int) { here { m[k] = v; } }
  event total(): int { reply sum(m); }
  event begins(t: text, u: text): bool { reply starts(t, u); }
  event read(t: text): int { reply num(t); }
}
";

const SIX_ASKED: &[u8] = b"request low(-9223372036854775808, 9223372036854775807)
request high(-9223372036854775808, 9223372036854775807)
request high(7, 7)
request gap(-9223372036854775807)
request gap(-9223372036854775808)
request total()
request put(1, 9223372036854775807)
request put(2, 1)
request total()
request put(3, -1)
request total()
request begins(\"\", \"\")
request begins(\"ab\", \"\")
request begins(\"\", \"a\")
request begins(\"ab\", \"ab\")
request begins(\"ab\", \"abc\")
request begins(\"ab\", \"b\")
request read(\"9223372036854775807\")
request read(\"-9223372036854775808\")
request read(\"9223372036854775808\")
request read(\"-9223372036854775809\")
request read(\"-007\")
request read(\"0000000000000000001\")
request read(\"00000000000000000001\")
request read(\"\")
request read(\"-\")
request read(\"+1\")
request read(\"1 \")
";

const SIX_GIVEN: &[u8] = b"#1 low = -9223372036854775808
#2 high = 9223372036854775807
#3 high = 7
#4 gap = 9223372036854775807
#5 gap trap Overflow at 5:34
#6 total = 0
#7 put ok
#8 put ok
#9 total trap Overflow at 7:30
#10 put ok
#11 total = 9223372036854775807
#12 begins = true
#13 begins = true
#14 begins = false
#15 begins = true
#16 begins = false
#17 begins = false
#18 read = 9223372036854775807
#19 read = -9223372036854775808
#20 read trap Overflow at 9:36
#21 read trap Overflow at 9:36
#22 read = -7
#23 read = 1
#24 read trap Absent at 9:36
#25 read trap Absent at 9:36
#26 read trap Absent at 9:36
#27 read trap Absent at 9:36
#28 read trap Absent at 9:36
done 28
";

/// What is told of a service alone: its number is written where it is 2, and what surely ends has no jump behind it.
#[test]
fn services_of_version_2(rt: HostRuntime) -> Result<(), Fail> {
    let finish = b"service S {\nvar finish : int = 0 ;\n}\n";
    let rows = [
        plain("print", TWO, 0, TWO_PRINTED, b""),
        plain("print", TWO_PRINTED, 0, TWO_PRINTED, b""),
        plain("code", TWO, 0, TWO_CODE, b""),
        plain("code", ENDS, 0, ENDS_CODE, b""),
        plain(
            "print",
            b"service S { var finish: int = 0; }",
            0,
            finish,
            b"",
        ),
        plain(
            "check",
            b"service A 2 { method m(): int { return 1; return 2; } }",
            3,
            b"",
            b"Y10 Unreachable 1:43\n",
        ),
        plain(
            "check",
            b"service A { method m(): int { return 1; return 2; } }",
            3,
            b"",
            b"P1 Expected 1:41\n",
        ),
    ];
    for row in &rows {
        holds(&rt, rt.alloc(), row)?;
    }
    Ok(())
}

/// An event that finishes early answers, and what it sent and spawned stays; a method that returns early goes on in its caller.
#[test]
fn early_ends(rt: HostRuntime) -> Result<(), Fail> {
    let picks = b"request pick(-5)\nrequest pick(5)\nrequest least(-9223372036854775808)\n";
    let picked = b"#1 pick = 0\n#2 pick = 5\n#3 least trap Overflow at 6:36\ndone 3\n";
    let tours = b"request halt(2)\nsettle\nrequest look(2)\nsnapshot\n";
    let toured: &[u8] =
        b"#1 halt = 4\n#1 send \"here\" {2: 1}\n#1 send \"on the way\" 3\n#1 made #2\n#2 look = 36\n#3 look = 37\n#4 snapshot 3\n#4 at / sums={2: 1}\n#4 at /A[2] n=4\n#4 at /A[2]/B[1] k=7\ndone 4\n";
    let cases = [
        traps("seq", TWO, picks, picked),
        traps("run", TWO, picks, picked),
        traps("run --schedule 7", TWO, picks, picked),
        works("seq", TOUR, tours, toured),
        works("run", TOUR, tours, toured),
        works("run --schedule newest --workers 4", TOUR, tours, toured),
    ];
    all_hold(&rt, rt.alloc(), cases.as_slice())
}

/// Each builtin of version 2 at the bounds of ints, at the empty map and text, and at its traps.
#[test]
fn builtins_of_version_2(rt: HostRuntime) -> Result<(), Fail> {
    let cases = [
        traps("seq", SIX, SIX_ASKED, SIX_GIVEN),
        traps("run", SIX, SIX_ASKED, SIX_GIVEN),
    ];
    all_hold(&rt, rt.alloc(), cases.as_slice())
}
