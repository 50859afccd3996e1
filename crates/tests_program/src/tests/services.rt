//! The services of the tests.

/// One counter, with one request.
pub const TICK: &[u8] =
    b"service Tick { var n: int = 0; event hit(): int { here { n = n + 1; } reply n; } }\n----\nrequest hit()\n";

/// A hall whose number is at the end of its range, so that one more traps.
pub const EDGE: &[u8] = b"service Edge {
  var seen: int = 0;
  context Hall[int] {
    var top: int = 9223372036854775807;
  }
  event bump(h: int): int {
    here { seen = seen + 1; send \"first\", seen; }
    down Hall[h] { top = top + 1; }
    reply top;
  }
}
";

/// A loop of so many turns.
pub const LOOP: &[u8] = b"service Loop {
  event turns(k: int): int {
    here { let s = 0; for i in 0 to k { s = s + i; } }
    reply s;
  }
}
";

/// Division and remainder.
pub const CALC: &[u8] = b"service Calc {
  event div(a: int, b: int): int { reply a / b; }
  event rem(a: int, b: int): int { reply a % b; }
}
";

/// An event that enters so many contexts.
pub const WIDE: &[u8] = b"service Wide {
  context Cell[int] {
    var v: int = 0;
    method set() { v = 1; }
  }
  event fill(k: int) { here { for i in 0 to k { Cell[i].set(); } } }
}
";

/// A hundred thousand turns of ten statements.
pub const LONG: &[u8] = b"service Long {
  event turns(k: int): int {
    here {
      let s = 0;
      for i in 0 to k {
        s = s + 1; s = s + 1; s = s + 1; s = s + 1; s = s + 1;
        s = s + 1; s = s + 1; s = s + 1; s = s + 1; s = s + 1;
      }
    }
    reply s;
  }
}
";

/// A value of each kind is sent.
pub const SENDS: &[u8] = b"service Sends {
  var m: map = empty;
  event all() {
    here { m[2] = 6; m[1] = 5; send \"n\", -1; send \"b\", true; send \"t\", \"a \\\"b\\\"\"; send \"m\", m; }
  }
}
";

/// Every form that a service has.
pub const FORMS: &[u8] =
    b"service S { var a: int = -1; var t: text = \"x\"; var b: bool = true; var m: map = empty;
  context C[int] { var n: int = 0; context D[int] { } method g(x: int): int { n = n + x; return n; } }
  method f(x: int, y: text): int {
    if x < 1 && !b { a = 0; } else { while x > 0 { x = x - 1; } }
    for i in 0 to 3 { m[i] = -i; } require x >= 0 || b; send \"l\", y; spawn e(1); drop m[1]; C[2].g(a); return x;
  }
  event e(k: int): int {
    here { let z = (1 + 2) * 3; C[z].g(k); a = m[1] % 2; }
    down C[k] { n = S.a; }
    reply n + S.a;
  }
}
";

/// The same in canonical layout.
pub const FORMS_PRINTED: &[u8] = b"service S {
var a : int = - 1 ;
var t : text = \"x\" ;
var b : bool = true ;
var m : map = empty ;
context C [ int ] {
var n : int = 0 ;
context D [ int ] {
}
method g ( x : int ) : int {
n = n + x ;
return n ;
}
}
method f ( x : int , y : text ) : int {
if x < 1 && ! b {
a = 0 ;
}
else {
while x > 0 {
x = x - 1 ;
}
}
for i in 0 to 3 {
m [ i ] = - i ;
}
require x >= 0 || b ;
send \"l\" , y ;
spawn e ( 1 ) ;
drop m [ 1 ] ;
C [ 2 ] . g ( a ) ;
return x ;
}
event e ( k : int ) : int {
here {
let z = ( 1 + 2 ) * 3 ;
C [ z ] . g ( k ) ;
a = m [ 1 ] % 2 ;
}
down C [ k ] {
n = S . a ;
}
reply n + S . a ;
}
}
";
