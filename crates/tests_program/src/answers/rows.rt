//! Tables for what is asked of a service: a row a line, with the note of the fault, and the text that has it, where `^` marks the place that is told.

/// Whole services.
pub const WHOLE: &[u8] = b"
Y2 Duplicate: service S { context ^S[int] { } }
Y2 Duplicate: service S { context A[int] { } context B[int] { context ^A[int] { } } }
Y2 Duplicate: service S { var a: int = 0; var ^a: text = 1; }
Y3 Mismatch: service S { var a: int = ^\"x\"; }
Y3 Mismatch: service S { var a: map = ^-1; }
Y3 Mismatch: service S { var a: int = ^empty; }
Y2 Duplicate: service S { method a() { } method ^a() { } }
Y2 Duplicate: service S { method ^size() { } }
Y2 Duplicate: service S { method a(b: int, ^b: int) { } }
Y2 Duplicate: service S { event a() { } event ^a(b: map) { } }
Y3 Mismatch: service S { event a(b: int, ^c: map) { } }
Y2 Duplicate: service S { event a(b: int, ^b: map) { } }
Y6 CalleeLater: service S { method a() { ^a(); } }
Y6 CalleeLater: service S { method a() { ^b(nobody); } method b() { } }
Y7 MissingReply: service S { method ^a(): int { } }
Y7 MissingReply: service S { event ^a(): int { here { } } }
Y3 Mismatch: service S { event a() { ^reply nobody; } }
Y3 Mismatch: service S { method a() { ^return nobody; } }
Y3 Mismatch: service S { event a(): int { reply ^true; } }
Y3 Mismatch: service S { method a(): map { return ^1; } }
Y1 UnknownName: service S { method a() { ^min(1, 2); } }
";

/// Bodies of a method two classes below the root.
pub const BELOW: &[u8] = b"
Y5 NotDownward: return ^B.g[1];
Y1 UnknownName: return 1 + ^S.q;
Y1 UnknownName: return ^S.q[nobody];
Y3 Mismatch: g[^true] = nobody; return 1;
Y3 Mismatch: g[1] = ^\"x\"; return 1;
Y3 Mismatch: g = ^1; return 1;
Y3 Mismatch: drop g[^\"x\"]; return 1;
Y5 NotDownward: ^S.r = nobody; return 1;
Y5 NotDownward: ^S.r[nobody] = nobody; return 1;
Y5 NotDownward: ^drop S.r[nobody]; return 1;
Y1 UnknownName: ^drop Z.r[nobody]; return 1;
Y3 Mismatch: return ^g[true];
Y1 UnknownName: return ^x1[nobody];
";

/// Bodies of a method of the class between.
pub const OWN: &[u8] = b"
Y1 UnknownName: ^k(1, \"x\");
Y4 ArgCount: ^B[1].m();
Y3 Mismatch: B[1].m(^\"x\");
";

/// The root's part of an event.
pub const HERE: &[u8] = b"
Y1 UnknownName: let p = ^q;
Y2 Duplicate: let ^p = 1;
Y2 Duplicate: let z = 1; if true { let ^z = 2; }
Y1 UnknownName: if true { let z = 1; } r = ^z;
Y1 UnknownName: for z in 0 to 1 { } r = ^z;
Y2 Duplicate: for i in 0 to 1 { for ^i in 0 to 1 { } }
Y1 UnknownName: r = ^f;
Y1 UnknownName: r = 1 + ^g;
Y1 UnknownName: r = ^Z.r;
Y5 NotDownward: r = ^S.r;
Y5 NotDownward: r = ^A.f;
Y1 UnknownName: ^q = nobody;
Y3 Mismatch: ^r[nobody] = nobody;
Y3 Mismatch: r = ^true;
Y3 Mismatch: ^drop r[1];
Y1 UnknownName: ^Z.r = nobody;
Y5 NotDownward: ^S.r = 1;
Y1 UnknownName: ^z(nobody);
Y4 ArgCount: ^k(1);
Y4 ArgCount: ^k(nobody);
Y3 Mismatch: k(1, ^2);
Y1 UnknownName: k(1, ^nobody);
Y4 ArgCount: r = 1 + ^size(empty, 1);
Y3 Mismatch: r = 1 + size(^1);
Y3 Mismatch: r = len(part(\"x\", 1, ^true));
Y3 Mismatch: r = ^has(empty, 1);
Y1 UnknownName: ^Z[nobody].m(1);
Y5 NotDownward: ^B[nobody].m(1);
Y5 NotDownward: ^S[nobody].k(1);
Y3 Mismatch: A[^true].q();
Y1 UnknownName: ^A[1].q(nobody);
Y3 Mismatch: r = ^1 + true;
Y3 Mismatch: r = 2 * (^\"x\" - 1);
Y3 Mismatch: if ^1 && true { }
Y3 Mismatch: if true || ^\"x\" <= \"y\" { }
Y3 Mismatch: if ^empty == empty { }
Y3 Mismatch: r = ^-\"x\";
Y3 Mismatch: r = ^!1;
Y3 Mismatch: r = ^p[1];
Y3 Mismatch: let z = ^u();
Y3 Mismatch: r = 1 + ^u();
Y3 Mismatch: send \"x\", ^A[1].n();
Y3 Mismatch: if ^1 { nobody(); }
Y3 Mismatch: while ^\"x\" { nobody(); }
Y3 Mismatch: for z in ^true to nobody { }
Y3 Mismatch: for p in 0 to ^true { }
Y2 Duplicate: for ^p in 0 to 1 { }
Y1 UnknownName: ^spawn nobody(nobody);
Y4 ArgCount: ^spawn e(nobody);
Y3 Mismatch: spawn e(1, ^1);
Y3 Mismatch: ^require 1;
";

/// What follows it.
pub const REST: &[u8] = b"
Y2 Duplicate: down A[1] { let z = 1; } down B[1] { let ^z = 1; } reply 1;
Y1 UnknownName: ^down Z[nobody] { } reply 1;
Y5 NotDownward: ^down B[nobody] { } reply 1;
Y5 NotDownward: down A[1] { } ^down A[1] { } reply 1;
Y3 Mismatch: down A[^true] { } reply 1;
Y1 UnknownName: down A[^f] { } reply 1;
Y1 UnknownName: reply ^f;
";

/// Services that are typed.
pub const FINE: &[u8] = b"
service S { method min() { } method finish() { } event finish() { here { finish(); } } }
service S { var size: map = empty; event e(size1: int): int { here { let len = size(size); } reply len; } }
service S { event e() { here { if true { let z = 1; } let z = true; if z { } } } }
service S { event e(): map { here { send \"x\", empty; } reply empty; } }
";
