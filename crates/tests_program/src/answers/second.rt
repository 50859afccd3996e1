//! The same for services of version 2.

/// Whole services.
pub const WHOLE: &[u8] = b"
# Nothing stands behind what surely ends, whatever else is wrong with it.
Y10 Unreachable: service S 2 { method m(): int { return 1; ^return true; } }
Y10 Unreachable: service S 2 { method m() { return; ^nobody(); } }
Y10 Unreachable: service S 2 { method m(a: bool): int { if a { return 1; } else { return 2; } ^return 3; } }
Y10 Unreachable: service S 2 { method m() { while true { if true { return; ^let a = nobody; } } } }
Y10 Unreachable: service S 2 { event e() { here { finish; ^finish 1; } } }
Y10 Unreachable: service S 2 { event e() { here { if true { } else { finish; ^for i in 0 to 1 { } } } } }
Y10 Unreachable: service S 2 { context A[int] { } event e() { here { finish; } ^down B[nobody] { } } }
Y10 Unreachable: service S 2 { context A[int] { context B[int] { } } event e() { down A[1] { finish; } ^down B[1] { nobody(); } } }
Y10 Unreachable: service S 2 { event e(): int { here { finish 1; } ^reply nobody; } }
Y10 Unreachable: service S 2 { event e() { here { finish; } ^reply 1; } }
# `return` stands in methods, and gives what the method gives.
Y3 Mismatch: service S 2 { event e() { here { ^return; } } }
Y3 Mismatch: service S 2 { event e(): int { here { ^return nobody; } } }
Y3 Mismatch: service S 2 { method m() { ^return nobody; } }
Y3 Mismatch: service S 2 { method m(): int { ^return; } }
Y1 UnknownName: service S 2 { method m(): int { return ^nobody; } }
Y3 Mismatch: service S 2 { method m(): int { for i in 0 to 2 { return ^true; } return 1; } }
# `finish` stands in events, and gives what the event gives.
Y3 Mismatch: service S 2 { method m() { ^finish; } }
Y3 Mismatch: service S 2 { method m(): int { ^finish nobody; } }
Y3 Mismatch: service S 2 { event e() { here { ^finish nobody; } } }
Y3 Mismatch: service S 2 { event e(): int { here { ^finish; } } }
Y1 UnknownName: service S 2 { event e(): int { here { finish ^nobody; } } }
Y3 Mismatch: service S 2 { context A[int] { } event e(): text { down A[1] { finish ^1; } } }
# A method or an event with a type surely ends, an event by its last phase, or it has a `reply`.
Y7 MissingReply: service S 2 { method ^m(): int { } }
Y7 MissingReply: service S 2 { method ^m(a: bool): int { if a { return 1; } } }
Y7 MissingReply: service S 2 { method ^m(a: bool): int { if a { return 1; } else { } } }
Y7 MissingReply: service S 2 { method ^m(): int { while true { return 1; } } }
Y7 MissingReply: service S 2 { event ^e(): int { here { if true { finish 1; } } } }
Y7 MissingReply: service S 2 { context A[int] { } event ^e(): int { here { if true { finish 1; } } down A[1] { } } }
Y3 Mismatch: service S 2 { event e() { here { if true { finish; } } ^reply nobody; } }
Y3 Mismatch: service S 2 { event e(): int { here { if true { finish 1; } } reply ^true; } }
# The builtins of version 2, whose names are taken.
Y2 Duplicate: service S 2 { method ^num() { } }
Y4 ArgCount: service S 2 { method m(): int { return ^min(1); } }
Y3 Mismatch: service S 2 { method m(): int { return sum(^1); } }
Y3 Mismatch: service S 2 { method m(): int { return ^starts(\"a\", \"b\"); } }
# Words, by the number of the version.
P1 Expected: service S { method m(): int { return 1; ^return 2; } }
P1 Expected: service S { event e() { here { finish^; } } }
P1 Expected: service S 2 { var ^finish: int = 0; }
P1 Expected: service S 2 { event e() { here { finish ^= 1; } } }
P1 Expected: service S ^3 { }
";

/// Services that are typed.
pub const FINE: &[u8] = b"
service finish 2 { event e(): int { here { finish 1; } } }
service S 2 { method m(): int { for i in 0 to 3 { if i > 1 { return i; } } return 0; } method v() { return; } }
service S 2 { method m(a: int): int { if a < 0 { return -1; } else { if a > 0 { return 1; } else { return 0; } } } }
service S 2 { context A[int] { } event e(): int { here { if true { finish 2; } } down A[1] { finish 1; } } }
service S 2 { method k(m: int): bool { return starts(str(num(\"1\")), \"1\"); } event e(m: int) { here { let a = min(max(m, 1), abs(m)); } } }
service S { method num() { } method sum(): int { return 1; } event finish() { here { num(); } } }
";
