//! Scripts for the market.

/// A hall moves between two sales, and then two stalls of it are called.
pub const MOVES: &[u8] = b"hosts 2
request buy(1,1,3)
move /Hall[1] to 1
request buy(1,2,4)
request pair(1)
";

/// A hall moves to and fro, with a sale between each two moves.
pub const TO_AND_FRO: &[u8] = b"hosts 2
request buy(1,1,1)
move /Hall[1] to 1
request buy(1,1,1)
move /Hall[1] to 0
request buy(1,1,1)
move /Hall[1] to 1
request buy(1,1,1)
";
