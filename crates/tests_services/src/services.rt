//! Services as texts.

/// One event counts its calls.
pub const TICK: &[u8] =
    b"service Tick { var n: int = 0; event hit(): int { here { n = n + 1; } reply n; } }";

/// Halls with stalls: an event goes down to one stall, or calls two of them from their hall.
pub const MARKET: &[u8] = b"service Market {
  var seen: int = 0;
  context Hall[int] {
    var count: int = 0;
    context Stall[int] {
      var stock: int = 10;
      method take(n: int): int { stock = stock - n; return stock; }
    }
    method both(a: int, b: int): int { return Stall[a].take(1) + Stall[b].take(1); }
  }
  event buy(h: int, s: int, n: int): int {
    here { seen = seen + 1; }
    down Hall[h] { count = count + n; }
    down Stall[s] { let left = take(n); send \"till\", Hall.count; }
    reply left;
  }
  event pair(h: int): int { down Hall[h] { let t = both(1, 2); } reply t; }
  event same(h: int): int { down Hall[h] { let t = both(1, 1); } reply t; }
}
";

/// Events that create others.
pub const CHAIN: &[u8] = b"service Chain {
  var n: int = 0;
  event two(): int {
    here { n = n + 1; spawn one(); spawn one(); }
    reply n;
  }
  event one(): int { here { n = n + 10; } reply n; }
  event again() { here { n = n + 1; spawn again(); } }
}
";

/// Events that only look at a hall, once they are there.
pub const LOOK: &[u8] = b"service Look {
  context Hall[int] { var n: int = 5; }
  event see(h: int): int { down Hall[h] { } reply n; }
}
";
