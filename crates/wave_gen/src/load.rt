//! A generated load.

ghost use Rattle.std.specs.Prelude.{◌≡◌, ◌++◌, IfOk, OnOk};
ghost use Rattle.wave_gen.specs.Load.{drawn_text, load_text, market};

use crate::line::Line;
use std::alloc::Global;
use wave_base::{Draws, OutOfMemory, Seq};
use wave_text::put_bytes;

/// How many lines are drawn.
const LINES: u32 = 2_300;

// The service of the load.
const MARKET: &[u8] = b"service Market {
  var seen: int = 0;
  context Hall[int] {
    var count: int = 0;
    context Stall[int] {
      var stock: int = 10;
      method take(n: int): int { stock = stock - n; return stock; }
    }
    method both(a: int, b: int): int { return Stall[a].take(1) + Stall[b].take(1); }
  }
  event buy(h: int, s: int, n: int): int {
    here { seen = seen + 1; }
    down Hall[h] { count = count + n; }
    down Stall[s] { let left = take(n); send \"till\", Hall.count; }
    reply left;
  }
  event pair(h: int): int { down Hall[h] { let t = both(1, 2); } reply t; }
  event same(h: int): int { down Hall[h] { let t = both(1, 1); } reply t; }
}
";

// Appends so many lines, drawn one after the other.
fn put_lines(
    alloc: Global,
    out: &mut Vec<u8>,
    draws: &mut Draws,
    count: u32,
) -> Result<(), OutOfMemory>
    ensures { OnOk result (out.new.items ≡ out.old.items ++ drawn_text count draws.old.state) }
{
    for _ in 0..count {
        Line::draw(draws).put(alloc, out)?;
    }
    Ok(())
}

// Appends the service.
fn put_market(out: &mut Vec<u8>) -> Result<(), OutOfMemory>
    ensures { OnOk result (out.new.items ≡ out.old.items ++ market) }
{
    put_bytes(out, MARKET)
}

/// The generated load of number n: a service, a `----` line, and a script of hosts, events and moves.
pub fn generate(alloc: Global, n: u64) -> Result<Seq<u8>, OutOfMemory>
    ensures { IfOk result (λ text. text ≡ load_text n) }
{
    let mut text = Vec::new(alloc);
    put_market(&mut text)?;
    put_bytes(&mut text, b"----\nhosts 4\n")?;
    put_lines(alloc, &mut text, &mut Draws { state: n }, LINES)?;
    put_bytes(&mut text, b"snapshot\n")?;
    Ok(Seq::from_vec(text))
}
