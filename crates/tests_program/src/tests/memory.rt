//! Want of memory.

use super::crews::MOVED;
use super::rows::{join, ran_on};
use std::test::Fail;
use tests_services::{MARKET, MOVES};
use wave_io::OpenGate;

/// All is done, or memory was wanted and a front stands there: under `--fail-alloc` each request in turn is refused.
#[test]
fn memory_is_wanted(rt: HostRuntime) -> Result<(), Fail> {
    let alloc = rt.alloc();
    for words in ["run --map --workers 2", "trace --map --workers 2"] {
        let Ok(input) = join(alloc, MARKET, MOVES) else {
            return Ok(());
        };
        let Ok((status, out)) = ran_on(&rt, alloc, words, input.as_slice(), &OpenGate) else {
            return Ok(());
        };
        let written = out.bytes();
        if status == 7 {
            assert!(rt; MOVED.starts_with(written) || written.starts_with(MOVED));
        } else {
            assert_eq!(rt; status, 0);
            assert!(rt; written.starts_with(MOVED));
        }
    }
    Ok(())
}
