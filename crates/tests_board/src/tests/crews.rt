//! What workers leave for each other.

use std::test::Fail;
use wave_base::Worker;
use wave_board::{Crew, Seat};

#[test]
fn a_crew_tells_who_naps(rt: HostRuntime) -> Result<(), Fail> {
    let mut crew = Crew::nobody(false);
    assert_eq!(rt; crew.other(Worker(0), Seat::Napping), None);
    crew.place(Worker(0), Seat::Awake);
    crew.place(Worker(2), Seat::Napping);
    assert_eq!(rt; crew.other(Worker(0), Seat::Awake), None);
    assert_eq!(rt; crew.other(Worker(0), Seat::Napping), Some(Worker(2)));
    assert_eq!(rt; crew.other(Worker(2), Seat::Awake), Some(Worker(0)));
    assert_eq!(rt; crew.seat(Worker(1)), Seat::Away);
    Ok(())
}

// Where they may be heavy the first segments count as such, and then those are that take 256 ticks.
#[test]
fn a_crew_tells_how_heavy_segments_are(rt: HostRuntime) -> Result<(), Fail> {
    let mut crew = Crew::nobody(true);
    let mut segments = 0u32;
    for number in 1..100u32 {
        if crew.is_heavy() {
            segments = number;
            crew.note(9);
        }
    }
    assert!(rt; segments > 15 && segments < 25);
    crew.note(2048);
    assert!(rt; crew.is_heavy());
    Ok(())
}

// Where they can't be, segments are light until one was not.
#[test]
fn short_segments_are_light(rt: HostRuntime) -> Result<(), Fail> {
    let mut crew = Crew::nobody(false);
    assert!(rt; !crew.is_heavy());
    crew.note(255);
    assert!(rt; !crew.is_heavy());
    crew.note(2048);
    assert!(rt; crew.is_heavy());
    Ok(())
}
