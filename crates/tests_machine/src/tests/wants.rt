//! What the tests ask of a run.

use std::process::Abort;
use wave_base::{Finished, Host, Outcome, Path, Place, Seq, Ticket, Value};
use wave_labels::{Act, Label};

pub(super) fn place(path: Path, host: u8) -> Place {
    let host = Host(host);
    Place { path, host }
}

pub(super) fn reply(number: i64) -> Outcome {
    Outcome::Reply(Value::Int(number))
}

pub(super) fn move_outcome(path: Path, host: u8) -> Outcome {
    Outcome::Moved(path, Host(host))
}

// A run comes to these outcomes, in the order of tickets.
pub(super) fn comes_to(rt: &impl Abort, finished: &Finished, outcomes: &[Outcome]) {
    assert_eq!(rt; finished.results.len(), outcomes.len());
    for (result, outcome) in finished.results.as_slice().iter().zip(outcomes) {
        assert!(rt; result.outcome == *outcome);
    }
}

// Its contexts are at these places.
pub(super) fn places_are(rt: &impl Abort, finished: &Finished, places: &[Place]) {
    assert!(rt; finished.places.as_slice() == places);
}

// Its first event created these tickets.
pub(super) fn first_made(rt: &impl Abort, finished: &Finished, tickets: &[Ticket]) {
    match finished.made.as_slice().first() {
        Some(made) => assert!(rt; made.as_slice() == tickets),
        None => panic!(rt; "no ticket"),
    }
}

// The place of the first label that does this.
fn place_of(rt: &impl Abort, labels: &Seq<Label>, act: &Act) -> usize {
    for (i, label) in labels.as_slice().iter().enumerate() {
        if label.act == *act {
            return i;
        }
    }
    panic!(rt; "no label");
}

// One act comes before another.
pub(super) fn comes_before(rt: &impl Abort, labels: &Seq<Label>, act: &Act, later: &Act) {
    let first = place_of(rt, labels, act);
    let second = place_of(rt, labels, later);
    assert!(rt; first < second);
}
