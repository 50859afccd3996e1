//! A log gives back the labels that were written into it.

use label_log::{LabelLog, Recorder, path_in};
use std::test::Fail;
use tests_services::{hall, label, mail};
use wave_base::{Host, Path, Ticket};
use wave_labels::*;

// Labels of each kind, some of them of a path that an earlier one has.
fn labels() -> [Label; 12] {
    let root = Path::root();
    let first = hall(-3);
    let second = hall(4);
    [
        label(0, 0, Act::Admit(Ticket(1))),
        label(1, 0, Act::Queue(mail(1, 1), root)),
        label(1, 0, Act::Grant(Ticket(1), root)),
        label(1, 7, Act::Queue(mail(1, 2), first)),
        label(2, 0, Act::Start(Ticket(u32::MAX), second)),
        label(2, 3, Act::Stop(Ticket(5), root)),
        label(0, 3, Act::Pass(mail(4_000_000_000, 9), second, Host(2))),
        label(0, 2, Act::Land(mail(5, u32::MAX), first)),
        label(15, 2, Act::Visit(mail(5, 11), second)),
        label(15, 2, Act::Free(mail(5, 12), second)),
        label(15, 0, Act::Commit(Ticket(5))),
        label(0, 1, Act::Grant(Ticket(6), first)),
    ]
}

#[test]
fn pushed_labels_come_back(rt: HostRuntime) -> Result<(), Fail> {
    let labels = labels();
    let mut log = LabelLog::new(rt.alloc());
    assert!(rt; log.is_empty());
    for label in labels.iter() {
        log.push(label)?;
    }
    assert_eq!(rt; log.len(), 12);
    assert!(rt; !log.is_empty());
    for i in 0..log.len() {
        assert!(rt; labels.as_slice().get(i) == Some(&log.label_at(i)));
    }
    Ok(())
}

#[test]
fn recorded_labels_come_back(rt: HostRuntime) -> Result<(), Fail> {
    let labels = labels();
    let root = Path::root();
    let mut recorder = Recorder::new(rt.alloc());
    for label in labels.iter() {
        recorder.reserve(path_in(&label.act, &root))?;
        recorder.push_reserved(label);
    }
    assert_eq!(rt; recorder.len(), 12);
    let log = recorder.into_log();
    for i in 0..log.len() {
        assert!(rt; labels.as_slice().get(i) == Some(&log.label_at(i)));
    }
    Ok(())
}

fn granted(key: i64) -> Label {
    label(0, 0, Act::Grant(Ticket(7), hall(key)))
}

// Each path is looked for first under the number of the other one that shares its guess.
#[test]
fn paths_that_share_a_guess_are_told_apart(rt: HostRuntime) -> Result<(), Fail> {
    let keys = [3, -3, 3, -3, 1, 33, 1, 33, -3, 33, 3, 1];
    let mut log = LabelLog::new(rt.alloc());
    for key in keys {
        log.push(&granted(key))?;
    }
    assert_eq!(rt; log.len(), 12);
    for i in 0..log.len() {
        match keys.as_slice().get(i) {
            Some(key) => assert!(rt; log.label_at(i) == granted(*key)),
            None => assert!(rt; false),
        }
    }
    Ok(())
}
