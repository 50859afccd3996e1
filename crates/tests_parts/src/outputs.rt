//! What an event sends and creates, up to its limits.

use deferred_out::{Outputs, SendError, SpawnError};
use std::alloc::Global;
use std::test::Fail;
use wave_base::{Call, Message, OutOfMemory, Seq, Txt, Value};

fn message(alloc: Global, n: i64) -> Result<Message, OutOfMemory> {
    Ok(Message {
        label: Txt::from_bytes(alloc, b"till")?,
        value: Value::Int(n),
    })
}

fn call(alloc: Global, event: u16) -> Call {
    Call {
        event,
        args: Seq::new(alloc),
        generation: 1,
    }
}

// What outputs promise is read in these three alone, not in each test.
fn send(outputs: &mut Outputs, message: Message) -> Result<(), SendError> {
    outputs.send(message)
}

fn spawn(outputs: &mut Outputs, generation: u8, call: Call) -> Result<(), SpawnError> {
    outputs.spawn(generation, call)
}

// How many messages and calls there are, which are taken.
fn take(outputs: &mut Outputs) -> (usize, usize) {
    let (messages, created) = outputs.take();
    (messages.len(), created.len())
}

#[test]
fn keeps_64_messages(rt: HostRuntime) -> Result<(), Fail> {
    let mut outputs = Outputs::new(rt.alloc());
    for n in 0..64 {
        assert!(rt; send(&mut outputs, message(rt.alloc(), n)?).is_ok());
    }
    let refused = send(&mut outputs, message(rt.alloc(), 64)?);
    assert!(rt; matches!(refused, Err(SendError::Sends(_))));
    assert_eq!(rt; take(&mut outputs), (64, 0));
    Ok(())
}

#[test]
fn keeps_4_calls_of_the_first_generations(rt: HostRuntime) -> Result<(), Fail> {
    let mut outputs = Outputs::new(rt.alloc());
    for event in 0..4 {
        assert!(rt; spawn(&mut outputs, 3, call(rt.alloc(), event)).is_ok());
    }
    let refused = spawn(&mut outputs, 4, call(rt.alloc(), 4));
    assert!(rt; matches!(refused, Err(SpawnError::Generation(_))));
    let refused = spawn(&mut outputs, 3, call(rt.alloc(), 5));
    assert!(rt; matches!(refused, Err(SpawnError::Spawns(_))));
    outputs.discard();
    assert_eq!(rt; take(&mut outputs), (0, 0));
    Ok(())
}
