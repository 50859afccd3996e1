//! The top call: what the words ask for is done, and its status answered. Statuses and notes are those of `docs/FORMATS.md`.

ghost use Rattle.std.specs.Prelude.{◌≡◌, ◌⊎◌, true, None, Some, IfErr, IfOk, IfSome};
ghost use Rattle.eventwave.specs.Ends.{Ends, NoWords, change, crewed_by};
ghost use Rattle.eventwave.specs.inner.Parts.{Did, Responded, IsUndone};

use crate::alone::perform;
use crate::ending::Ending;
use crate::giving::finish;
use crate::response::Response;
use crate::team::Team;
use crate::together::perform_together;
use command_words::command_of;
use std::alloc::Global;
use std::sync::Wait;
use std::thread::Threads;
use wave_base::{OutOfMemory, Words};
use wave_io::{Gate, Sink, Source};

// Reads the words, and does what they ask for on this thread, unless it is for workers to do.
fn respond<S: Source, K: Sink>(alloc: Global, words: &Words, input: &mut S, out: &mut K) -> Response
    ensures did { Responded words.now (change (S.faults input.old) (S.faults input.new) (S.left input.old) (S.left input.new)) (change (K.faults out.old) (K.faults out.new) (K.written out.old) (K.written out.new)) result }
    ensures unread { crewed_by words.now ≡ true → input.new ≡ input.old }
    ensures unwritten { crewed_by words.now ≡ true → out.new ≡ out.old }
    ensures undone { crewed_by words.now ≡ true → IsUndone result }
{
    match command_of(alloc, words) {
        Ok(Some(command)) => {
            if command.runs_workers() {
                Response::Crewed(command)
            } else {
                Response::Done(perform(alloc, command, input, out))
            }
        }
        Ok(None) => Response::Done(Ending::WordsRefused),
        Err(refused) => Response::Done(Ending::NoMemory(refused)),
    }
}

// Reads the words, and does what they ask for.
fn respond_all<R: Threads + Wait + Sync, S: Source, K: Sink + Send, G: Gate + Sync>(
    rt: &R,
    alloc: Global,
    words: &Words,
    input: &mut S,
    out: &mut K,
    gate: &G,
) -> Ending
    ensures { Did words.now (change (S.faults input.old) (S.faults input.new) (S.left input.old) (S.left input.new)) (change (K.faults out.old) (K.faults out.new) (K.written out.old) (K.written out.new)) result }
{
    match respond(alloc, words, input, out) {
        Response::Done(ending) => ending,
        Response::Crewed(command) => {
            perform_together(&Team { rt, alloc, gate }, command, input, out)
        }
    }
}

/// Does what the words ask for on this thread, and answers the status. There is none exactly where it is for workers to do (or 7), and then
/// nothing was done. It always returns.
pub fn eventwave_alone<S: Source, K: Sink, N: Sink>(
    alloc: Global,
    words: &Words,
    input: &mut S,
    out: &mut K,
    notes: &mut N,
) -> Option<u8>
    ensures ends { IfSome result (Ends words.now (change (S.faults input.old) (S.faults input.new) (S.left input.old) (S.left input.new)) (change (K.faults out.old) (K.faults out.new) (K.written out.old) (K.written out.new)) (change (N.faults notes.old) (N.faults notes.new) (N.written notes.old) (N.written notes.new))) }

    // None exactly for those that workers run, unless the words found no memory; and then nothing was read or written.
    ensures none { result ≡ None → crewed_by words.now ≡ true }
    ensures crewed { crewed_by words.now ≡ true → (result ≡ None) ⊎ (result ≡ Some 7) }
    ensures unread { crewed_by words.now ≡ true → input.new ≡ input.old }
    ensures unwritten { crewed_by words.now ≡ true → out.new ≡ out.old }
    ensures untold { result ≡ None → notes.new ≡ notes.old }
{
    match respond(alloc, words, input, out) {
        Response::Done(ending) => Some(finish(notes, &ending)),
        Response::Crewed(_) => None,
    }
}

/// Does what the words ask for, and answers the status. `run` and `trace` without a schedule and `load` are run by workers, each in a
/// thread of its own where one can be made; all else is done on this thread.
pub fn eventwave<R: Threads + Wait + Sync, S: Source, K: Sink + Send, N: Sink, G: Gate + Sync>(
    rt: &R,
    alloc: Global,
    words: &Words,
    input: &mut S,
    out: &mut K,
    notes: &mut N,
    gate: &G,
) -> u8
    ensures { Ends words.now (change (S.faults input.old) (S.faults input.new) (S.left input.old) (S.left input.new)) (change (K.faults out.old) (K.faults out.new) (K.written out.old) (K.written out.new)) (change (N.faults notes.old) (N.faults notes.new) (N.written notes.old) (N.written notes.new)) result }
{
    let ending = respond_all(rt, alloc, words, input, out, gate);
    finish(notes, &ending)
}

/// The same for words that may have found no memory, and then that is told, and nothing else is done.
pub fn start<R: Threads + Wait + Sync, S: Source, K: Sink + Send, N: Sink, G: Gate + Sync>(
    rt: &R,
    alloc: Global,
    words: Result<Words, OutOfMemory>,
    input: &mut S,
    out: &mut K,
    notes: &mut N,
    gate: &G,
) -> u8
    ensures no_memory { IfErr words (λ _. NoWords (change (S.faults input.old) (S.faults input.new) (S.left input.old) (S.left input.new)) (change (K.faults out.old) (K.faults out.new) (K.written out.old) (K.written out.new)) (change (N.faults notes.old) (N.faults notes.new) (N.written notes.old) (N.written notes.new)) result) }
    ensures ends { IfOk words (λ w. Ends w (change (S.faults input.old) (S.faults input.new) (S.left input.old) (S.left input.new)) (change (K.faults out.old) (K.faults out.new) (K.written out.old) (K.written out.new)) (change (N.faults notes.old) (N.faults notes.new) (N.written notes.old) (N.written notes.new)) result) }
{
    match words {
        Ok(words) => eventwave(rt, alloc, &words, input, out, notes, gate),
        Err(refused) => finish(notes, &Ending::NoMemory(refused)),
    }
}
