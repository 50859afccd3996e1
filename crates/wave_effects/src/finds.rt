//! What is read off an entry, a mail or a mark.

ghost use Rattle.std.specs.Prelude.{◌≡◌, Some, IsSome, is_some, option_copied, option_map, true};
ghost use Rattle.code_actor.specs.CodeActors.{Fields};
ghost use Rattle.context_queue.specs.Entries.{StandsFor, next_in};
ghost use Rattle.wave_states.specs.States as theory;
ghost use Rattle.wave_effects.specs.Keeping.{entry_in};
ghost use Rattle.wave_effects.specs.inner.Asks.{asked_in, number_in};

use context_queue::Entry;
use event_cells::Envelope;
use host_map::Found;
use migration_core::Letter;

// Whether the next in line, where one gets in, only looks.
pub(crate) fn next_peeks(entry: &Entry) -> bool
    ensures { (en : theory.Entry Fields) (claim : theory.Claim) → StandsFor entry.now en → next_in en ≡ Some claim → result ≡ claim.peek }
{
    match entry.upcoming() {
        Some(claim) => claim.peek,
        None => false,
    }
}

// The entry that a Transfer carries.
pub(crate) fn entry_in(mail: Option<Envelope>) -> Entry
    requires { is_some (entry_in mail) ≡ true }
    ensures { entry_in mail ≡ Some result }
{
    match mail {
        Some(
            Envelope {
                to: _,
                path: _,
                letter: Letter::Transfer(entry),
            },
        ) => entry,
        _ => unreachable!(),
    }
}

// The entry number of an Enter, and whether it only looks.
pub(crate) fn asked_in(mail: Option<&Envelope>) -> (u64, bool)
    requires { IsSome (asked_in (option_copied mail)) }
    ensures number { option_map (λ a. a.number) (asked_in (option_copied mail.entry)) ≡ Some result.0 }
    ensures peek { option_map (λ a. a.peek) (asked_in (option_copied mail.entry)) ≡ Some result.1 }
{
    match mail.unwrap().letter {
        Letter::Enter { number, peek, .. } => (number, peek),
        _ => unreachable!(),
    }
}

// The number of the mark that was found.
pub(crate) fn number_in(found: Found) -> u64
    requires { IsSome (number_in found) }
    ensures { number_in found ≡ Some result }
{
    match found {
        Found::Gone(mark) => mark.number,
        _ => unreachable!(),
    }
}
