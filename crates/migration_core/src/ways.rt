//! The way of a mail to a context that may have moved.

ghost use Rattle.std.specs.Prelude.{ℕ, ◌≡◌, List, IsSome, IfSome};
ghost use Rattle.host_map.specs.Stores.{IsAt};
ghost use Rattle.migration_core.specs.Letters.{ask_of, route_of};
ghost use Rattle.migration_core.specs.inner.Finds.{FoundAt};
ghost use Rattle.wave_base.specs.declared.value.Value.{Value};
ghost use Rattle.wave_states.specs.States as theory;
ghost use Rattle.wave_states.specs.Steps.{route};

use crate::mail::{Letter, Mail, Route};
use host_map::{Found, HostStore};
use wave_base::Path;

/// Where an Enter goes that lies at the host with this store.
pub fn route(store: &HostStore, mail: &Mail) -> Route
    requires { IsSome (ask_of mail.now.letter) }
    ensures { (c : theory.Column (List Value)) (host : ℕ) → IsAt store.now mail.now.path c host → IfSome (ask_of mail.now.letter) (λ a. route_of result ≡ route c host a.followed) }
{
    match mail.letter {
        Letter::Enter { followed, .. } => route_at(store, &mail.path, followed),
        _ => unreachable!(),
    }
}

/// Where an Enter for this path goes that lies at the host with this store. `followed` is the number of the last departure mark that
/// it followed, from 1; 0 where none was.
pub fn route_at(store: &HostStore, path: &Path, followed: u64) -> Route
    ensures { (c : theory.Column (List Value)) (host : ℕ) → IsAt store.now path.now c host → route_of result ≡ route c host followed }
{
    route_after(store.find(path), followed)
}

// By what is here, and the mark that was followed.
fn route_after(found: Found, followed: u64) -> Route
    ensures { (c : theory.Column (List Value)) (host : ℕ) → FoundAt found c host → route_of result ≡ route c host followed }
{
    match found {
        Found::Here => Route::Deliver,
        Found::Gone(mark) if followed < mark.number => Route::Forward(mark.to),
        Found::Gone(_) => Route::Wait,
        Found::Unknown if followed == 0 => Route::Born,
        Found::Unknown => Route::Wait,
    }
}
