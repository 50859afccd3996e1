// What lends the value has a file of its own: its clauses name the rows of `Guard`, `Pass` and `Held`, which the files that declare these cannot import.
ghost use Rattle.std.specs.Prelude.{◌≡◌, [], Some, IsSome};
ghost use mir.Syntax.{named};
ghost use types.Logic.{sem};
ghost use denote.Follow.{follows};
ghost use Rattle.std.specs.Option.Follows.{option_follows_value};
ghost use Rattle.kept_lock.specs.contracts.guard.Guard.{the_row};
ghost use Rattle.kept_lock.specs.contracts.held.Held.{the_row as held_row};
ghost use Rattle.kept_lock.specs.contracts.lock.Pass.{the_row as pass_row};
ghost use Rattle.kept_lock.specs.Locks.{value_of, IsInside};
ghost use Rattle.kept_lock.specs.Guards.{lock_in, pass_in, value_in, guard_with, pass_with};

use crate::guard::Guard;
use crate::held::Held;
use crate::kept::Kept;
use crate::lock::Pass;

fn some_mut<T>(o: &mut Option<T>) -> &mut T
    requires { IsSome o.old }
    ensures* writes_back { sem 𝓛 (option_follows_value T.row o.entry result) }
    ensures value { o.old ≡ Some result.now }
{
    match o {
        Some(x) => x,
        None => unreachable!(),
    }
}

impl<V> Held<V> {
    fn value_mut(&mut self) -> &mut V
        ensures* writes_back { sem 𝓛 (follows (held_row V.row) V.row self.entry.ghost_name result.ghost_name (λ w. w)) }
        ensures value { result.now ≡ self.old }
    {
        self.boxed.as_mut()
    }
}

impl<V: Kept> Pass<V> {
    fn value_mut(&mut self) -> &mut V
        requires { IsSome (value_of self.old) }
        ensures* writes_back { sem 𝓛 (follows (pass_row V.row V.Name.row V.Entry.row) V.row self.entry.ghost_name result.ghost_name (pass_with self.old)) }
        ensures value { value_of self.old ≡ Some result.now }
    {
        some_mut(&mut self.out).value_mut()
    }
}

impl<'a, V: Kept> Guard<'a, V> {
    /// The value. When the borrow ends, the guard has what was written through it.
    pub fn get_mut(&mut self) -> &mut V
        requires { IsInside (lock_in self.old) (pass_in self.old) }
        ensures* writes_back { sem 𝓛 (follows (the_row (record { mir = named 1; lft = [] }) V.row V.Name.row V.Entry.row V.Kept) V.row self.entry.ghost_name result.ghost_name (guard_with self.old)) }
        ensures value { value_in self.old ≡ Some result.now }
    {
        self.pass.value_mut()
    }
}
