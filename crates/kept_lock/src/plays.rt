// The rule of the table, and the kinds of step that a pass takes on it.
// The value is moved out of the slot and into it between the claim and the release, which are no steps of the word.
ghost use Rattle.kept_lock.specs.Rule.{first_view, spent_view, Keeps};
ghost use Rattle.kept_lock.specs.Plays.{split_left, split_right, told_of, Claimed, Released, Closes, Heard};

use crate::held::Held;
use crate::kept::Kept;
use crate::view::View;
use atomic_table::{Join, Play, Split, TableRule};
use std::marker::PhantomData;

/// The rule of the table.
pub struct Keeping<V> {
    marker: PhantomData<V>,
}

impl<V: Kept> TableRule<Option<Held<V>>, View<V::Name, V::Entry>, V::Name> for Keeping<V> {
    ghost holds = { Keeps V.history V.owner V.stands };

    ghost first = { first_view };
}

/// The word becomes odd, and the pass takes the slot.
pub struct Claim;

impl<V: Kept> Play<Option<Held<V>>, View<V::Name, V::Entry>> for Claim {
    ghost then = { Claimed V.history V.owner V.stands };
}

/// The word becomes even, and the pass gives the slot back.
pub struct Release;

impl<V: Kept> Play<Option<Held<V>>, View<V::Name, V::Entry>> for Release {
    ghost then = { Released V.history };
}

/// The word becomes odd for good, and the slot stays where it is.
pub struct Close;

impl<V: Kept> Play<Option<Held<V>>, View<V::Name, V::Entry>> for Close {
    ghost then = { Closes V.owner };
}

/// A look at the word, after which the pass has seen what it was told of.
pub struct Hear;

impl<V: Kept> Play<Option<Held<V>>, View<V::Name, V::Entry>> for Hear {
    ghost then = { Heard };
}

/// The pass numbered 0 makes another.
pub struct Cut;

impl<N, E> Split<View<N, E>> for Cut {
    ghost left = { split_left };

    ghost right = { split_right };
}

/// A pass is told what another has seen and made, which is then spent.
pub struct Tell;

impl<N, E> Join<View<N, E>> for Tell {
    ghost both = { told_of };

    ghost spent = { spent_view };
}
