// The law of passes, over the rule of the lock.
ghost use Rattle.kept_lock.specs.Law.{PassesShareOneHistory};

use crate::kept::Kept;

/// Of all passes of one lock, what one has seen and what another has seen are beginnings of one history,
/// and each entry of a pass's number in it was made by that pass. The rule that it speaks of holds at every moment of every lock.
pub fn passes_share_one_history<V: Kept>()
    ensures { PassesShareOneHistory V.history V.owner V.stands }
{}
