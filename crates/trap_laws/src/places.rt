//! The laws of where the traps of a text stand: each is the contract of a function that does nothing.

ghost use Rattle.trap_laws.specs.Places.{BeginsToken, IsSomewhere, OfCalls, OfScripts};

use crate::laws::traps_stand_in_the_text;

/// Each trap of a service that was read from a text, with its names resolved, stands at the place of one of the text's tokens: of each
/// call, and so of all that a script gives.
pub fn traps_stand_at_tokens()
    ensures calls { OfCalls BeginsToken }
    ensures scripts { OfScripts BeginsToken }
{
    traps_stand_in_the_text();
}

/// So none stands nowhere.
pub fn no_trap_of_a_text_stands_nowhere()
    ensures calls { OfCalls IsSomewhere }
    ensures scripts { OfScripts IsSomewhere }
{
    traps_stand_at_tokens();
}
