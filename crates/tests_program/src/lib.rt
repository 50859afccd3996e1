//! Tests alone, of the top call: on worked scripts, wrong words, refused inputs and failing streams, by workers and without; and of what is due for a
//! command and an input. They stand above it, so that the program is built without them, and all in one crate, since to read what is below takes long.
#![tactic(auto)]

#[cfg(test)]
mod answers;
#[cfg(test)]
mod tests;
