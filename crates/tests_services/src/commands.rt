//! Words of command lines.

use std::alloc::Global;
use wave_base::{OutOfMemory, Words};

/// The words of a text, with a blank between them.
pub fn words(alloc: Global, text: &str) -> Result<Words, OutOfMemory> {
    let mut words = Words::new(alloc);
    for word in text.split(' ') {
        words.push(word)?;
    }
    Ok(words)
}
