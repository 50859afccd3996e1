//! What stays the same from one token to the next while a text is read.

use std::alloc::Global;
use wave_base::Version;

/// What reads tokens: each of its methods gives a value and the tokens behind it.
#[derive(Clone, Copy)]
pub struct Reader {
    /// Where the parts of the tree are kept.
    pub alloc: Global,
    /// How deep contexts, blocks and operands may still be within one another. The tokens are fewer, so no text reaches it.
    pub depth: usize,
    /// The version of the text, which says what some words are.
    pub version: Version,
}
