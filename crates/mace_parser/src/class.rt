// The class of a word.

ghost use Rattle.std.specs.Prelude.{◌≡◌};
ghost use Rattle.mace_grammar.specs.Words.{edition_of};
ghost use Rattle.mace_grammar.specs.inner.Classes as spec;

use crate::token::{is_early, is_name};
use mace_grammar::Class;
use mace_lexer::{Keyword, Word};
use wave_base::Version;

/// The class of a word in this version.
pub fn class_of(version: Version, word: &Word) -> Class
    ensures { result ≡ spec.class_of (edition_of version) word.now }
{
    match word {
        Word::Name(text) if is_name(version, text) => Class::Name,
        Word::Name(_) => Class::Finish,
        Word::Number(_) => Class::Number,
        Word::Text(_) => Class::Text,
        Word::Key(key) if *key == Keyword::Return && is_early(version) => Class::Leave,
        Word::Key(key) => Class::Key(*key),
        Word::Sign(sign) => Class::Sign(*sign),
    }
}
