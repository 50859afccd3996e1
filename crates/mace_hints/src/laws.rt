//! Laws of what goes on: each is the contract of a function that does nothing.

ghost use Rattle.std.specs.Prelude.{◌↔◌, List};
ghost use Rattle.mace_lexer.specs.declared.token.Word.{Word};
ghost use Rattle.mace_grammar.specs.Spelled.{Begun};
ghost use Rattle.mace_hints.specs.Hints.{GoesOn, AreAlike};

/// Words begin a service exactly where some words behind them make one.
pub fn what_begins_goes_on()
    ensures { (ws : List Word) → Begun ws ↔ GoesOn ws }
{}

/// Words that hints don't tell apart go on alike.
pub fn alike_words_go_on()
    ensures { (ws vs : List Word) → AreAlike ws vs → GoesOn ws → GoesOn vs }
{}
