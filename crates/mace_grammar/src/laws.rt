//! A law of the grammar: no text can be read in two ways.

ghost use Rattle.std.specs.Prelude.{List};
ghost use Rattle.mace_lexer.specs.declared.token.Word.{Word};
ghost use Rattle.mace_ast.specs.Decls.{ServiceTree, SameUpToSpans};
ghost use Rattle.mace_grammar.specs.Spelled.{Spelled};

/// A list of words has at most one tree, up to the places in it.
pub fn at_most_one_tree()
    ensures { (ws : List Word) (s t : ServiceTree) → Spelled s ws → Spelled t ws → SameUpToSpans s t }
{}
