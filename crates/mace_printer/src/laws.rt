//! Laws of printing: what is printed reads as the same service, and how many words that takes at the least.

ghost use Rattle.std.specs.Prelude.{◌≡◌, ◌≤◌, ◌+◌, ◌*◌, ◌∷◌, ◌++◌, List, length};
ghost use Rattle.mace_lexer.specs.declared.sign.Sign.TheVariants as sign;
ghost use Rattle.mace_lexer.specs.declared.token.Word.{Word};
ghost use Rattle.mace_lexer.specs.declared.token.Word.TheVariants as word;
ghost use Rattle.mace_ast.specs.Counts.{classes_count, methods_count};
ghost use Rattle.mace_ast.specs.Decls.{ServiceTree, SameUpToSpans, contexts_of};
ghost use Rattle.mace_grammar.specs.Fits.{ServiceFits};
ghost use Rattle.mace_grammar.specs.Spelled.{Spelled};
ghost use Rattle.mace_printer.specs.Canon.{service_words};

/// The canonical words of a service that its version has words for spell it, and nothing else up to the places in it. No
/// fewer words spell it: without any one pair of parentheses that stands in them they don't.
pub fn canonical_words_spell()
    ensures itself { (t : ServiceTree) → ServiceFits t → Spelled t (service_words t) }
    ensures only { (t s : ServiceTree) → ServiceFits t → Spelled s (service_words t) → SameUpToSpans s t }
    ensures shortest { (t : ServiceTree) (ws : List Word) → Spelled t ws → length (service_words t) ≤ length ws }
    ensures parentheses { (t : ServiceTree) (front inner back : List Word) → service_words t ≡ front ++ word.Sign sign.LeftParen ∷ (inner ++ word.Sign sign.RightParen ∷ back) → ¬ (Spelled t (front ++ (inner ++ back))) }
{}

/// Words that spell a service are four at least, and seven more for each class and six more for each method and each event.
pub fn declarations_take_words()
    ensures { (t : ServiceTree) (ws : List Word) → Spelled t ws →
        7 * classes_count (contexts_of t.contexts) + 6 * (methods_count (contexts_of t.contexts) + length t.methods + length t.events) + 4 ≤ length ws }
{}
