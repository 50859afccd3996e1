//! Parts that are taken one after the other.

ghost use Rattle.std.specs.Prelude.{◌≡◌, ◌∷◌, [], IsNone, IfSome};

/// The first of some parts, and the others.
pub fn first_of<T>(parts: &[T]) -> Option<(&T, &[T])>
    ensures none { IsNone result → parts.now ≡ [] }
    ensures some { IfSome result (λ ps. parts.now ≡ ps.0.now ∷ ps.1.now) }
{
    match parts {
        [] => None,
        [first, others @ ..] => Some((first, others)),
    }
}
