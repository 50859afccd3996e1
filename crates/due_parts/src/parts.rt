//! An input of three parts.

ghost use Rattle.std.specs.Prelude.{◌≡◌, None, Some, IfNone, IfSome};
ghost use Rattle.input_parts.specs.Parts.{script_of, service_of};
ghost use Rattle.due_parts.specs.Scripts.{two_parts};

use input_parts::parts_of;

/// The text of the service, and the two parts behind it, where the input has two lines of four dashes.
pub fn three_parts(input: &[u8]) -> (&[u8], Option<(&[u8], &[u8])>)
    ensures service { result.0.now ≡ service_of input.now }
    ensures parts { IfSome result.1 (λ parts. two_parts (script_of input.now) ≡ Some (parts.0.now, parts.1.now)) }
    ensures none { IfNone result.1 (two_parts (script_of input.now) ≡ None) }
{
    let (service, rest) = parts_of(input);
    let Some(rest) = rest else {
        return (service, None);
    };
    let (second, third) = parts_of(rest);
    match third {
        Some(third) => (service, Some((second, third))),
        None => (service, None),
    }
}
