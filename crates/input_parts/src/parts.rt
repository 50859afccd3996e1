//! The parts of an input.

ghost use Rattle.std.specs.Prelude.{◌≡◌, Some, None, IfSome, IfNone};
ghost use Rattle.input_parts.specs.Parts.{service_of, script_of};

use crate::dashes::is_dashes;
use wave_text::parts_at;

/// The text of the service, and the script, where the input has a line of four dashes.
///
/// The service's text is all before the first such line, and the script all behind it; without such a line all of the
/// input is the service's.
pub fn parts_of(input: &[u8]) -> (&[u8], Option<&[u8]>)
    ensures service { result.0.now ≡ service_of input.now }
    ensures script { IfSome result.1 (λ script. script_of input.now ≡ Some script.now) }
    ensures none { IfNone result.1 (script_of input.now ≡ None) }
{
    let mut rest = input;
    while !rest.is_empty() {
        let (line, behind) = parts_at(rest, b'\n');
        if is_dashes(line) {
            return (&input[..input.len() - rest.len()], Some(behind));
        }
        rest = behind;
    }
    (input, None)
}
