//! The lines of a text, one by one.

ghost use Rattle.std.specs.Prelude.{◌≡◌, ◌<◌, [], ◌∷◌, length, IfSome, IfNone};
ghost use Rattle.wave_text.specs.Lines.{lines_of, without_return};

use crate::split::count_before;

fn without_return(line: &[u8]) -> &[u8]
    ensures { result.now ≡ without_return line.now }
{
    match line {
        [front @ .., last] if *last == b'\r' => front,
        _ => line,
    }
}

/// The first line, without its end, and the text behind its line feed, where it has one.
pub fn first_line(text: &[u8]) -> (&[u8], Option<&[u8]>)
    ensures more { IfSome result.1 (λ rest. lines_of text.now ≡ result.0.now ∷ lines_of rest.now) }
    ensures last { IfNone result.1 (lines_of text.now ≡ result.0.now ∷ []) }
    ensures shorter { IfSome result.1 (λ rest. length rest.now < length text.now) }
{
    let len = count_before(text, b'\n');
    let line = without_return(&text[..len]);
    if len == text.len() {
        return (line, None);
    }
    (line, Some(&text[len + 1..]))
}
