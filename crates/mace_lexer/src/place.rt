//! Lines and columns.

ghost use Rattle.std.specs.Prelude.{◌≡◌, ◌+◌, ◌<◌, ◌≤◌, ◌^◌, length};
ghost use Rattle.wave_base.specs.declared.limits.TheConstants.{PLACED_BYTES};
ghost use Rattle.mace_lexer.specs.Cuts.{past};
ghost use Rattle.mace_lexer.specs.Lexed.{start};

use wave_base::Span;

/// The place behind these bytes.
pub fn past(at: Span, bytes: &[u8]) -> Span
    requires line { at.line + length bytes.now < 2 ^ 32 }
    requires col { at.col + length bytes.now < 2 ^ 32 }
    ensures value { result ≡ past at bytes.now }
    ensures line { result.line ≤ at.line + length bytes.now }
    ensures col { result.col ≤ at.col + length bytes.now }
{
    let mut place = at;
    for b in bytes {
        if *b == b'\n' {
            place = Span {
                line: place.line + 1,
                col: 1,
            };
        } else {
            place.col += 1;
        }
    }
    place
}

/// The place behind the text's last byte.
pub fn text_end(text: &[u8]) -> Span
    requires { length text.now ≤ PLACED_BYTES }
    ensures { result ≡ past start text.now }
{
    past(Span { line: 1, col: 1 }, text)
}
