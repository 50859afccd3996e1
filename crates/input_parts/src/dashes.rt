//! The line that parts an input.

ghost use Rattle.std.specs.Prelude.{◌≡◌};
ghost use Rattle.input_parts.specs.Parts.{is_dashes};

/// Whether a line parts the service from the script.
pub fn is_dashes(line: &[u8]) -> bool
    ensures { result ≡ is_dashes line.now }
{
    line == b"----".as_slice() || line == b"----\r".as_slice()
}
