//! What bytes and words look like.

ghost use Rattle.std.specs.Prelude.{◌≡◌};
ghost use Rattle.std.specs.Char.{is_ascii_digit};
ghost use Rattle.std.specs.List.{list_all};
ghost use Rattle.wave_base.specs.Names.{is_digits, is_name_byte, is_word};
ghost use Rattle.wave_text.specs.Words.{is_blank, is_whole, without_minus};

/// Whether a byte is a space or a tab.
pub fn is_blank(b: u8) -> bool
    ensures { result ≡ is_blank b }
{
    b == b' ' || b == b'\t'
}

fn is_name_byte(b: u8) -> bool
    ensures { result ≡ is_name_byte b }
{
    b.is_ascii_alphanumeric() || b == b'_'
}

fn are_name_bytes(bytes: &[u8]) -> bool
    ensures { result ≡ list_all is_name_byte bytes.now }
{
    bytes.iter().all(|b| is_name_byte(*b))
}

fn are_digits(bytes: &[u8]) -> bool
    ensures { result ≡ list_all is_ascii_digit bytes.now }
{
    bytes.iter().all(|b| b.is_ascii_digit())
}

/// Whether a text is a letter or `_` and then letters, digits and `_`.
pub fn is_word(text: &[u8]) -> bool
    ensures { result ≡ is_word text.now }
{
    match text {
        [] => false,
        [b, rest @ ..] => (b.is_ascii_alphabetic() || *b == b'_') && are_name_bytes(rest),
    }
}

/// Whether a text is one or more digits.
pub fn is_digits(text: &[u8]) -> bool
    ensures { result ≡ is_digits text.now }
{
    match text {
        [] => false,
        [b, rest @ ..] => b.is_ascii_digit() && are_digits(rest),
    }
}

fn without_minus(text: &[u8]) -> &[u8]
    ensures { result.now ≡ without_minus text.now }
{
    match text {
        [b'-', rest @ ..] => rest,
        _ => text,
    }
}

/// Whether a text is an optional `-` and one or more digits.
pub fn is_whole(text: &[u8]) -> bool
    ensures { result ≡ is_whole text.now }
{
    is_digits(without_minus(text))
}
