//! Whole numbers in a text.

ghost use Rattle.std.specs.Prelude.{◌≡◌, ◌≤◌, ℤ, true, Some, length, FitsSigned};
ghost use Rattle.std.specs.Fmt.{signed_decimal};
ghost use Rattle.std.specs.Int.{w64};
ghost use Rattle.wave_text.specs.Words.{is_whole, without_minus};
ghost use Rattle.wave_text.specs.Numbers.{whole_of, IsNumberOf};

/// The number that an optional `-` and digits stand for; none where it does not fit.
pub fn whole_of(text: &[u8]) -> Option<i64>
    requires { is_whole text.now ≡ true }
    ensures { result ≡ whole_of text.now }
{
    match std::str::from_utf8(text) {
        Ok(text) => text.parse::<i64>().ok(),
        Err(_) => None,
    }
}

/// The number of 32 bits that a text is written for.
pub fn u32_of(text: &[u8]) -> Option<u32>
    ensures { IsNumberOf 32 text.now result }
{
    match std::str::from_utf8(text) {
        Ok(text) => text.parse::<u32>().ok(),
        Err(_) => None,
    }
}

/// The same for a number of one byte.
pub fn byte_of(text: &[u8]) -> Option<u8>
    ensures { IsNumberOf 8 text.now result }
{
    match std::str::from_utf8(text) {
        Ok(text) => text.parse::<u8>().ok(),
        Err(_) => None,
    }
}

/// What is written of a whole number is read back as that number, and has at most 19 digits.
pub fn written_numbers_are_read()
    ensures form { (z : ℤ) → FitsSigned w64 z → is_whole (signed_decimal z) ≡ true }
    ensures same { (z : ℤ) → FitsSigned w64 z → whole_of (signed_decimal z) ≡ Some z }
    ensures short { (z : ℤ) → FitsSigned w64 z → length (without_minus (signed_decimal z)) ≤ 19 }
{}
