//! Texts that are split at a byte.

ghost use Rattle.std.specs.Prelude.{◌≡◌, ◌-◌, ◌≤◌, length, IfSome, IfNone};
ghost use Rattle.std.specs.List.{prefix_len};
ghost use Rattle.wave_text.specs.Splits.{is_other, HasNone, IsSplit, ArePartsAt};

/// The number of bytes before the first one like this.
pub(crate) fn count_before(text: &[u8], end: u8) -> usize
    ensures count { result ≡ prefix_len (is_other end) text.now }
    ensures within { result ≤ length text.now }
{
    text.iter().take_while(|b| **b != end).count()
}

/// The bytes before the first one like this, and those behind it; none where there is no such byte.
pub fn split_at(text: &[u8], end: u8) -> Option<(&[u8], &[u8])>
    ensures some { IfSome result (λ x. IsSplit end text.now x.0.now x.1.now) }
    ensures none { IfNone result (HasNone end text.now) }
{
    let n = count_before(text, end);
    if n == text.len() {
        return None;
    }
    Some((&text[..n], &text[n + 1..]))
}

/// The bytes before the first one like this, and those behind it; all of the text and nothing where there is no such byte.
pub fn parts_at(text: &[u8], end: u8) -> (&[u8], &[u8])
    ensures parts { ArePartsAt end text.now result.0.now result.1.now }
    ensures shorter { length result.1.now ≤ length text.now - 1 }
{
    match split_at(text, end) {
        Some(parts) => parts,
        None => (text, &[]),
    }
}
