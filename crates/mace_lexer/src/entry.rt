//! The entries of a table of words.

ghost use Rattle.std.specs.Prelude.{◌≡◌, ◌<◌, [], length, map, slice_index_or};
ghost use Rattle.mace_lexer.specs.Words.{entry_of};

/// How the entry at a place of a table is written.
pub fn entry_bytes<T: Copy>(table: &[(&'static [u8], T)], place: usize) -> &'static [u8]
    requires { place < length table.now }
    ensures { result.now ≡ slice_index_or (map (λ e. e.0.now) table.now) place [] }
{
    table[place].0
}

/// What is written so, by the table's first entry for it.
pub fn entry_in<T: Copy>(mut table: &[(&[u8], T)], bytes: &[u8]) -> Option<T>
    ensures { result ≡ entry_of (map (λ e. (e.0.now, e.1)) table.entry.now) bytes.now }
{
    while let [entry, rest @ ..] = table {
        if entry.0 == bytes {
            return Some(entry.1);
        }
        table = rest;
    }
    None
}
