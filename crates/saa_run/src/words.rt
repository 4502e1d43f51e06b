//! What a word means, by a table of words.
//!
//! Held to `meaning_in` of `saa_run_text`. The tables stand beside the functions that read words of one kind.
ghost use Rattle.std.specs.Prelude.{◌≡◌, map};
ghost use Rattle.saa_run_text.specs.Fields.{meaning_in};

/// What a word means; nothing where it is none of the table.
pub fn meaning<T: Copy>(table: &[(&str, T)], word: &[u8]) -> Option<T>
    ensures { result ≡ meaning_in (map (λ entry. (entry.0.now, entry.1)) table.now) word.now }
{
    for (name, value) in table {
        if word == name.as_bytes() {
            return Some(*value);
        }
    }
    None
}
