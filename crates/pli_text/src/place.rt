// Places in texts, counted from 1; 0 for none.

ghost use Rattle.std.specs.Prelude.{◌≡◌, ◌≤◌, length};
ghost use Rattle.pli_meaning.specs.Texts as texts;

use memchr::memmem;

/// The place of the first occurrence of a pattern; 0 for none, or an empty pattern.
pub fn index_of(text: &[u8], pattern: &[u8]) -> usize
    ensures place { result ≡ texts.index_of text.now pattern.now }
    ensures within { result ≤ length text.now }
{
    if pattern.is_empty() {
        return 0;
    }
    match memmem::find(text, pattern) {
        None => 0,
        Some(before) => before + 1,
    }
}

/// The place of the first byte that isn't among the allowed ones; 0 for none.
pub fn verify_of(text: &[u8], allowed: &[u8]) -> usize
    ensures place { result ≡ texts.verify_of text.now allowed.now }
    ensures within { result ≤ length text.now }
{
    for (before, byte) in text.iter().enumerate() {
        if !allowed.contains(byte) {
            return before + 1;
        }
    }
    0
}
