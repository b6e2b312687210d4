// The last line of the output: what is put behind it, and how long it is.

ghost use Rattle.std.specs.Prelude.{◌≡◌, ◌+◌, ◌^◌, ◌<◌, ◌≤◌, ◌++◌, length, MatchResult};
ghost use Rattle.pli_meaning.specs.Stream.{blanks};
ghost use Rattle.pli_edit.specs.LastLine.{line_over};

use std::alloc::AllocError;

/// A text comes behind the bytes, between blanks. Without memory an `AllocError`, and then nothing changed.
pub fn append(bytes: &mut Vec<u8>, before: u32, text: &[u8], behind: u32) -> Result<(), AllocError>
    ensures { MatchResult result
        (λ _. bytes.new.items ≡ bytes.old.items ++ (blanks before ++ (text.now ++ blanks behind)))
        (λ _. bytes.new.items ≡ bytes.old.items) }
{
    let length = bytes.len();
    bytes.reserve(before as usize + text.len() + behind as usize)?;
    bytes.resize(length + before as usize, b' ').unwrap();
    bytes.extend_from_slice(text).unwrap();
    let end = bytes.len();
    bytes.resize(end + behind as usize, b' ').unwrap();
    Ok(())
}

/// The bytes behind the last line feed, where so many stood there before a text.
pub fn line_behind(line: usize, text: &[u8]) -> usize
    requires { line + length text.now < 2 ^ 64 }
    ensures length { result ≡ line_over line text.now }
    ensures within { result ≤ line + length text.now }
{
    let mut behind = line;
    for byte in text {
        behind = if *byte == b'\n' { 0 } else { behind + 1 };
    }
    behind
}
