// The end of a source.

ghost use Rattle.std.specs.Prelude.{◌≡◌, ◌==◌, ◌≤◌, not, count_by, take_while, reverse, length};
ghost use Rattle.pli_language.specs.Parsing.{end_of};
ghost use Rattle.pli_language.specs.Tokens.{most_bytes};

use pli_language::expr::Place;

/// The LF bytes.
fn line_ends(source: &[u8]) -> usize
    ensures { result ≡ count_by (λ b. b == 10) source.now }
{
    source.iter().filter(|byte| **byte == b'\n').count()
}

/// The bytes after the last LF, or after the start.
fn last_line(source: &[u8]) -> usize
    ensures { result ≡ length (take_while (λ b. not (b == 10)) (reverse source.now)) }
{
    source
        .iter()
        .rev()
        .take_while(|byte| **byte != b'\n')
        .count()
}

/// The place behind the last byte.
pub fn end_of(source: &[u8]) -> Place
    requires { length source.now ≤ most_bytes }
    ensures { result ≡ end_of source.now }
{
    Place {
        line: line_ends(source) as u32 + 1,
        column: last_line(source) as u32 + 1,
    }
}
