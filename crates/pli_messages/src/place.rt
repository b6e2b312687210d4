// Places in a source, by line and column.

use std::fmt;

/// The most bytes of a line that are shown in front of a place, and from it on.
const MOST_SHOWN: usize = 60;

// What stands behind the first line of a source; nothing behind the last one.
fn behind_line(source: &[u8]) -> &[u8] {
    match source.iter().position(|byte| *byte == b'\n') {
        Some(end) => source.split_at(end + 1).1,
        None => &[],
    }
}

/// What stands from a line on, which is counted from 1.
pub fn from_line(source: &[u8], line: u32) -> &[u8] {
    let mut rest = source;
    for _ in 1..line {
        rest = behind_line(rest);
    }
    rest
}

/// The first line of what is left of a source, without its end.
pub fn first_line(rest: &[u8]) -> &[u8] {
    match rest.iter().position(|byte| *byte == b'\n') {
        Some(end) => rest.split_at(end).0,
        None => rest,
    }
}

/// What stands in front of a column of a line, which is counted from 1 in bytes, and from it on.
pub fn at_column(line: &[u8], column: u32) -> (&[u8], &[u8]) {
    let place = usize::try_from(column)
        .unwrap_or(usize::MAX)
        .saturating_sub(1);
    line.split_at(place.min(line.len()))
}

// The last bytes of a slice, at most so many.
fn last(bytes: &[u8], most: usize) -> &[u8] {
    bytes.split_at(bytes.len().saturating_sub(most)).1
}

/// A line with a caret below a column of it. A byte that is no printable ASCII is shown as a blank or a question
/// mark, so that the caret stands right; of a long line only what stands around the column is shown.
#[derive(Clone, Copy, Debug)]
pub struct Excerpt<'a> {
    pub line: &'a [u8],
    pub column: u32,
}

// Shows bytes, each by one character.
fn show<W: fmt::Write>(f: &mut fmt::Formatter<W>, bytes: &[u8]) -> fmt::Result {
    for byte in bytes {
        let shown = match *byte {
            0..=31 => ' ',
            32..=126 => char::from(*byte),
            _ => '?',
        };
        f.write_char(shown)?;
    }
    Ok(())
}

/// A line of a source by itself, as an excerpt shows one.
#[derive(Clone, Copy, Debug)]
pub struct Shown<'a>(pub &'a [u8]);

impl fmt::Display for Shown<'_> {
    fn fmt<W: fmt::Write>(&self, f: &mut fmt::Formatter<W>) -> fmt::Result {
        let line = self.0;
        show(f, line.split_at(line.len().min(2 * MOST_SHOWN)).0)
    }
}

impl fmt::Display for Excerpt<'_> {
    fn fmt<W: fmt::Write>(&self, f: &mut fmt::Formatter<W>) -> fmt::Result {
        let (front, rest) = at_column(self.line, self.column);
        let front = last(front, MOST_SHOWN);
        let rest = rest.split_at(rest.len().min(MOST_SHOWN)).0;
        show(f, front)?;
        show(f, rest)?;
        f.write_char('\n')?;
        for _ in front {
            f.write_char(' ')?;
        }
        f.write_char('^')
    }
}
