// The text of a listing: the code words, and where it is asked for, what a reader looks for beside them.

use crate::call::{Call, calls_of};
use crate::duty::duty;
use crate::note::{Note, notes_of};
use crate::source::Lines;
use crate::word::ListedWord;
use rv_assembly::code::Code;
use rv_image::image::Image;
use std::alloc::{AllocError, Global};

/// What a listing has beside the words: procedures, labels, services and the lines of acts behind them, and the
/// lines of the source before the words of their statements.
#[derive(Clone, Copy, Debug)]
pub struct Beside<'a> {
    pub notes: bool,
    pub source: Option<&'a [u8]>,
}

// How far a listing has come: the notes and calls that are behind, and the line of the source that was shown last.
#[derive(Clone, Copy)]
struct Behind {
    notes: usize,
    calls: usize,
    line: i32,
}

// Bytes of a source, whose texts and comments may have any.
fn push_bytes(text: &mut String, bytes: &[u8]) -> Result<(), AllocError> {
    for byte in bytes {
        let shown = match *byte {
            32..=126 => char::from(*byte),
            b'\t' => ' ',
            _ => '?',
        };
        text.push(shown)?;
    }
    Ok(())
}

// The source's line of the statement whose first word is next; the line that was shown last then.
fn push_line(
    text: &mut String,
    lines: &Lines<'_>,
    call: Call,
    place: usize,
    shown: i32,
) -> Result<i32, AllocError> {
    match call.line {
        Some(line) if call.from == place && line != shown => {
            write!(text, "{line:8} ")?;
            push_bytes(text, lines.line(line))?;
            text.push('\n')?;
            Ok(line)
        }
        _ => Ok(shown),
    }
}

// The notes of a place, from one of them on; how many notes are behind then.
fn push_notes(
    text: &mut String,
    notes: &[Note],
    first: usize,
    place: usize,
) -> Result<usize, AllocError> {
    let mut behind = first;
    for note in notes.iter().skip(first) {
        if note.place != place {
            return Ok(behind);
        }
        text.push_str("  ")?;
        text.push_str(&note.text)?;
        behind = behind.saturating_add(1);
    }
    Ok(behind)
}

// A call's service, with the line of a statement that it begins.
fn push_call(text: &mut String, call: Call) -> Result<(), AllocError> {
    match call.line {
        Some(line) => write!(text, "  line {line}"),
        None => {
            let name = duty(call.service);
            write!(text, "  {name}")
        }
    }
}

// All that a listing is made from beside the words.
#[derive(Drop)]
struct Layout<'a> {
    notes: Vec<Note>,
    calls: Vec<Call>,
    lines: Lines<'a>,
    beside: Beside<'a>,
}

impl Layout<'_> {
    // The line of a word, with what stands before and behind it; how far the listing has come then.
    fn push_word(
        &self,
        text: &mut String,
        listed: ListedWord,
        place: usize,
        from: Behind,
    ) -> Result<Behind, AllocError> {
        let mut behind = from;
        let next = self.calls.get(behind.calls).copied();
        if let (Some(call), true) = (next, self.beside.source.is_some()) {
            behind.line = push_line(text, &self.lines, call, place, behind.line)?;
        }
        write!(text, "{listed}")?;
        if self.beside.notes {
            behind.notes = push_notes(text, &self.notes, behind.notes, place)?;
        }
        match next {
            Some(call) if call.place == place => {
                behind.calls = behind.calls.saturating_add(1);
                if self.beside.notes {
                    push_call(text, call)?;
                }
            }
            _ => {}
        }
        text.push('\n')?;
        Ok(behind)
    }
}

/// A line for each code word: its offset in bytes and the word, each in eight hexadecimal digits. Where notes are
/// asked for, behind it the procedure or label that begins there, and for a call of a service its duty, or the line
/// of the statement. Where the source is asked for, its lines before the words of the statements that begin in
/// them.
pub fn listing(
    alloc: Global,
    names: &[Vec<u8>],
    code: &Code,
    image: &Image,
    beside: Beside<'_>,
) -> Result<String, AllocError> {
    let layout = Layout {
        notes: notes_of(alloc, names, code)?,
        calls: calls_of(alloc, image.code())?,
        lines: Lines::new(alloc, beside.source.unwrap_or(&[]))?,
        beside,
    };
    let mut text = String::new(alloc);
    let mut behind = Behind {
        notes: 0,
        calls: 0,
        line: 0,
    };
    for (place, word) in image.code().iter().enumerate() {
        let listed = ListedWord {
            offset: 4 * place,
            word: *word,
        };
        behind = layout.push_word(&mut text, listed, place, behind)?;
    }
    Ok(text)
}
