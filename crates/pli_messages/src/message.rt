// A refusal of a source, in the words that are asked for.

use crate::advice::{advice, advice_further};
use crate::place::{Excerpt, at_column, first_line, from_line};
use crate::topic::refusal;
use pli_language::expr::Place;
use pli_language::fault::{SourceFault, SourceKind};
use std::fmt;

/// How a refusal is told.
#[derive(Clone, Copy, PartialEq, Eq, Debug)]
pub enum Style {
    /// Its line alone: `1:24: 7 Undeclared`.
    Short,
    /// Its line, the source's line with a caret, the usual cause and what to do.
    Long,
    /// With the file's name, as compilers tell errors to editors: `F:1:24: error: 7 Undeclared`.
    Gcc,
}

/// The words for the styles, the first of which is the one that is taken where none is said.
pub const STYLES: [&str; 3] = ["short", "long", "gcc"];

impl Style {
    /// The style that a word asks for.
    pub fn named(word: &str) -> Style {
        match word {
            "long" => Style::Long,
            "gcc" => Style::Gcc,
            _ => Style::Short,
        }
    }
}

/// A refusal of a source that stands in a file, and where a statement that isn't spelled can be read no further. Want
/// of memory has no place.
#[derive(Clone, Copy, Debug)]
pub struct Message<'a> {
    pub style: Style,
    pub file: &'a str,
    pub source: &'a [u8],
    pub fault: SourceFault,
    pub unread: Option<Place>,
}

impl Message<'_> {
    // Where the statement can be read no further, where that is behind its first token.
    fn further(&self) -> Option<Place> {
        let SourceFault { line, column, .. } = self.fault;
        match self.unread {
            Some(place) if place != (Place { line, column }) => Some(place),
            _ => None,
        }
    }

    fn show_further<W: fmt::Write>(&self, f: &mut fmt::Formatter<W>) -> fmt::Result {
        let Some(Place { line, column }) = self.further() else {
            return Ok(());
        };
        let excerpt = Excerpt {
            line: first_line(from_line(self.source, line)),
            column,
        };
        write!(
            f,
            "\nIt can be read up to {line}:{column}, and not on:\n{excerpt}"
        )
    }

    // What to write instead of a form that begins where the source is refused, or where the statement can be read no
    // further.
    fn instead(&self) -> Option<&'static str> {
        let SourceFault { line, column, kind } = self.fault;
        let statement = at_column(from_line(self.source, line), column).1;
        let found = advice(kind, column, statement);
        if found.is_some() {
            return found;
        }
        let Place { line, column } = self.further()?;
        let rest = from_line(self.source, line);
        let behind = at_column(rest, column).1;
        advice_further(statement, first_line(rest), column, behind)
    }

    fn explain<W: fmt::Write>(&self, f: &mut fmt::Formatter<W>) -> fmt::Result {
        let excerpt = Excerpt {
            line: first_line(from_line(self.source, self.fault.line)),
            column: self.fault.column,
        };
        write!(f, "\n{excerpt}")?;
        self.show_further(f)?;
        if let Some(topic) = refusal(self.fault.kind) {
            write!(f, "\n{topic}")?;
        }
        match self.instead() {
            Some(instead) => write!(f, "\nInstead: {instead}."),
            None => Ok(()),
        }
    }
}

impl fmt::Display for Message<'_> {
    fn fmt<W: fmt::Write>(&self, f: &mut fmt::Formatter<W>) -> fmt::Result {
        let fault = self.fault;
        if fault.kind == SourceKind::Memory {
            return f.write_str("MEMORY");
        }
        match self.style {
            Style::Short => write!(f, "{fault}"),
            Style::Long => {
                write!(f, "{fault}")?;
                self.explain(f)
            }
            Style::Gcc => {
                let SourceFault { line, column, kind } = fault;
                let file = self.file;
                write!(f, "{file}:{line}:{column}: error: {kind}")
            }
        }
    }
}
