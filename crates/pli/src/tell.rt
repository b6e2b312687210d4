// What is told on standard error, with the status that it ends the program with.

use crate::command;
use clap::ArgMatches;
use pli_activations::activations::Activations;
use pli_language::expr::Place;
use pli_language::fault::SourceFault;
use pli_lex::tokens;
use pli_meaning::outcome::Limit;
use pli_messages::farthest::farthest;
use pli_messages::message::{Message, Style};
use pli_messages::place::{Shown, first_line, from_line};
use pli_messages::topic::{Topic, error, limit};
use pli_run::report::{Active, Line, Notice, refused_source, unread};
use std::{fmt, io};

/// What is told where memory runs out before there is anything to tell of.
pub const NO_MEMORY: Notice<'static> = Notice {
    status: 4,
    line: Some(Line::Memory),
};

/// The status, told with its line.
pub fn tell(rt: &HostRuntime, notice: Notice<'_>) -> u8 {
    if let Some(line) = notice.line {
        let _ = eprintln!(rt; "{line}");
    }
    notice.status
}

/// What is told of a file that couldn't be read, by its name, or `stdin`.
pub fn unread_for<'a>(name: &'a str, error: &io::Error) -> Notice<'a> {
    match error.kind() {
        io::ErrorKind::OutOfMemory => NO_MEMORY,
        _ => unread(name),
    }
}

fn style_of(matches: &ArgMatches<'_>) -> Style {
    Style::named(matches.get_str(command::MESSAGES).unwrap_or(""))
}

// Where a refused statement can be read no further; nothing where there is no memory to find it.
fn unread_token(rt: &HostRuntime, source: &[u8], fault: SourceFault) -> Option<Place> {
    let tokens = tokens(rt.alloc(), source).ok()?;
    farthest(rt.alloc(), source, &tokens, fault).ok()?
}

/// A refusal in the style that the words ask for.
pub fn message_of<'a>(
    rt: &HostRuntime,
    matches: &ArgMatches<'_>,
    file: &'a str,
    source: &'a [u8],
    fault: SourceFault,
) -> Message<'a> {
    let style = style_of(matches);
    let unread = match style {
        Style::Long => unread_token(rt, source, fault),
        _ => None,
    };
    Message {
        style,
        file,
        source,
        fault,
        unread,
    }
}

/// The status of a refusal, told in the style that the words ask for.
pub fn tell_refusal(rt: &HostRuntime, message: Message<'_>) -> u8 {
    let _ = eprintln!(rt; "{message}");
    refused_source(message.fault).status
}

// What is known of the end of a run beyond its line.
fn topic_of(line: &Line<'_>) -> Option<Topic> {
    match line {
        Line::Error { code, .. } => error(*code),
        Line::Bound => limit("BOUND"),
        Line::Limit(Limit::Depth) => limit("DEPTH"),
        Line::Limit(Limit::Automatic) => limit("AUTOMATIC"),
        Line::Memory => limit("MEMORY"),
        _ => None,
    }
}

// The end of a run at length: behind its line the source's line of an error, where there is a source, or the bound;
// and the usual cause with what to do.
#[derive(Clone, Copy)]
struct AtLength<'a> {
    line: Line<'a>,
    source: &'a [u8],
    bound: u64,
}

impl fmt::Display for AtLength<'_> {
    fn fmt<W: fmt::Write>(&self, f: &mut fmt::Formatter<W>) -> fmt::Result {
        let AtLength {
            line,
            source,
            bound,
        } = *self;
        write!(f, "{line}")?;
        match line {
            Line::Error { line, .. } if !source.is_empty() => {
                let shown = Shown(first_line(from_line(source, line)));
                write!(f, "\n{shown}")?;
            }
            Line::Bound => write!(f, "\nThe bound is {bound} instructions.")?,
            _ => {}
        }
        match topic_of(&line) {
            Some(topic) => write!(f, "\n{topic}"),
            None => Ok(()),
        }
    }
}

/// The status of a run, told with its line in the style that the words ask for. A run of an image has no source: an
/// empty one.
pub fn tell_run(
    rt: &HostRuntime,
    matches: &ArgMatches<'_>,
    notice: Notice<'_>,
    source: &[u8],
) -> u8 {
    match (style_of(matches), notice.line) {
        (Style::Long, Some(line)) => {
            let bound = matches.get_one::<u64>(command::BOUND).unwrap_or(0);
            let told = AtLength {
                line,
                source,
                bound,
            };
            let _ = eprintln!(rt; "{told}");
            notice.status
        }
        _ => tell(rt, notice),
    }
}

/// Tells of each block that is entered, newest first.
pub fn tell_entered(rt: &HostRuntime, mut entered: Activations) {
    for below in (0..entered.height()).rev() {
        if let Some(block) = entered.newest() {
            let active = Active(block);
            let _ = eprintln!(rt; "{active}");
        }
        if below < entered.height() {
            entered.unwind(below);
        }
    }
}
