// `pli list`, `pli check` and `pli explain`, the page of the manual and completions.

use crate::command;
use crate::completions::completions;
use crate::files::source_of;
use crate::man::man_page;
use crate::tell::{NO_MEMORY, message_of, tell, tell_refusal, unread_for};
use clap::ArgMatches;
use pli_compile::compile::compile;
use pli_compile::named::named_code;
use pli_declaring::declare;
use pli_language::fault::{SourceFault, SourceKind};
use pli_language::stmt::Tree;
use pli_lex::tokens;
use pli_listing::listing::{Beside, listing};
use pli_listing::names::names_text;
use pli_messages::explain::explanation;
use pli_messages::message::{Message, Style};
use pli_parse::parse;
use pli_run::report::{refused_source, unwritten};
use std::alloc::{AllocError, Global};
use std::io;

/// The status where the words ask for nothing that the program does.
pub const USAGE: u8 = 64;

const UNKNOWN: &str =
    "error: no number or name of a refusal, an error or a limit, nor a form that is left out";

// The status of a text that is written to standard output.
fn printed(rt: &HostRuntime, text: &str) -> u8 {
    match rt.write_all(text.as_bytes()) {
        Ok(()) => 0,
        Err(_) => tell(rt, unwritten("stdout")),
    }
}

// The listing of a source.
fn listing_of(
    rt: &HostRuntime,
    source: &[u8],
    beside: Beside<'_>,
) -> io::Result<Result<String, SourceFault>> {
    let named = match named_code(rt.alloc(), source) {
        Ok(named) => named,
        Err(fault) => return Ok(Err(fault)),
    };
    match compile(rt.alloc(), source) {
        Ok(image) => {
            let text = listing(rt.alloc(), &named.names, &named.code, &image, beside)?;
            Ok(Ok(text))
        }
        Err(fault) => Ok(Err(fault)),
    }
}

fn parsed(alloc: Global, source: &[u8]) -> Result<Tree, SourceFault> {
    let tokens = tokens(alloc, source)?;
    parse(alloc, source, &tokens)
}

// The table of the names that a source declares, with where it uses them.
fn names_of(rt: &HostRuntime, source: &[u8]) -> io::Result<Result<String, SourceFault>> {
    let tree = match parsed(rt.alloc(), source) {
        Ok(tree) => tree,
        Err(fault) => return Ok(Err(fault)),
    };
    match declare(rt.alloc(), &tree) {
        Ok(scopes) => Ok(Ok(names_text(rt.alloc(), &tree, &scopes)?)),
        Err(fault) => Ok(Err(fault)),
    }
}

// What `pli list` prints of a source: its listing, and the table of its names where the words ask for that.
fn listed(
    rt: &HostRuntime,
    matches: &ArgMatches<'_>,
    source: &[u8],
) -> io::Result<Result<String, SourceFault>> {
    let beside = Beside {
        notes: matches.get_flag(command::NOTES),
        source: matches.get_flag(command::LINES).then_some(source),
    };
    let mut text = match listing_of(rt, source, beside)? {
        Ok(text) => text,
        Err(fault) => return Ok(Err(fault)),
    };
    if !matches.get_flag(command::XREF) {
        return Ok(Ok(text));
    }
    match names_of(rt, source)? {
        Ok(names) => {
            text.push_str(&names)?;
            Ok(Ok(text))
        }
        Err(fault) => Ok(Err(fault)),
    }
}

/// `pli list`.
pub fn list(rt: &HostRuntime, matches: &ArgMatches<'_>) -> io::Result<u8> {
    let name = matches.get_str(command::SOURCE).unwrap_or("");
    let source = match source_of(rt, matches, name) {
        Ok(source) => source,
        Err(error) => return Ok(tell(rt, unread_for(name, &error))),
    };
    let text = match listed(rt, matches, &source)? {
        Ok(text) => text,
        Err(fault) => return Ok(tell_refusal(rt, message_of(rt, matches, name, &source, fault))),
    };
    Ok(printed(rt, &text))
}

// What is told of a source that is checked, and its status.
fn judged(rt: &HostRuntime, message: Message<'_>) -> io::Result<u8> {
    let file = message.file;
    match message.style {
        Style::Gcc => println!(rt; "{message}")?,
        _ => println!(rt; "{file}:{message}")?,
    }
    Ok(refused_source(message.fault).status)
}

// Whether a source is accepted, by its file's name; its status.
fn check_source(rt: &HostRuntime, matches: &ArgMatches<'_>, name: &str) -> io::Result<u8> {
    let source = match source_of(rt, matches, name) {
        Ok(source) => source,
        Err(error) => return Ok(tell(rt, unread_for(name, &error))),
    };
    match compile(rt.alloc(), &source) {
        Ok(_) => {
            println!(rt; "{name}: accepted")?;
            Ok(0)
        }
        Err(
            SourceFault {
                kind: SourceKind::Memory,
                ..
            },
        ) => Ok(tell(rt, NO_MEMORY)),
        Err(fault) => judged(rt, message_of(rt, matches, name, &source, fault)),
    }
}

/// `pli check`: the greatest status of a source.
pub fn check(rt: &HostRuntime, matches: &ArgMatches<'_>) -> u8 {
    let mut greatest = 0;
    for name in matches.get_strs(command::SOURCE).unwrap_or(&[]) {
        match check_source(rt, matches, name) {
            Ok(status) => greatest = status.max(greatest),
            Err(_) => return tell(rt, unwritten("stdout")),
        }
    }
    greatest
}

/// Words as they stand in a form, with a blank between each two.
fn form_of(alloc: Global, words: &[&str]) -> Result<String, AllocError> {
    let mut form = String::new(alloc);
    for word in words {
        if !form.is_empty() {
            form.push_str(" ")?;
        }
        form.push_str(word)?;
    }
    Ok(form)
}

/// `pli explain`.
pub fn explain(rt: &HostRuntime, matches: &ArgMatches<'_>) -> io::Result<u8> {
    let words = matches.get_strs(command::WORD).unwrap_or(&[]);
    let form = form_of(rt.alloc(), words)?;
    let text = explanation(rt.alloc(), &form)?;
    if text.is_empty() {
        let _ = eprintln!(rt; "{UNKNOWN}: {form}");
        return Ok(USAGE);
    }
    Ok(printed(rt, &text))
}

/// `pli man`.
pub fn print_man(rt: &HostRuntime) -> io::Result<u8> {
    let command = command::command(rt.alloc())?;
    Ok(printed(rt, &man_page(rt.alloc(), &command)?))
}

/// `pli completions`.
pub fn print_completions(rt: &HostRuntime, matches: &ArgMatches<'_>) -> io::Result<u8> {
    let command = command::command(rt.alloc())?;
    let shell = matches.get_str(command::SHELL).unwrap_or("");
    Ok(printed(rt, &completions(rt.alloc(), &command, shell)?))
}
