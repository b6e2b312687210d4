// The words of the command line.

use crate::completions::SHELLS;
use clap::builder::ValueParser;
use clap::error::ErrorKind;
use clap::{Arg, ArgAction, Command, value_parser};
use pli_messages::message::STYLES;
use std::alloc::{AllocError, Global};

pub const SOURCE: &str = "SRC";

pub const IMAGE: &str = "IMG";

pub const OUTPUT: &str = "output";

pub const INPUT: &str = "input";

pub const BOUND: &str = "bound";

pub const BASE: &str = "base";

pub const TRACE: &str = "trace";

pub const MESSAGES: &str = "messages";

pub const MARGINS: &str = "margins";

pub const NOTES: &str = "notes";

pub const LINES: &str = "source";

pub const XREF: &str = "xref";

pub const WORD: &str = "WORD";

pub const SHELL: &str = "SHELL";

/// How the value of an argument is called.
pub fn value_name(id: &str) -> &str {
    match id {
        OUTPUT => IMAGE,
        INPUT => "F",
        BOUND => "N",
        BASE => "B",
        MESSAGES => "STYLE",
        MARGINS => "M,N",
        _ => id,
    }
}

fn source<'a>(alloc: Global) -> Arg<'a> {
    Arg::new(alloc, SOURCE)
        .required(true)
        .action(ArgAction::Set)
        .help("The source")
}

fn messages<'a>(alloc: Global) -> Arg<'a> {
    Arg::new(alloc, MESSAGES)
        .long(MESSAGES)
        .value_name(value_name(MESSAGES))
        .action(ArgAction::Set)
        .value_parser(ValueParser::Names(&STYLES))
        .default_value("short")
        .help("How a refusal, or the end of a run, is told")
}

fn margins<'a>(alloc: Global) -> Arg<'a> {
    Arg::new(alloc, MARGINS)
        .long(MARGINS)
        .value_name(value_name(MARGINS))
        .action(ArgAction::Set)
        .value_delimiter(',')
        .value_parser(ValueParser::unsigned(1, 4_294_967_295))
        .help("The first and the last column that count; the others are blank")
}

// A command that compiles a source, which is told in this way.
fn with_source<'a>(command: Command<'a>, alloc: Global) -> Result<Command<'a>, AllocError> {
    command
        .arg(source(alloc))?
        .arg(messages(alloc))?
        .arg(margins(alloc))
}

// What a run is told beside what it runs.
fn with_run<'a>(command: Command<'a>, alloc: Global) -> Result<Command<'a>, AllocError> {
    let input = Arg::new(alloc, INPUT)
        .long(INPUT)
        .value_name(value_name(INPUT))
        .action(ArgAction::Set)
        .help("The file that the program reads; standard input without it");
    let bound = Arg::new(alloc, BOUND)
        .long(BOUND)
        .value_name(value_name(BOUND))
        .action(ArgAction::Set)
        .value_parser(value_parser!(u64))
        .default_value("1000000000")
        .help("The most instructions");
    let base = Arg::new(alloc, BASE)
        .long(BASE)
        .value_name(value_name(BASE))
        .action(ArgAction::Set)
        .value_parser(value_parser!(u32))
        .default_value("65536")
        .help("Where the program stands in the machine's memory");
    let trace = Arg::new(alloc, TRACE)
        .long(TRACE)
        .action(ArgAction::SetTrue)
        .help("Tells behind an error of each active block, newest first");
    command.arg(input)?.arg(bound)?.arg(base)?.arg(trace)
}

fn compile<'a>(alloc: Global) -> Result<Command<'a>, AllocError> {
    let output = Arg::new(alloc, OUTPUT)
        .short('o')
        .value_name(value_name(OUTPUT))
        .required(true)
        .action(ArgAction::Set)
        .help("The file that the image is written to");
    let command = Command::new(alloc, "compile").about("Compiles a source to an image");
    with_source(command, alloc)?.arg(output)
}

fn run<'a>(alloc: Global) -> Result<Command<'a>, AllocError> {
    let command = Command::new(alloc, "run").about("Compiles a source and runs it");
    with_run(with_source(command, alloc)?, alloc)
}

fn exec<'a>(alloc: Global) -> Result<Command<'a>, AllocError> {
    let image = Arg::new(alloc, IMAGE)
        .required(true)
        .action(ArgAction::Set)
        .help("The image");
    let command = Command::new(alloc, "exec")
        .about("Runs an image")
        .arg(image)?
        .arg(messages(alloc))?;
    with_run(command, alloc)
}

fn list<'a>(alloc: Global) -> Result<Command<'a>, AllocError> {
    let notes = Arg::new(alloc, NOTES)
        .long(NOTES)
        .action(ArgAction::SetTrue)
        .help("Procedures, labels, services and lines beside the words");
    let lines = Arg::new(alloc, LINES)
        .long(LINES)
        .action(ArgAction::SetTrue)
        .help("The source's lines before their words");
    let names = Arg::new(alloc, XREF)
        .long(XREF)
        .action(ArgAction::SetTrue)
        .help("Each declared name, with its place, kind and block, and where it is used");
    let command = Command::new(alloc, "list").about("Compiles a source and lists its code words");
    with_source(command, alloc)?
        .arg(notes)?
        .arg(lines)?
        .arg(names)
}

fn check<'a>(alloc: Global) -> Result<Command<'a>, AllocError> {
    let sources = Arg::new(alloc, SOURCE)
        .required(true)
        .num_args(1..)
        .action(ArgAction::Append)
        .help("The sources");
    Command::new(alloc, "check")
        .about("Tells of each source whether it is accepted")
        .arg(sources)?
        .arg(messages(alloc))?
        .arg(margins(alloc))
}

fn explain<'a>(alloc: Global) -> Result<Command<'a>, AllocError> {
    let words = Arg::new(alloc, WORD)
        .required(true)
        .num_args(1..)
        .action(ArgAction::Append)
        .help("A number or a name, or a form that is left out");
    Command::new(alloc, "explain")
        .about("Tells what a refusal, an error or a limit means, and what to do")
        .arg(words)
}

fn completions<'a>(alloc: Global) -> Result<Command<'a>, AllocError> {
    let shell = Arg::new(alloc, SHELL)
        .required(true)
        .action(ArgAction::Set)
        .value_parser(ValueParser::Names(&SHELLS))
        .help("The shell");
    Command::new(alloc, "completions")
        .about("Prints what a shell completes words by")
        .arg(shell)
}

/// `pli` with its subcommands.
pub fn command<'a>(alloc: Global) -> Result<Command<'a>, AllocError> {
    Command::new(alloc, "pli")
        .version("0.1.0")
        .about("Compiles whole-number PL/I to RV32IM and runs it")
        .subcommand_required(true)
        .subcommand(compile(alloc)?)?
        .subcommand(run(alloc)?)?
        .subcommand(exec(alloc)?)?
        .subcommand(list(alloc)?)?
        .subcommand(check(alloc)?)?
        .subcommand(explain(alloc)?)?
        .subcommand(Command::new(alloc, "man").about("Prints the page of the manual"))?
        .subcommand(completions(alloc)?)
}

/// What is said of columns that are no margins.
pub fn no_margins(alloc: Global) -> Result<clap::Error, AllocError> {
    command(alloc)?.error(
        ErrorKind::ValueValidation,
        "invalid value for '--margins <M,N>': two columns, the first not behind the last",
    )
}
