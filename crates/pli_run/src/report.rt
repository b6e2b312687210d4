// How a run is told: an exit status, and a line where it didn't finish.

ghost use Rattle.std.specs.Prelude.{◌≡◌, Some};
ghost use Rattle.pli_run.specs.declared.report.Line.TheVariants.{Unread, Unwritten};
ghost use Rattle.pli_run.specs.Reporting.{end_line, end_status, image_line, is_error, line_of, refusal_line};
ghost use Rattle.pli_run.specs.Reporting.{refusal_status};
ghost use Rattle.pli_run.specs.Reporting.{status_of};

use crate::run::RunFault;
use pli_activations::block::{Block, BlockKind};
use pli_language::fault::{SourceFault, SourceKind};
use pli_meaning::outcome::{End, Limit, Outcome};
use rv_meaning::image::ImageFault;
use rv_meaning::instr::Fault;
use std::fmt;

/// Why there is no program that finished.
#[derive(Clone, Copy, Debug)]
pub enum Line<'a> {
    /// The program ended with an error, by its code and its line.
    Error { code: u16, line: u32 },
    /// The source is refused.
    Source(SourceFault),
    /// The bytes are no image.
    Image(ImageFault),
    /// As many instructions as were allowed are done.
    Bound,
    /// An instruction can't be carried out.
    Machine(Fault),
    Memory,
    /// The base can't hold an image.
    Base,
    /// The program passed a limit of its storage.
    Limit(Limit),
    /// A file that can't be read, by its name, or `stdin`.
    Unread(&'a str),
    /// A file that can't be written, by its name, or `stdout`.
    Unwritten(&'a str),
}

// A file's name, with its control characters escaped, so that what is told of it stays one line.
#[derive(Clone, Copy, Debug)]
struct FileName<'a>(&'a str);

impl fmt::Display for FileName<'_> {
    fn fmt<W: fmt::Write>(&self, f: &mut fmt::Formatter<W>) -> fmt::Result {
        for character in self.0.chars() {
            if character.is_control() {
                write!(f, "{}", character.escape_default())?;
            } else {
                write!(f, "{character}")?;
            }
        }
        Ok(())
    }
}

impl fmt::Display for Line<'_> {
    fn fmt<W: fmt::Write>(&self, f: &mut fmt::Formatter<W>) -> fmt::Result {
        match self {
            Line::Error { code, line } => write!(f, "ERROR {code} AT LINE {line}"),
            Line::Source(fault) => write!(f, "{fault}"),
            Line::Image(fault) => write!(f, "IMAGE {fault}"),
            Line::Bound => write!(f, "BOUND REACHED"),
            Line::Machine(fault) => {
                let number = *fault as u8;
                write!(f, "MACHINE {number} {fault:?}")
            }
            Line::Memory => write!(f, "MEMORY"),
            Line::Base => write!(f, "BASE"),
            Line::Limit(Limit::Depth) => write!(f, "LIMIT DEPTH"),
            Line::Limit(Limit::Automatic) => write!(f, "LIMIT AUTOMATIC"),
            Line::Unread(name) => write!(f, "CANNOT READ {}", FileName(name)),
            Line::Unwritten(name) => write!(f, "CANNOT WRITE {}", FileName(name)),
        }
    }
}

/// A block that is active, told by the line at which it was called, raised or begun. Nothing but the main procedure is
/// called at line 0.
#[derive(Clone, Copy, Debug)]
pub struct Active(pub Block);

impl fmt::Display for Active {
    fn fmt<W: fmt::Write>(&self, f: &mut fmt::Formatter<W>) -> fmt::Result {
        let Block { kind, line, .. } = self.0;
        match kind {
            BlockKind::Procedure if line == 0 => write!(f, "MAIN PROCEDURE"),
            BlockKind::Procedure => write!(f, "PROCEDURE CALLED AT LINE {line}"),
            BlockKind::Begin => write!(f, "BEGIN AT LINE {line}"),
            BlockKind::OnUnit { code, .. } => write!(f, "ON-UNIT FOR {code} AT LINE {line}"),
        }
    }
}

/// An exit status, with the line that explains it where it isn't 0.
#[derive(Clone, Copy, Debug)]
pub struct Notice<'a> {
    pub status: u8,
    pub line: Option<Line<'a>>,
}

/// What is told of a run, with the names of its input and its output: 0 where the program finished or stopped, 1 for an
/// error, 2 for a refused source, 3 at the bound, 4 where it can't be run or run on, 5 at a limit of storage.
pub fn report<'a>(ran: &Result<Outcome, RunFault>, input: &'a str, output: &'a str) -> Notice<'a>
    ensures status { result.status ≡ status_of ran.now }
    ensures line { result.line ≡ line_of (Unread input.entry) (Unwritten output.entry) ran.now }
{
    match ran {
        Ok(outcome) => ended(outcome.end),
        Err(RunFault::Source(fault)) => refused_source(*fault),
        Err(RunFault::Memory { .. }) => failed(Line::Memory),
        Err(RunFault::BadBase) => failed(Line::Base),
        Err(RunFault::Read { .. }) => unread(input),
        Err(RunFault::Write { .. }) => unwritten(output),
        Err(RunFault::Machine { fault, .. }) => failed(Line::Machine(*fault)),
    }
}

/// Whether a run ended with an error: its blocks may be told then.
pub fn is_error(ran: &Result<Outcome, RunFault>) -> bool
    ensures { result ≡ is_error ran.now }
{
    match ran {
        Ok(outcome) => matches!(outcome.end, End::Error { .. }),
        Err(_) => false,
    }
}

/// What is told of an image that is refused, or for which there is no memory.
pub fn refused_image(fault: ImageFault) -> Notice<'static>
    ensures status { result.status ≡ 4 }
    ensures line { result.line ≡ Some (image_line fault) }
{
    match fault {
        ImageFault::Memory => failed(Line::Memory),
        _ => failed(Line::Image(fault)),
    }
}

/// What is told of a file that can't be read, by its name, or of `stdin`.
pub fn unread(name: &str) -> Notice<'_>
    ensures status { result.status ≡ 4 }
    ensures line { result.line ≡ Some (Unread name.entry) }
{
    failed(Line::Unread(name))
}

/// What is told of a file that can't be written, by its name, or of `stdout`.
pub fn unwritten(name: &str) -> Notice<'_>
    ensures status { result.status ≡ 4 }
    ensures line { result.line ≡ Some (Unwritten name.entry) }
{
    failed(Line::Unwritten(name))
}

fn ended(end: End) -> Notice<'static>
    ensures status { result.status ≡ end_status end }
    ensures line { result.line ≡ end_line end }
{
    match end {
        End::Finished | End::Stopped => Notice {
            status: 0,
            line: None,
        },
        End::Error { code, line } => told(1, Line::Error { code, line }),
        End::Running => told(3, Line::Bound),
        End::Limit(limit) => told(5, Line::Limit(limit)),
    }
}

/// What is told of a source that is refused, or for which there is no memory.
pub fn refused_source(fault: SourceFault) -> Notice<'static>
    ensures status { result.status ≡ refusal_status fault.kind }
    ensures line { result.line ≡ Some (refusal_line fault fault.kind) }
{
    match fault.kind {
        SourceKind::Memory => failed(Line::Memory),
        _ => told(2, Line::Source(fault)),
    }
}

fn failed(line: Line<'_>) -> Notice<'_>
    ensures status { result.status ≡ 4 }
    ensures line { result.line ≡ Some line.entry }
{
    told(4, line)
}

fn told(status: u8, line: Line<'_>) -> Notice<'_>
    ensures status { result.status ≡ status }
    ensures line { result.line ≡ Some line.entry }
{
    Notice {
        status,
        line: Some(line),
    }
}
