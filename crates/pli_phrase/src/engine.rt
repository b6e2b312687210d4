// Expressions and references, read with a loop over their tokens: what is open stands on a stack, so that nothing nests
// in the reader however deep the parentheses are.

ghost use Rattle.std.specs.Prelude.{◌≡◌, IfOk, List, [], ◌∷◌, ℕ, None, Some, slice_range};
ghost use Rattle.pli_language.specs.Tree as T;
ghost use Rattle.pli_language.specs.Spells.{place_of};
ghost use Rattle.pli_language.specs.View.{arguments_of, expr_of, name_of};
ghost use Rattle.pli_language.specs.declared.token.Kind.TheVariants as K;
ghost use Rattle.pli_phrase.specs.Tokens.{text_of};
ghost use Rattle.pli_phrase.specs.Answers.{Gives};
ghost use Rattle.pli_phrase.specs.Reading as R;
ghost use Rattle.pli_phrase.specs.View.{Absorbs, cursor_of, frame_of, frames_of, marks_of, newest, path_of, state_of, step_of};

use crate::build::{
    absent, arguments, bit, fetched, infix, listed, number, parenthesized, prefixed, referred, text,
};
use crate::cursor::{Cursor, Marks};
use crate::frame::{Frame, Path, Qualifier, State, Step};
use crate::stop::Stop;
use crate::text::text as text_value;
use crate::token::{named, place, spelling};
use pli_language::expr::{Arguments, Expr, InfixOp, Name, Place, PrefixOp};
use pli_language::token::{Kind, Symbol, Token};
use std::alloc::{AllocError, Global};

fn prefix_of(kind: Kind) -> Option<PrefixOp>
    ensures { result ≡ R.prefix_of kind }
{
    match kind {
        Kind::Symbol(Symbol::Plus) => Some(PrefixOp::Plus),
        Kind::Symbol(Symbol::Minus) => Some(PrefixOp::Minus),
        Kind::Symbol(Symbol::Not) => Some(PrefixOp::Not),
        _ => None,
    }
}

fn infix_of(kind: Kind) -> Option<InfixOp>
    ensures { result ≡ R.infix_of kind }
{
    match kind {
        Kind::Symbol(Symbol::Times) => Some(InfixOp::Multiply),
        Kind::Symbol(Symbol::Divide) => Some(InfixOp::Divide),
        Kind::Symbol(Symbol::Plus) => Some(InfixOp::Add),
        Kind::Symbol(Symbol::Minus) => Some(InfixOp::Subtract),
        Kind::Symbol(Symbol::Join) => Some(InfixOp::Join),
        Kind::Symbol(Symbol::Equal) => Some(InfixOp::Equal),
        Kind::Symbol(Symbol::NotEqual) => Some(InfixOp::NotEqual),
        Kind::Symbol(Symbol::Less) => Some(InfixOp::Less),
        Kind::Symbol(Symbol::Greater) => Some(InfixOp::Greater),
        Kind::Symbol(Symbol::LessOrEqual) => Some(InfixOp::LessOrEqual),
        Kind::Symbol(Symbol::GreaterOrEqual) => Some(InfixOp::GreaterOrEqual),
        Kind::Symbol(Symbol::And) => Some(InfixOp::And),
        Kind::Symbol(Symbol::Or) => Some(InfixOp::Or),
        _ => None,
    }
}

/// The number of an operator's level, from those that bind closest on.
fn level_of(op: InfixOp) -> u32
    ensures { result ≡ R.level_of op }
{
    match op {
        InfixOp::Multiply | InfixOp::Divide => 0,
        InfixOp::Add | InfixOp::Subtract => 1,
        InfixOp::Join => 2,
        InfixOp::Equal
        | InfixOp::NotEqual
        | InfixOp::Less
        | InfixOp::Greater
        | InfixOp::LessOrEqual
        | InfixOp::GreaterOrEqual => 3,
        InfixOp::And => 4,
        InfixOp::Or => 5,
    }
}

/// The operand of an open operator is complete before the next operator.
fn climbs(next: Option<InfixOp>, inner: InfixOp) -> bool
    ensures { result ≡ R.climbs next inner }
{
    match next {
        None => true,
        Some(op) => level_of(inner) <= level_of(op),
    }
}

/// An operand taken in by the frame around it, or both as they are.
#[derive(Drop)]
pub enum Absorbed {
    Up(Expr),
    Stays(Frame, Expr),
}

fn absorb(
    alloc: Global,
    next: Option<InfixOp>,
    frame: Frame,
    operand: Expr,
) -> Result<Absorbed, AllocError>
    ensures { IfOk result (λ c. Absorbs next (frame_of frame) (expr_of operand) c) }
{
    match frame {
        Frame::Before { op, place } => Ok(Absorbed::Up(prefixed(alloc, op, operand, place)?)),
        Frame::Between { op, left } => {
            if !climbs(next, op) {
                return Ok(Absorbed::Stays(Frame::Between { op, left }, operand));
            }
            Ok(Absorbed::Up(infix(alloc, op, left, operand)?))
        }
        frame => Ok(Absorbed::Stays(frame, operand)),
    }
}

/// The operand with the operators around it that bind at least as close as the next one, and the frames that are left.
#[tactic(auto, using(crate::proofs::Newest::newest_snoc, crate::proofs::Newest::newest_none))]
fn climbed(
    alloc: Global,
    next: Option<InfixOp>,
    frames: Vec<Frame>,
    operand: Expr,
) -> Result<(Vec<Frame>, Expr), AllocError>
    ensures { IfOk result (λ x. (frames_of x.0.items, expr_of x.1) ≡ R.climbed next (frames_of frames.items) (expr_of operand)) }
{
    let mut frames = frames;
    let mut operand = operand;
    while let Some(frame) = frames.pop() {
        match absorb(alloc, next, frame, operand)? {
            Absorbed::Up(taken) => operand = taken,
            Absorbed::Stays(frame, operand) => {
                frames.push(frame)?;
                return Ok((frames, operand));
            }
        }
    }
    Ok((frames, operand))
}

/// What stands behind an operand in an argument list.
#[tactic(auto, using(crate::proofs::Newest::newest_snoc, crate::proofs::Newest::newest_none))]
fn listing_read(
    alloc: Global,
    path: Path,
    name: Name,
    expressions: Vec<Expr>,
    frames: Vec<Frame>,
    operand: Expr,
    kind: Kind,
    marks: Marks,
) -> Result<Step, AllocError>
    ensures { IfOk result (λ x. step_of x ≡ R.closed (R.Listing (path_of path) (name_of name) (newest expr_of expressions.items) ∷ frames_of frames.items) (expr_of operand) kind (marks_of marks)) }
{
    let mut frames = frames;
    let mut expressions = expressions;
    match kind {
        Kind::Symbol(Symbol::Comma) => {
            expressions.push(operand)?;
            frames.push(Frame::Listing {
                path,
                name,
                expressions,
            })?;
            Ok(Step::On {
                state: State::ArgumentDue,
                frames,
                marks,
            })
        }
        Kind::Symbol(Symbol::CloseParenthesis) => {
            expressions.push(operand)?;
            let arguments = arguments(listed(alloc, expressions)?);
            Ok(Step::On {
                state: State::ArgumentsRead {
                    path,
                    name,
                    arguments,
                },
                frames,
                marks,
            })
        }
        _ => Ok(Step::Fails),
    }
}

/// What stands behind an operand in parentheses.
fn group_read(
    alloc: Global,
    place: Place,
    frames: Vec<Frame>,
    operand: Expr,
    kind: Kind,
    marks: Marks,
) -> Result<Step, AllocError>
    ensures { IfOk result (λ x. step_of x ≡ R.closed (R.Group place ∷ frames_of frames.items) (expr_of operand) kind (marks_of marks)) }
{
    match kind {
        Kind::Symbol(Symbol::CloseParenthesis) => Ok(Step::On {
            state: State::OperandRead {
                operand: parenthesized(alloc, operand, place)?,
            },
            frames,
            marks,
        }),
        _ => Ok(Step::Fails),
    }
}

/// What closes an operand.
#[tactic(auto, using(crate::proofs::Newest::newest_snoc, crate::proofs::Newest::newest_none))]
fn closed(
    alloc: Global,
    frames: Vec<Frame>,
    operand: Expr,
    kind: Kind,
    marks: Marks,
) -> Result<Step, AllocError>
    ensures { IfOk result (λ x. step_of x ≡ R.closed (frames_of frames.items) (expr_of operand) kind (marks_of marks)) }
{
    let mut frames = frames;
    match frames.pop() {
        None => Ok(Step::Ends {
            expression: operand,
            marks,
        }),
        Some(Frame::Alone) => Ok(Step::Ends {
            expression: operand,
            marks,
        }),
        Some(Frame::Group { place }) => group_read(alloc, place, frames, operand, kind, marks),
        Some(
            Frame::Listing {
                path,
                name,
                expressions,
            },
        ) => listing_read(alloc, path, name, expressions, frames, operand, kind, marks),
        Some(_) => Ok(Step::Fails),
    }
}

/// An operator behind an operand, which ends a reference that is read alone.
#[tactic(auto, using(crate::proofs::Newest::newest_snoc, crate::proofs::Newest::newest_none))]
fn operator_read(
    op: InfixOp,
    frames: Vec<Frame>,
    operand: Expr,
    kind: Kind,
    marks: Marks,
) -> Result<Step, AllocError>
    ensures { IfOk result (λ x. step_of x ≡ R.behind_operand (Some op) (frames_of frames.items) (expr_of operand) kind (marks_of marks)) }
{
    let mut frames = frames;
    match frames.pop() {
        None => {}
        Some(Frame::Alone) => {
            return Ok(Step::Ends {
                expression: operand,
                marks,
            });
        }
        Some(frame) => frames.push(frame)?,
    }
    frames.push(Frame::Between { op, left: operand })?;
    Ok(Step::On {
        state: State::OperandDue,
        frames,
        marks,
    })
}

/// Behind a complete operand.
fn operand_read(
    alloc: Global,
    operand: Expr,
    frames: Vec<Frame>,
    marks: Marks,
    kind: Kind,
) -> Result<Step, AllocError>
    ensures { IfOk result (λ x. step_of x ≡ R.operand_read (expr_of operand) (frames_of frames.items) (marks_of marks) kind) }
{
    let next = infix_of(kind);
    let (frames, operand) = climbed(alloc, next, frames, operand)?;
    match next {
        None => closed(alloc, frames, operand, kind, marks),
        Some(op) => operator_read(op, frames, operand, kind, marks),
    }
}

#[tactic(auto, using(crate::proofs::Newest::newest_snoc, crate::proofs::Newest::newest_none))]
pub fn no_path(alloc: Global) -> Path
    ensures { path_of result ≡ R.no_path }
{
    Path {
        locator: None,
        qualifiers: Vec::new(alloc),
    }
}

/// What stands before a name behind a point.
#[tactic(auto, using(crate::proofs::Newest::newest_snoc, crate::proofs::Newest::newest_none))]
fn with_qualifier(path: Path, name: Name, arguments: Arguments) -> Result<Path, AllocError>
    ensures { IfOk result (λ p. path_of p ≡ R.with_qualifier (path_of path) (name_of name) (arguments_of arguments)) }
{
    let mut path = path;
    path.qualifiers.push(Qualifier { name, arguments })?;
    Ok(path)
}

/// What stands before a name behind an arrow.
#[tactic(auto, using(crate::proofs::Newest::newest_snoc, crate::proofs::Newest::newest_none))]
fn with_locator(
    alloc: Global,
    path: Path,
    name: Name,
    arguments: Arguments,
) -> Result<Path, AllocError>
    ensures { IfOk result (λ p. path_of p ≡ R.with_locator (path_of path) (name_of name) (arguments_of arguments)) }
{
    let locator = referred(alloc, path, name, arguments)?;
    Ok(Path {
        locator: Some(locator),
        qualifiers: Vec::new(alloc),
    })
}

/// Behind a name with its arguments.
fn arguments_read(
    alloc: Global,
    path: Path,
    name: Name,
    arguments: Arguments,
    frames: Vec<Frame>,
    marks: Marks,
    kind: Kind,
) -> Result<Step, AllocError>
    ensures { IfOk result (λ x. step_of x ≡ R.arguments_read (path_of path) (name_of name) (arguments_of arguments) (frames_of frames.items) (marks_of marks) kind) }
{
    match kind {
        Kind::Symbol(Symbol::Point) => Ok(Step::On {
            state: State::NameDue {
                path: with_qualifier(path, name, arguments)?,
            },
            frames,
            marks,
        }),
        Kind::Symbol(Symbol::Arrow) => Ok(Step::On {
            state: State::NameDue {
                path: with_locator(alloc, path, name, arguments)?,
            },
            frames,
            marks,
        }),
        _ => {
            let operand = fetched(referred(alloc, path, name, arguments)?);
            operand_read(alloc, operand, frames, marks, kind)
        }
    }
}

/// Behind a name.
fn name_read(
    alloc: Global,
    path: Path,
    name: Name,
    frames: Vec<Frame>,
    marks: Marks,
    kind: Kind,
) -> Result<Step, AllocError>
    ensures { IfOk result (λ x. step_of x ≡ R.name_read (path_of path) (name_of name) (frames_of frames.items) (marks_of marks) kind) }
{
    match kind {
        Kind::Symbol(Symbol::OpenParenthesis) => Ok(Step::On {
            state: State::FirstDue { path, name },
            frames,
            marks,
        }),
        _ => arguments_read(alloc, path, name, absent(), frames, marks, kind),
    }
}

/// A text where an operand is due.
fn text_due(
    alloc: Global,
    source: &[u8],
    frames: Vec<Frame>,
    marks: Marks,
    token: &Token,
) -> Result<Step, AllocError>
    ensures { IfOk result (λ x. step_of x ≡ R.text_due (text_of (slice_range source.now token.now.start token.now.end)) (place_of token.now) (frames_of frames.items) (marks_of marks)) }
{
    match text_value(alloc, spelling(source, token))? {
        None => Ok(Step::Fails),
        Some(value) => Ok(Step::On {
            state: State::OperandRead {
                operand: text(value, place(token)),
            },
            frames,
            marks,
        }),
    }
}

/// A symbol where an operand is due.
#[tactic(auto, using(crate::proofs::Newest::newest_snoc, crate::proofs::Newest::newest_none))]
fn symbol_due(
    symbol: Symbol,
    frames: Vec<Frame>,
    marks: Marks,
    token: &Token,
) -> Result<Step, AllocError>
    ensures { IfOk result (λ x. (s : List ℕ) → step_of x ≡ R.operand_due s (frames_of frames.items) (marks_of marks) token.now (K.Symbol symbol)) }
{
    let mut frames = frames;
    match symbol {
        Symbol::OpenParenthesis => frames.push(Frame::Group {
            place: place(token),
        })?,
        _ => {
            let Some(op) = prefix_of(Kind::Symbol(symbol)) else {
                return Ok(Step::Fails);
            };
            frames.push(Frame::Before {
                op,
                place: place(token),
            })?;
        }
    }
    Ok(Step::On {
        state: State::OperandDue,
        frames,
        marks,
    })
}

/// Where an operand is due.
fn operand_due(
    alloc: Global,
    source: &[u8],
    frames: Vec<Frame>,
    marks: Marks,
    token: &Token,
) -> Result<Step, AllocError>
    ensures { IfOk result (λ x. step_of x ≡ R.operand_due source.now (frames_of frames.items) (marks_of marks) token.now token.now.kind) }
{
    let operand = match token.kind {
        Kind::Number(value) => number(value, place(token)),
        Kind::Bit(value) => bit(value, place(token)),
        Kind::Text => return text_due(alloc, source, frames, marks, token),
        Kind::Symbol(symbol) => return symbol_due(symbol, frames, marks, token),
        Kind::Name(word) => {
            return Ok(Step::On {
                state: State::NameRead {
                    path: no_path(alloc),
                    name: named(alloc, source, token, word)?,
                },
                frames,
                marks,
            });
        }
    };
    Ok(Step::On {
        state: State::OperandRead { operand },
        frames,
        marks,
    })
}

/// Where an argument is due.
fn argument_due(
    alloc: Global,
    source: &[u8],
    frames: Vec<Frame>,
    marks: Marks,
    token: &Token,
) -> Result<Step, AllocError>
    ensures { IfOk result (λ x. step_of x ≡ R.argument_due source.now (frames_of frames.items) (marks_of marks) token.now token.now.kind) }
{
    let marks = marks.argument(place(token))?;
    operand_due(alloc, source, frames, marks, token)
}

/// Where the first argument is due, or the parenthesis that closes the list.
#[tactic(auto, using(crate::proofs::Newest::newest_snoc, crate::proofs::Newest::newest_none))]
fn first_due(
    alloc: Global,
    source: &[u8],
    path: Path,
    name: Name,
    frames: Vec<Frame>,
    marks: Marks,
    token: &Token,
) -> Result<Step, AllocError>
    ensures { IfOk result (λ x. step_of x ≡ R.first_due source.now (path_of path) (name_of name) (frames_of frames.items) (marks_of marks) token.now token.now.kind) }
{
    let mut frames = frames;
    match token.kind {
        Kind::Symbol(Symbol::CloseParenthesis) => Ok(Step::On {
            state: State::ArgumentsRead {
                path,
                name,
                arguments: arguments(listed(alloc, Vec::new(alloc))?),
            },
            frames,
            marks,
        }),
        _ => {
            frames.push(Frame::Listing {
                path,
                name,
                expressions: Vec::new(alloc),
            })?;
            argument_due(alloc, source, frames, marks, token)
        }
    }
}

/// Where a name is due.
fn name_due(
    alloc: Global,
    source: &[u8],
    path: Path,
    frames: Vec<Frame>,
    marks: Marks,
    token: &Token,
) -> Result<Step, AllocError>
    ensures { IfOk result (λ x. step_of x ≡ R.name_due source.now (path_of path) (frames_of frames.items) (marks_of marks) token.now token.now.kind) }
{
    match token.kind {
        Kind::Name(word) => Ok(Step::On {
            state: State::NameRead {
                path,
                name: named(alloc, source, token, word)?,
            },
            frames,
            marks,
        }),
        _ => Ok(Step::Fails),
    }
}

/// One token.
fn step(
    alloc: Global,
    source: &[u8],
    state: State,
    frames: Vec<Frame>,
    marks: Marks,
    token: &Token,
) -> Result<Step, AllocError>
    ensures { IfOk result (λ x. step_of x ≡ R.step source.now (state_of state) (frames_of frames.items) (marks_of marks) token.now token.now.kind) }
{
    match state {
        State::OperandDue => operand_due(alloc, source, frames, marks, token),
        State::ArgumentDue => argument_due(alloc, source, frames, marks, token),
        State::FirstDue { path, name } => {
            first_due(alloc, source, path, name, frames, marks, token)
        }
        State::NameDue { path } => name_due(alloc, source, path, frames, marks, token),
        State::NameRead { path, name } => {
            name_read(alloc, path, name, frames, marks, token.kind)
        }
        State::ArgumentsRead {
            path,
            name,
            arguments,
        } => arguments_read(alloc, path, name, arguments, frames, marks, token.kind),
        State::OperandRead { operand } => operand_read(alloc, operand, frames, marks, token.kind),
    }
}

/// An operand where the tokens end.
#[tactic(auto, using(crate::proofs::Newest::newest_snoc, crate::proofs::Newest::newest_none))]
fn whole<'a>(
    alloc: Global,
    operand: Expr,
    frames: Vec<Frame>,
    cursor: Cursor<'a>,
) -> Result<(Expr, Cursor<'a>), Stop<'a>>
    requires { cursor.tokens.now ≡ [] }
    ensures { Gives (λ x. (expr_of x.0, cursor_of x.1)) result (R.whole (R.climbed None (frames_of frames.items) (expr_of operand)) (marks_of cursor.entry.marks)) }
{
    let (mut frames, operand) = climbed(alloc, None, frames, operand)?;
    match frames.pop() {
        None => Ok((operand, cursor)),
        Some(Frame::Alone) => Ok((operand, cursor)),
        Some(_) => Err(Stop::Ended),
    }
}

/// Where the tokens end.
fn ended<'a>(
    alloc: Global,
    state: State,
    frames: Vec<Frame>,
    cursor: Cursor<'a>,
) -> Result<(Expr, Cursor<'a>), Stop<'a>>
    requires { cursor.tokens.now ≡ [] }
    ensures { Gives (λ x. (expr_of x.0, cursor_of x.1)) result (R.ended (state_of state) (frames_of frames.items) (marks_of cursor.entry.marks)) }
{
    let operand = match state {
        State::OperandRead { operand } => operand,
        State::ArgumentsRead {
            path,
            name,
            arguments,
        } => fetched(referred(alloc, path, name, arguments)?),
        State::NameRead { path, name } => fetched(referred(alloc, path, name, absent())?),
        _ => return Err(Stop::Ended),
    };
    whole(alloc, operand, frames, cursor)
}

/// All that is read from a state and what is open around it.
#[tactic(auto, using(crate::proofs::Runs::run_step, crate::proofs::Runs::run_ends, crate::proofs::Runs::run_fails, crate::proofs::Runs::run_empty))]
pub fn run<'a>(
    alloc: Global,
    source: &[u8],
    state: State,
    frames: Vec<Frame>,
    cursor: Cursor<'a>,
) -> Result<(Expr, Cursor<'a>), Stop<'a>>
    ensures { Gives (λ x. (expr_of x.0, cursor_of x.1)) result (R.run source.now (state_of state) (frames_of frames.items) (marks_of cursor.entry.marks) cursor.entry.tokens.now) }
{
    let mut state = state;
    let mut frames = frames;
    let mut marks = cursor.marks;
    let mut rest = cursor.tokens;
    while let Some((first, behind)) = rest.split_first() {
        match step(alloc, source, state, frames, marks, first)? {
            Step::On {
                state: next,
                frames: around,
                marks: noted,
            } => {
                state = next;
                frames = around;
                marks = noted;
                rest = behind;
            }
            Step::Ends { expression, marks } => {
                return Ok((
                    expression,
                    Cursor {
                        tokens: rest,
                        marks,
                    },
                ));
            }
            Step::Fails => return Err(Stop::Stuck),
        }
    }
    ended(
        alloc,
        state,
        frames,
        Cursor {
            tokens: rest,
            marks,
        },
    )
}
