// The names that a source declares.

ghost use Rattle.std.specs.Prelude.{◌≡◌, ◌++◌, map, IfOk, OnOk};
ghost use Rattle.pli_language.specs.View.{tree_of};
ghost use Rattle.pli_declare.specs.Shown.{declaration_of, what_of};
ghost use Rattle.pli_declare.specs.ShownBlocks.{block_of};
ghost use Rattle.pli_listing.specs.Names.{kind_of, cross_reference, declared_row, declared_rows, rows, row_of};

use crate::mention_statement::mentions;
use crate::uses::{Use, lines_of, uses};
use pli_declare::Scopes;
use pli_declare::scope::{Block, Declaration, What};
use pli_language::expr::Name;
use pli_language::scope::DeclarationAt;
use pli_language::stmt::Tree;
use std::alloc::{AllocError, Global};

/// What a name is declared as. A member is a variable that a structure holds.
#[derive(Clone, Copy, PartialEq, Eq, Debug)]
pub enum Kind {
    Variable,
    Member,
    Label,
    Procedure,
}

impl Kind {
    fn word(self) -> &'static str {
        match self {
            Kind::Variable => "variable",
            Kind::Member => "member",
            Kind::Label => "label",
            Kind::Procedure => "procedure",
        }
    }
}

/// A declared name with its place, what it is declared as, the number of the block that declares it, and the lines
/// where it is used.
#[derive(Drop)]
pub struct Row<'a> {
    pub block: usize,
    pub name: &'a Name,
    pub kind: Kind,
    pub lines: Vec<u32>,
}

fn kind_of(what: &What) -> Kind
    ensures { result ≡ kind_of (what_of what.now) }
{
    match what {
        What::Variable(held) if held.above.count() == 0 => Kind::Variable,
        What::Variable(_) => Kind::Member,
        What::Label => Kind::Label,
        What::Procedure(_) => Kind::Procedure,
    }
}

fn declared_row<'a>(
    alloc: Global,
    uses: &[Use],
    at: DeclarationAt,
    declaration: &Declaration<'a>,
) -> Result<Row<'a>, AllocError>
    ensures { IfOk result (λ r. row_of r ≡ declared_row uses.now at (declaration_of declaration.now)) }
{
    Ok(Row {
        block: at.block,
        name: declaration.name,
        kind: kind_of(&declaration.what),
        lines: lines_of(alloc, uses, at)?,
    })
}

// The rows of what a block declares.
#[tactic(auto, using(crate::proofs::Rows::gathered))]
fn push_rows<'a>(
    alloc: Global,
    rows: &mut Vec<Row<'a>>,
    uses: &[Use],
    block: usize,
    declarations: &[Declaration<'a>],
) -> Result<(), AllocError>
    ensures { OnOk result (map row_of rows.new.items ≡
        map row_of rows.old.items ++ declared_rows uses.now block 0 (map declaration_of declarations.now)) }
{
    let mut index: usize = 0;
    for declaration in declarations {
        let at = DeclarationAt { block, index };
        rows.push(declared_row(alloc, uses, at, declaration)?)?;
        index += 1;
    }
    Ok(())
}

/// What blocks declare, by the numbers of the blocks, and in each block in the order of the source, with the lines of
/// these uses.
#[tactic(auto, using(crate::proofs::Rows::gathered))]
pub fn rows_of<'a>(
    alloc: Global,
    uses: &[Use],
    blocks: &[Block<'a>],
) -> Result<Vec<Row<'a>>, AllocError>
    ensures { IfOk result (λ v. map row_of v.items ≡ rows uses.now (map block_of blocks.now)) }
{
    let mut rows = Vec::new(alloc);
    let mut number: usize = 0;
    for block in blocks {
        push_rows(alloc, &mut rows, uses, number, &block.names.declarations)?;
        number += 1;
    }
    Ok(rows)
}

/// What a program declares, with the lines where it is used, by its tree and the scopes of that.
pub fn cross_reference<'a>(
    alloc: Global,
    tree: &Tree,
    scopes: &Scopes<'a>,
) -> Result<Vec<Row<'a>>, AllocError>
    ensures { IfOk result (λ v. map row_of v.items ≡
        cross_reference (tree_of tree.now) (map block_of scopes.now.blocks.items)) }
{
    let mentions = mentions(alloc, tree)?;
    let uses = uses(alloc, scopes, &mentions)?;
    rows_of(alloc, &uses, &scopes.blocks)
}

// The letters of a source's name, which are ASCII.
fn push_letters(text: &mut String, letters: &[u8]) -> Result<(), AllocError> {
    for letter in letters {
        text.push(char::from(*letter))?;
    }
    Ok(())
}

// How a reader knows a block: by its procedure's first label, where it is one.
fn push_block(text: &mut String, block: Option<&Block<'_>>) -> Result<(), AllocError> {
    match block.and_then(|block| block.head) {
        Some(head) => match head.labels.first() {
            Some(name) => push_letters(text, &name.letters),
            None => Ok(()),
        },
        None => text.push_str("BEGIN"),
    }
}

// The lines where a name is used, where there are some.
fn push_lines(text: &mut String, lines: &[u32]) -> Result<(), AllocError> {
    for (i, line) in lines.iter().enumerate() {
        match i {
            0 => write!(text, ", used {line}")?,
            _ => write!(text, " {line}")?,
        }
    }
    Ok(())
}

/// A line for each declared name: its place, the name, what it is, the block that declares it, and the lines where it
/// is used.
pub fn names_text(alloc: Global, tree: &Tree, scopes: &Scopes<'_>) -> Result<String, AllocError> {
    let mut text = String::new(alloc);
    let rows = cross_reference(alloc, tree, scopes)?;
    for row in &rows {
        let place = row.name.place;
        write!(text, "{}:{} ", place.line, place.column)?;
        push_letters(&mut text, &row.name.letters)?;
        write!(text, " {} in ", row.kind.word())?;
        push_block(&mut text, scopes.blocks.get(row.block))?;
        push_lines(&mut text, &row.lines)?;
        text.push('\n')?;
    }
    Ok(text)
}
