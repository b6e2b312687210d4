// What is declared: variables, labels and procedures, with what holds them.

use crate::above::Above;
use crate::names::Names;
use pli_language::declaration::{DeclareItem, DeclaredName};
use pli_language::expr::Name;
use pli_language::stmt::ProcedureHead;

/// A declared name with the item that it stands in.
#[derive(Clone, Copy)]
pub struct Variable<'a> {
    pub declared: &'a DeclaredName,
    pub item: &'a DeclareItem,
}

/// A variable with the structures that hold it.
#[derive(Drop)]
pub struct Held<'a> {
    pub variable: Variable<'a>,
    pub above: Above<'a>,
}

/// What a name is declared as.
#[derive(Drop)]
pub enum What<'a> {
    Variable(Held<'a>),
    Label,
    Procedure(&'a ProcedureHead),
}

/// A declaration of a block.
#[derive(Drop)]
pub struct Declaration<'a> {
    pub name: &'a Name,
    pub what: What<'a>,
}

/// A block: its number before those of the blocks around it, its procedure where it is one, and what it declares.
#[derive(Drop)]
pub struct Block<'a> {
    pub around: Vec<usize>,
    pub head: Option<&'a ProcedureHead>,
    pub names: Names<'a>,
}
