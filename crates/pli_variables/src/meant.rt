// What names mean in the blocks of a program, and which variables of level 1 they belong to.

ghost use Rattle.std.specs.Prelude.{◌≡◌, [], length, map, slice_get, IfOk};
ghost use Rattle.pli_typing.specs.Variables.{area_found, area_named, area_in, name_means, type_of, what_at};
ghost use Rattle.pli_typing.specs.Variables.{what_of as what_declared};
ghost use Rattle.pli_typing.specs.TypedView.{area_of, leaf_type_of, variable_of as variable_typed};
ghost use Rattle.pli_language.specs.View.{attribute_of, name_of, option_of};
ghost use Rattle.pli_declare.specs.Shown.{what_of};
ghost use Rattle.pli_declare.specs.ShownBlocks.{block_of};
ghost use Rattle.pli_variables.specs.Written.{all_shown};
ghost use Rattle.pli_variables.specs.Rows.{blocks_shown, is_area, row_shown, rows_before, rows_shown, variable_at, variables_among, variable_row};

use crate::extent::WrittenExtent;
use crate::kind::{area_name, type_with};
use crate::members::variables_in;
use crate::variable::variables_among;
use pli_declare::Scopes;
use pli_declare::scope::{Block, What};
use pli_declaring::attribute::{Row, has};
use pli_declaring::held::own_attributes;
use pli_language::declaration::Attribute;
use pli_language::expr::Name;
use pli_language::scope::{DeclarationAt, Found};
use pli_typing::typed::{LeafType, Variable};
use std::alloc::{AllocError, Global};

/// The scopes of a program, with the variable of level 1 that each of its variables is or belongs to.
#[derive(Drop)]
pub struct Meant<'m, 't, 'a> {
    pub scopes: &'t Scopes<'a>,
    pub variables: &'m [Vec<Option<Variable>>],
    ghost exact: { ∥ rows_shown variables.now ≡ rows_before (variable_row (blocks_shown scopes.now)) (length (blocks_shown scopes.now)) ∥₁ },
}

/// The variables of level 1 that the declarations of the block with this number are or belong to.
fn row_of_block(
    alloc: Global,
    block: &Block,
    number: usize,
) -> Result<Vec<Option<Variable>>, AllocError>
    ensures { IfOk result (λ v. row_shown v.items ≡ variables_among (block_of block.now) number) }
{
    let groups = variables_in(alloc, &block.names.declarations)?;
    variables_among(alloc, block, number, &groups)
}

/// Those of one of these blocks, by its number.
#[tactic(auto, using(crate::proofs::Tabled::variables))]
fn variable_row(
    alloc: Global,
    blocks: &[Block],
    number: usize,
) -> Result<Vec<Option<Variable>>, AllocError>
    ensures { IfOk result (λ v. row_shown v.items ≡ variable_row (map block_of blocks.now) number) }
{
    match blocks.get(number) {
        Some(block) => row_of_block(alloc, block, number),
        None => Ok(Vec::new(alloc)),
    }
}

/// Those of all blocks.
#[tactic(auto, using(crate::proofs::Tabled::variables))]
pub fn variable_rows(
    alloc: Global,
    blocks: &[Block],
) -> Result<Vec<Vec<Option<Variable>>>, AllocError>
    ensures { IfOk result (λ v. rows_shown v.items ≡ rows_before (variable_row (map block_of blocks.now)) (length (map block_of blocks.now))) }
{
    let mut out = Vec::new(alloc);
    for number in 0..blocks.len() {
        out.push(variable_row(alloc, blocks, number)?)?;
    }
    Ok(out)
}

impl<'m, 't, 'a> Meant<'m, 't, 'a> {
    /// The row of a block.
    #[tactic(auto, using(crate::proofs::Tabled::variables))]
    fn row(&self, block: usize) -> &[Option<Variable>]
        ensures { row_shown result.now ≡ variable_row (blocks_shown self.now.scopes.now) block }
    {
        if block < self.variables.len() {
            return &self.variables[block];
        }
        &[]
    }

    /// The variable of level 1 that a declared variable is or belongs to.
    #[tactic(auto, using(crate::proofs::Tabled::variables))]
    fn variable_at(&self, at: DeclarationAt) -> Option<Variable>
        ensures { option_of variable_typed result ≡ variable_at (blocks_shown self.now.scopes.now) at }
    {
        let row = self.row(at.block);
        if at.index < row.len() {
            return row[at.index];
        }
        None
    }

    /// What one name means in a block.
    pub fn name_means(&self, block: usize, name: &Name) -> Found
        ensures { result ≡ name_means (blocks_shown self.now.scopes.now) block (name_of name.now) }
    {
        self.scopes.find(block, &[name.letters.as_slice()])
    }

    /// What a declaration declares.
    pub fn what_at(&self, at: DeclarationAt) -> Option<&What<'a>>
        ensures { option_of (λ w. what_of w.now) result ≡ what_at (blocks_shown self.now.scopes.now) at }
    {
        what_at(self.scopes, at)
    }

    /// The area that is declared, if one is: areas are neither members nor arrays.
    #[tactic(auto, using(crate::proofs::Areas::areas))]
    fn area_at(&self, at: DeclarationAt) -> Option<Variable>
        ensures { area_of result ≡ area_in (blocks_shown self.now.scopes.now) at.block (what_at (blocks_shown self.now.scopes.now) at) }
    {
        if is_area(self.what_at(at)) {
            self.variable_at(at)
        } else {
            None
        }
    }

    /// The area that was found, if one was.
    pub fn area_found(&self, found: Found) -> Option<Variable>
        ensures { area_of result ≡ area_found (blocks_shown self.now.scopes.now) found }
    {
        match found {
            Found::One(at) => self.area_at(at),
            Found::None => None,
            Found::Ambiguous => None,
        }
    }

    /// The area that has this name in a block, if one is named and has.
    pub fn area_named(&self, block: usize, name: Option<&Name>) -> Option<Variable>
        ensures { area_of result ≡ area_named (blocks_shown self.now.scopes.now) block (option_of (λ n. name_of n.now) name.entry) }
    {
        match name {
            Some(name) => self.area_found(self.name_means(block, name)),
            None => None,
        }
    }

    /// The kind that attributes say, where their names are looked up from a block; FIXED where they say none.
    pub fn type_of(
        &self,
        block: usize,
        written: &[WrittenExtent],
        attributes: &[Attribute],
    ) -> LeafType
        ensures { leaf_type_of result ≡ type_of (blocks_shown self.now.scopes.now) block (all_shown written.now) (map attribute_of attributes.now) }
    {
        let area = self.area_named(block, area_name(attributes));
        type_with(written, attributes, area)
    }
}

/// What a declaration of a program declares.
pub fn what_at<'t, 'a>(scopes: &'t Scopes<'a>, at: DeclarationAt) -> Option<&'t What<'a>>
    ensures { option_of (λ w. what_of w.now) result ≡ what_at (blocks_shown scopes.now) at }
{
    match scopes.blocks.get(at.block) {
        Some(block) => what_in(block, at.index),
        None => None,
    }
}

/// What a declaration of a block declares.
fn what_in<'t, 'a>(block: &'t Block<'a>, index: usize) -> Option<&'t What<'a>>
    ensures { option_of (λ w. what_of w.now) result ≡ what_declared (slice_get (block_of block.now).declarations index) }
{
    match block.names.declarations.get(index) {
        Some(declaration) => Some(&declaration.what),
        None => None,
    }
}

/// An area is declared.
fn is_area(what: Option<&What>) -> bool
    ensures { result ≡ is_area (option_of (λ w. what_of w.now) what.entry) }
{
    match what {
        Some(What::Variable(held)) => has(Row::Area, own_attributes(held)),
        Some(What::Label) => false,
        Some(What::Procedure(_)) => false,
        None => false,
    }
}
