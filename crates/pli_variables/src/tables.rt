// The tables of a program, which are made once, so that each reference is looked up in constant time.

ghost use Rattle.std.specs.Prelude.{◌≡◌, [], length, map, slice_get, unwrap_or, None, IfOk};
ghost use Rattle.pli_typing.specs.Calls.{block_of_procedure, parameter_indices, result_type};
ghost use Rattle.pli_language.specs.Declaring.{names_of};
ghost use Rattle.pli_typing.specs.TypedView.{area_of, leaf_of as leaf_typed, leaf_type_of};
ghost use Rattle.pli_typing.specs.Variables.{area_found, area_named, declarations_at, head_of_block, leaves_of, level_of_block, name_means, type_of, variables_in, what_at};
ghost use Rattle.pli_language.specs.View.{attribute_of, name_of, option_of, procedure_head_of};
ghost use Rattle.pli_declare.specs.Shown.{held_of, what_of};
ghost use Rattle.pli_variables.specs.BlockTables.{block_table, table_of, table_or, variable_shape};
ghost use Rattle.pli_variables.specs.Held.{groups_held};
ghost use Rattle.pli_variables.specs.Procedures.{procedure_at};
ghost use Rattle.pli_variables.specs.Rows.{blocks_shown, rows_before, rows_shown, variable_row};
ghost use Rattle.pli_variables.specs.Shapes.{shape_at};
ghost use Rattle.pli_variables.specs.Written.{all_shown};
ghost use Rattle.pli_variables.specs.ShownShapes.{shape_of, shapes_shown};

use crate::block_table::{BlockTable, block_tables};
use crate::extent::{WrittenExtent, written_extents};
use crate::leaf::leaves_among;
use crate::meant::{Meant, variable_rows, what_at};
use crate::members::variables_in;
use crate::parameter::indices_of;
use crate::procedure::{block_of_procedure, returns_in};
use crate::shape::Shape;
use pli_declare::Scopes;
use pli_declare::scope::{Held, What};
use pli_language::declaration::Attribute;
use pli_language::expr::Name;
use pli_language::scope::{DeclarationAt, Found};
use pli_language::stmt::ProcedureHead;
use pli_typing::typed::{Leaf, LeafType, Variable};
use std::alloc::{AllocError, Global};

/// The scopes of a program, with what is looked up in them: the variable of level 1 that each declared variable is or belongs
/// to, and what is kept of each block.
#[derive(Drop)]
pub struct Tables<'t, 'a> {
    pub scopes: &'t Scopes<'a>,
    variables: Vec<Vec<Option<Variable>>>,
    blocks: Vec<BlockTable<'a>>,
    ghost exact_variables: { ∥ rows_shown variables.items ≡ rows_before (variable_row (blocks_shown scopes.now)) (length (blocks_shown scopes.now)) ∥₁ },
    ghost exact_blocks: { ∥ map table_of blocks.items ≡ rows_before (block_table (blocks_shown scopes.now)) (length (blocks_shown scopes.now)) ∥₁ },
}

/// One of these shapes, if it is there.
fn entry<'a, 'b>(shapes: &'b [Option<Shape<'a>>], index: usize) -> Option<&'b Shape<'a>>
    ensures { option_of (λ s. shape_of s.now) result ≡ unwrap_or (slice_get (shapes_shown shapes.now) index) None }
{
    match shapes.get(index) {
        Some(Some(shape)) => Some(shape),
        Some(None) => None,
        None => None,
    }
}

/// One of these numbers, if it is there.
fn number(numbers: &[Option<usize>], index: usize) -> Option<usize>
    ensures { result ≡ unwrap_or (slice_get numbers.now index) None }
{
    match numbers.get(index) {
        Some(number) => *number,
        None => None,
    }
}

impl<'t, 'a> Tables<'t, 'a> {
    /// The tables of a program.
    pub fn new(alloc: Global, scopes: &'t Scopes<'a>) -> Result<Tables<'t, 'a>, AllocError>
        ensures { IfOk result (λ t. t.scopes.now ≡ scopes.now) }
    {
        let variables = variable_rows(alloc, &scopes.blocks)?;
        let meant = Meant {
            scopes,
            variables: &variables,
        };
        let blocks = block_tables(alloc, &meant)?;
        Ok(Tables {
            scopes,
            variables,
            blocks,
        })
    }

    /// What names mean, by these tables.
    fn meant(&self) -> Meant<'_, 't, 'a>
        ensures { result.scopes.now ≡ self.now.scopes.now }
    {
        Meant {
            scopes: self.scopes,
            variables: &self.variables,
        }
    }

    /// What is kept of a block.
    fn block(&self, block: usize) -> Option<&BlockTable<'a>>
        ensures { table_or (option_of (λ t. table_of t.now) result) ≡ block_table (blocks_shown self.now.scopes.now) block }
    {
        match self.blocks.get(block) {
            Some(table) => Some(table),
            None => None,
        }
    }

    /// The shape of what is declared, if it is a variable.
    #[tactic(auto, using(crate::proofs::Shaped::shapes))]
    pub fn shape_at(&self, at: DeclarationAt) -> Option<&Shape<'a>>
        ensures { option_of (λ s. shape_of s.now) result ≡ shape_at (blocks_shown self.now.scopes.now) at }
    {
        match self.block(at.block) {
            Some(table) => entry(&table.declared, at.index),
            None => None,
        }
    }

    /// The shape of the variable of level 1 with this place among those of a block, if there is one.
    #[tactic(auto, using(crate::proofs::Shaped::shapes))]
    pub fn variable_shape(&self, block: usize, index: usize) -> Option<&Shape<'a>>
        ensures { option_of (λ s. shape_of s.now) result ≡ variable_shape (blocks_shown self.now.scopes.now) block index }
    {
        match self.block(block) {
            Some(table) => entry(&table.variables, index),
            None => None,
        }
    }

    /// What a declaration declares.
    pub fn what_at(&self, at: DeclarationAt) -> Option<&What<'a>>
        ensures { option_of (λ w. what_of w.now) result ≡ what_at (blocks_shown self.now.scopes.now) at }
    {
        what_at(self.scopes, at)
    }

    /// What one name means in a block.
    pub fn name_means(&self, block: usize, name: &Name) -> Found
        ensures { result ≡ name_means (blocks_shown self.now.scopes.now) block (name_of name.now) }
    {
        self.scopes.find(block, &[name.letters.as_slice()])
    }

    /// How many blocks hold a block, but for the whole program.
    pub fn level_of_block(&self, block: usize) -> usize
        ensures { result ≡ level_of_block (blocks_shown self.now.scopes.now) block }
    {
        match self.scopes.blocks.get(block) {
            Some(found) => found.around.len().saturating_sub(2),
            None => 0,
        }
    }

    /// The area that has this name in a block, if one is named and has.
    pub fn area_named(&self, block: usize, name: Option<&Name>) -> Option<Variable>
        ensures { area_of result ≡ area_named (blocks_shown self.now.scopes.now) block (option_of (λ n. name_of n.now) name.entry) }
    {
        let meant = self.meant();
        meant.area_named(block, name)
    }

    /// The area that was found, if one was.
    pub fn area_found(&self, found: Found) -> Option<Variable>
        ensures { area_of result ≡ area_found (blocks_shown self.now.scopes.now) found }
    {
        let meant = self.meant();
        meant.area_found(found)
    }

    /// The kind that attributes say, where their names are looked up from a block; FIXED where they say none.
    pub fn type_of(
        &self,
        block: usize,
        written: &[WrittenExtent],
        attributes: &[Attribute],
    ) -> LeafType
        ensures { leaf_type_of result ≡ type_of (blocks_shown self.now.scopes.now) block (all_shown written.now) (map attribute_of attributes.now) }
    {
        let meant = self.meant();
        meant.type_of(block, written, attributes)
    }

    /// What a procedure returns; a name among the attributes is looked up from the block that declares the procedure.
    pub fn result_type(&self, holder: usize, head: &ProcedureHead) -> Option<LeafType>
        ensures { option_of leaf_type_of result ≡ result_type (blocks_shown self.now.scopes.now) holder (procedure_head_of head.now) }
    {
        match returns_in(&head.options) {
            Some(attributes) => Some(self.type_of(holder, &[], attributes)),
            None => None,
        }
    }

    /// The number of the block of the procedure that is declared, if one is, by its declaration.
    #[tactic(auto, using(crate::proofs::Shaped::shapes))]
    pub fn procedure_at(&self, at: DeclarationAt) -> Option<usize>
        ensures { result ≡ procedure_at (blocks_shown self.now.scopes.now) at }
    {
        match self.block(at.block) {
            Some(table) => number(&table.procedures, at.index),
            None => None,
        }
    }

    /// The number of a procedure's block, which is looked for among all.
    pub fn block_of_procedure(&self, head: &ProcedureHead) -> usize
        ensures { result ≡ block_of_procedure (blocks_shown self.now.scopes.now) (procedure_head_of head.now) }
    {
        block_of_procedure(&self.scopes.blocks, head)
    }

    /// The variables of level 1 of a block, each with its members.
    pub fn variables(&self, alloc: Global, block: usize) -> Result<Vec<Vec<Held<'a>>>, AllocError>
        ensures { IfOk result (λ v. groups_held v.items ≡ variables_in (declarations_at (blocks_shown self.now.scopes.now) block)) }
    {
        match self.scopes.blocks.get(block) {
            Some(found) => variables_in(alloc, &found.names.declarations),
            None => Ok(Vec::new(alloc)),
        }
    }

    /// The places of a procedure's parameters among the variables of level 1 of its block; none where it is another block.
    #[tactic(auto, using(crate::proofs::Shaped::shapes))]
    pub fn parameters(&self, block: usize) -> &[usize]
        ensures { result.now ≡ parameter_indices (blocks_shown self.now.scopes.now) block (names_of (head_of_block (slice_get (blocks_shown self.now.scopes.now) block))) }
    {
        let Some(table) = self.block(block) else {
            return &[];
        };
        &table.parameters
    }

    /// The places of parameters with these names among the variables of level 1 of a block.
    pub fn parameter_indices(
        &self,
        alloc: Global,
        block: usize,
        names: &[Name],
    ) -> Result<Vec<usize>, AllocError>
        ensures { IfOk result (λ v. v.items ≡ parameter_indices (blocks_shown self.now.scopes.now) block (map name_of names.now)) }
    {
        let groups = self.variables(alloc, block)?;
        indices_of(alloc, &groups, names)
    }

    /// The leaves of these members of a variable of a block.
    pub fn leaves_of(
        &self,
        alloc: Global,
        block: usize,
        all: &[Held<'a>],
        members: &[Held<'a>],
    ) -> Result<Vec<Leaf<'a>>, AllocError>
        ensures { IfOk result (λ v. map leaf_typed v.items ≡ leaves_of (blocks_shown self.now.scopes.now) block (map held_of all.now) (map held_of members.now)) }
    {
        let written = written_extents(alloc, all)?;
        let meant = self.meant();
        leaves_among(alloc, &meant, block, &written, members)
    }
}
