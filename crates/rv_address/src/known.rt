// A program with what is found once for all its variables: the table of signatures, in which equal ones have one number, and how many
// bytes of a frame stand before each.

ghost use Rattle.std.specs.Prelude.{◌≡◌, ◌≤◌, ◌++◌, ◌∷◌, [], length, map, unwrap_or, slice_get, IfOk, OnOk};
ghost use Rattle.rv_meaning.specs.Tables.{signature_words};
ghost use Rattle.pli_language.specs.Keywords.{same_bytes};
ghost use Rattle.pli_typing.specs.TypedView.{variable_of};
ghost use Rattle.pli_typing.specs.TypedStatementView.{declared_variable_of, program_of};
ghost use Rattle.pli_meaning.specs.DeclaredShapes.{variables_of_block};
ghost use Rattle.pli_coding.specs.Frames as form;
ghost use Rattle.pli_coding.specs.SignatureTable.{number_in_table, signature_of, table_of};
ghost use Rattle.pli_frames.specs.Parts.{parts};
ghost use Rattle.rv_address.specs.Rows.{items_of, number_at, numbers_in_words, numbers_of, place_in, rows_of, with_row, with_rows, with_words, words_of, number_rows, sums_from, sum_rows};

use crate::signature::signature_words;
use pli_frames::size::{LAST_PLACE, frame_bytes};
use pli_typing::statement::Typed;
use pli_typing::typed::{DeclaredVariable, Variable};
use std::alloc::{AllocError, Global};

/// A typed program with its table, each signature as its words, and for each variable its signature's number and the bytes before it.
#[derive(Drop)]
pub struct Known<'t, 'a> {
    pub typed: &'t Typed<'a>,
    table: Vec<Vec<u32>>,
    numbers: Vec<Vec<usize>>,
    sums: Vec<Vec<u32>>,
    ghost exact_table: { ∥ map items_of table.items ≡ words_of (table_of (program_of typed.now)) ∥₁ },
    ghost exact_numbers: { ∥ map items_of numbers.items ≡ numbers_of (program_of typed.now) ∥₁ },
    ghost exact_sums: { ∥ map items_of sums.items ≡ sum_rows (program_of typed.now).variables ∥₁ },
}

fn are_same(a: &[u32], b: &[u32]) -> bool
    ensures { result ≡ same_bytes a.now b.now }
{
    a == b
}

/// The place of a signature among those of the table, or the place behind them.
#[tactic(auto, using(crate::proofs::Tabled::this_place, crate::proofs::Tabled::next_place, std::proofs::lemmas::List::drop_all))]
fn place_in(words: &[u32], table: &[Vec<u32>]) -> usize
    ensures few { result ≤ length table.now }
    ensures place { result ≡ place_in words.now (map items_of table.now) }
{
    let mut place = 0;
    for one in table {
        if are_same(words, one) {
            return place;
        }
        place += 1;
    }
    place
}

/// A signature more, where the table has none like it.
#[tactic(auto, using(crate::proofs::Tabled::already_there, crate::proofs::Tabled::not_there))]
fn put_words(table: &mut Vec<Vec<u32>>, words: Vec<u32>) -> Result<(), AllocError>
    ensures { OnOk result (map items_of table.new.items ≡ with_words words.items (map items_of table.old.items)) }
{
    if place_in(&words, table) < table.len() {
        return Ok(());
    }
    table.push(words)?;
    Ok(())
}

#[tactic(auto, using(crate::proofs::Tabled::next_variable, std::proofs::lemmas::List::drop_all))]
fn put_row(
    alloc: Global,
    table: &mut Vec<Vec<u32>>,
    variables: &[DeclaredVariable],
) -> Result<(), AllocError>
    ensures { OnOk result (map items_of table.new.items ≡ with_row (map declared_variable_of variables.now) (map items_of table.old.items)) }
{
    for variable in variables {
        put_words(table, signature_words(alloc, variable)?)?;
    }
    Ok(())
}

#[tactic(auto, using(crate::proofs::Tabled::next_row, crate::proofs::Tabled::all_rows, std::proofs::lemmas::List::drop_all))]
fn table_of(alloc: Global, typed: &Typed) -> Result<Vec<Vec<u32>>, AllocError>
    ensures { IfOk result (λ t. map items_of t.items ≡ words_of (table_of (program_of typed.now))) }
{
    let mut table = Vec::new(alloc);
    let blocks = typed.variables.as_slice();
    for variables in blocks {
        put_row(alloc, &mut table, variables)?;
    }
    Ok(table)
}

#[tactic(auto, using(crate::proofs::Tabled::next_number, crate::proofs::Tabled::no_more, std::proofs::lemmas::List::drop_all))]
fn numbers_in(
    alloc: Global,
    table: &[Vec<u32>],
    variables: &[DeclaredVariable],
) -> Result<Vec<usize>, AllocError>
    ensures { IfOk result (λ n. n.items ≡ numbers_in_words (map items_of table.now) (map declared_variable_of variables.now)) }
{
    let mut numbers = Vec::new(alloc);
    for variable in variables {
        let words = signature_words(alloc, variable)?;
        numbers.push(place_in(&words, table))?;
    }
    Ok(numbers)
}

#[tactic(auto, using(crate::proofs::Tabled::next_numbers, crate::proofs::Tabled::no_more_rows, std::proofs::lemmas::List::drop_all))]
fn number_rows(
    alloc: Global,
    table: &[Vec<u32>],
    blocks: &[Vec<DeclaredVariable>],
) -> Result<Vec<Vec<usize>>, AllocError>
    ensures { IfOk result (λ n. map items_of n.items ≡ number_rows (map items_of table.now) (rows_of blocks.now)) }
{
    let mut rows = Vec::new(alloc);
    for variables in blocks {
        rows.push(numbers_in(alloc, table, variables)?)?;
    }
    Ok(rows)
}

/// The bytes of a frame before each variable of a block, and those of all.
#[tactic(auto, using(crate::proofs::Summed::next_sum, std::proofs::lemmas::List::drop_all))]
fn sums_in(alloc: Global, variables: &[DeclaredVariable]) -> Result<Vec<u32>, AllocError>
    ensures { IfOk result (λ s. s.items ≡ sums_from 0 (map declared_variable_of variables.now)) }
{
    let mut sums = Vec::new(alloc);
    let mut sum = 0;
    for variable in variables {
        sums.push(sum)?;
        sum = LAST_PLACE.min(u64::from(sum) + frame_bytes(variable)) as u32;
    }
    sums.push(sum)?;
    Ok(sums)
}

#[tactic(auto, using(crate::proofs::Summed::next_sums, crate::proofs::Tabled::no_more_rows, std::proofs::lemmas::List::drop_all))]
fn sum_rows(alloc: Global, blocks: &[Vec<DeclaredVariable>]) -> Result<Vec<Vec<u32>>, AllocError>
    ensures { IfOk result (λ r. map items_of r.items ≡ sum_rows (rows_of blocks.now)) }
{
    let mut rows = Vec::new(alloc);
    for variables in blocks {
        rows.push(sums_in(alloc, variables)?)?;
    }
    Ok(rows)
}

impl<'t, 'a> Known<'t, 'a> {
    /// A program with its table. Time is the product of the variables and the different signatures.
    pub fn new(alloc: Global, typed: &'t Typed<'a>) -> Result<Known<'t, 'a>, AllocError>
        ensures { IfOk result (λ k. k.typed.now ≡ typed.now) }
    {
        let table = table_of(alloc, typed)?;
        let numbers = number_rows(alloc, &table, &typed.variables)?;
        let sums = sum_rows(alloc, &typed.variables)?;
        Ok(Known {
            typed,
            table,
            numbers,
            sums,
        })
    }

    /// The words of each signature of the table, by its number.
    pub fn table(&self) -> &[Vec<u32>]
        ensures { map items_of result.now ≡ words_of (table_of (program_of self.now.typed.now)) }
    {
        self.table.as_slice()
    }

    /// The number of a variable's signature; of a variable that isn't declared it is want of memory.
    pub fn number(&self, variable: Variable) -> Result<usize, AllocError>
        ensures { IfOk result (λ n. n ≡ number_at (program_of self.now.typed.now) (variable_of variable)) }
    {
        if variable.block >= self.numbers.len() {
            return Err(AllocError);
        }
        let row = &self.numbers[variable.block];
        if variable.index >= row.len() {
            return Err(AllocError);
        }
        Ok(row[variable.index])
    }

    /// The place of a variable in its block's frame, where the first one stands at the start, in bytes; in a block that isn't declared it
    /// is want of memory.
    pub fn place(&self, start: u32, variable: Variable) -> Result<u32, AllocError>
        ensures { IfOk result (λ p. p ≡ form.variable_place parts start (variables_of_block (program_of self.now.typed.now) variable.block) variable.index) }
    {
        if variable.block >= self.sums.len() {
            return Err(AllocError);
        }
        let sums = &self.sums[variable.block];
        if variable.index == 0 {
            return Ok(start);
        }
        if sums.len() < 2 {
            return Ok(start);
        }
        let before = sums[variable.index.min(sums.len() - 1)];
        Ok(LAST_PLACE.min(u64::from(start) + u64::from(before)) as u32)
    }
}
