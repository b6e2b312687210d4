// STATIC data against its limit.

ghost use Rattle.std.specs.Prelude.{◌≡◌, ◌+◌, ◌++◌, map, nat_lt, not, OnOk, IfOk};
ghost use Rattle.std.specs.List.{flat_map, sum_by};
ghost use Rattle.pli_language.specs.Declaring.{data_of_members, footprint_of, held_is, most_static, of_member, stands_alone, static_at, static_faults, statics_in, own_data, taken_up_to};
ghost use Rattle.pli_language.specs.Refusals.{soonest};
ghost use Rattle.pli_declare.specs.Shown.{declaration_of, held_of, what_of};
ghost use Rattle.pli_declare.specs.ShownBlocks.{block_of};
ghost use Rattle.pli_declaring.specs.Bytes.{capped};
ghost use Rattle.pli_declaring.specs.Statics.{capped_all, counted, taken_of};

use crate::attribute::{Row, has};
use crate::held::{own_attributes, stands_alone};
use crate::least::{fault, is_before, noted};
use crate::storage::{footprint, own_data, plus};
use pli_declare::scope::{Block, Declaration, Held, What};
use pli_language::expr::Place;
use pli_language::fault::{SourceFault, SourceKind};
use std::alloc::{AllocError, Global};

/// What STATIC data may take.
const LIMIT: u64 = 1_048_576;

/// A STATIC variable of level 1: where its name stands, and the bytes that it takes.
#[derive(Clone, Copy)]
pub struct Taken {
    pub place: Place,
    pub bytes: u64,
}

/// The data of what is declared, if it is a member.
fn of_member(what: &What, after: &[Declaration]) -> u64
    ensures { result ≡ capped (of_member (what_of what.now) (map declaration_of after.now)) }
{
    match what {
        What::Variable(held) if stands_alone(held) => 0,
        What::Variable(held) => own_data(held, after),
        What::Label => 0,
        What::Procedure(_) => 0,
    }
}

/// A member is declared.
fn is_member(what: &What) -> bool
    ensures { result ≡ held_is (λ h. not (stands_alone h)) (what_of what.now) }
{
    match what {
        What::Variable(held) => !stands_alone(held),
        What::Label => false,
        What::Procedure(_) => false,
    }
}

/// The data of the members that these begin with.
#[tactic(auto, using(crate::proofs::Bytes::steps))]
fn data_of_members(declarations: &[Declaration]) -> u64
    ensures { result ≡ capped (data_of_members (map declaration_of declarations.now)) }
{
    let mut bytes = 0;
    for (i, declaration) in declarations.iter().enumerate() {
        bytes = plus(bytes, of_member(&declaration.what, &declarations[i + 1..]));
        if !is_member(&declaration.what) {
            return bytes;
        }
    }
    bytes
}

/// What a STATIC variable of level 1 takes, with what is declared behind it.
fn taken_by(held: &Held, after: &[Declaration]) -> u64
    ensures { result ≡ capped (footprint_of (own_data (held_of held.now) (map declaration_of after.now) + data_of_members (map declaration_of after.now))) }
{
    footprint(plus(own_data(held, after), data_of_members(after)))
}

/// Puts a declaration, where it is a STATIC variable of level 1.
fn put_static(
    out: &mut Vec<Taken>,
    declaration: &Declaration,
    after: &[Declaration],
) -> Result<(), AllocError>
    ensures { OnOk result (map taken_of out.new.items ≡ map taken_of out.old.items ++ capped_all (static_at (declaration_of declaration.now) (map declaration_of after.now) (what_of declaration.now.what))) }
{
    match &declaration.what {
        What::Variable(held) => {
            if stands_alone(held) && has(Row::Static, own_attributes(held)) {
                let place = declaration.name.place;
                let bytes = taken_by(held, after);
                out.push(Taken { place, bytes })?;
            }
            Ok(())
        }
        What::Label => Ok(()),
        What::Procedure(_) => Ok(()),
    }
}

/// Puts the STATIC variables of a block.
fn put_statics(out: &mut Vec<Taken>, declarations: &[Declaration]) -> Result<(), AllocError>
    ensures { OnOk result (map taken_of out.new.items ≡ map taken_of out.old.items ++ capped_all (statics_in (map declaration_of declarations.now))) }
{
    for (i, declaration) in declarations.iter().enumerate() {
        put_static(out, declaration, &declarations[i + 1..])?;
    }
    Ok(())
}

/// The STATIC variables of blocks.
pub fn statics_of(alloc: Global, blocks: &[Block]) -> Result<Vec<Taken>, AllocError>
    ensures { IfOk result (λ v. map taken_of v.items ≡ capped_all (flat_map (λ b. statics_in b.declarations) (map block_of blocks.now))) }
{
    let mut out = Vec::new(alloc);
    for block in blocks {
        put_statics(&mut out, &block.names.declarations)?;
    }
    Ok(out)
}

/// What a variable takes, where it doesn't stand behind the place.
fn counted(place: Place, taken: Taken) -> u64
    ensures { result ≡ counted place (taken_of taken) }
{
    let here = fault(place, SourceKind::TooLarge);
    if is_before(here, fault(taken.place, SourceKind::TooLarge)) {
        return 0;
    }
    taken.bytes
}

/// What those take that don't stand behind a place.
#[tactic(auto, using(crate::proofs::Bytes::steps))]
fn taken_up_to(place: Place, statics: &[Taken]) -> u64
    ensures { result ≡ capped (taken_up_to place (map taken_of statics.now)) }
{
    let mut bytes = 0;
    for taken in statics {
        bytes = plus(bytes, counted(place, *taken));
    }
    bytes
}

/// What all take.
#[tactic(auto, using(crate::proofs::Bytes::steps))]
fn taken_by_all(statics: &[Taken]) -> u64
    ensures { result ≡ capped (sum_by (λ s. s.1) (map taken_of statics.now)) }
{
    let mut bytes = 0;
    for taken in statics {
        bytes = plus(bytes, taken.bytes);
    }
    bytes
}

/// STATIC data passes its limit with the variable at a place.
fn is_past_limit(place: Place, statics: &[Taken]) -> bool
    ensures { result ≡ nat_lt most_static (taken_up_to place (map taken_of statics.now)) }
{
    taken_up_to(place, statics) > LIMIT
}

/// All STATIC data fits.
fn is_all_within(statics: &[Taken]) -> bool
    ensures { result ≡ not (nat_lt most_static (sum_by (λ s. s.1) (map taken_of statics.now))) }
{
    taken_by_all(statics) <= LIMIT
}

/// The least of the names with which STATIC data passes its limit.
#[tactic(auto, using(crate::proofs::Faults::steps))]
pub fn noted_statics(found: Option<SourceFault>, statics: &[Taken]) -> Option<SourceFault>
    ensures { result ≡ soonest found (static_faults (map taken_of statics.now)) }
{
    if is_all_within(statics) {
        return found;
    }
    let mut found = found;
    for taken in statics {
        let broken = is_past_limit(taken.place, statics);
        found = noted(found, broken, taken.place, SourceKind::TooLarge);
    }
    found
}
