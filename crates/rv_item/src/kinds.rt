// Which kinds of leaves an aggregate has.

ghost use Rattle.std.specs.Prelude.{◌≡◌, take, drop, map, IfOk};
ghost use Rattle.std.specs.List.{list_any};
ghost use Rattle.rv_meaning.specs.declared.image.TableKind.TheVariants as K;
ghost use Rattle.pli_typing.specs.TypedView.{leaf_of, leaf_type_of, reference_of};
ghost use Rattle.pli_coding.specs.Streams as form;
ghost use Rattle.rv_address.specs.Around.{environment_of};

use crate::elements::{part_in, variable_in};
use pli_typing::typed::{Leaf, LeafType, Part, Reference};
use rv_address::environment::Environment;
use rv_meaning::image::TableKind;
use std::alloc::AllocError;

/// What leaves of an aggregate a service may tell: numbers, bits, and texts of both kinds.
#[derive(Clone, Copy, PartialEq, Eq, Debug)]
pub struct Kinds {
    pub fixed: bool,
    pub bit: bool,
    pub text: bool,
}

fn is_type(kind: TableKind, leaf: LeafType) -> bool
    ensures { result ≡ form.is_type kind (leaf_type_of leaf) }
{
    match leaf {
        LeafType::Fixed(_) => kind == TableKind::Fixed,
        LeafType::Character(_) => kind == TableKind::Character,
        LeafType::Varying(_) => kind == TableKind::Varying,
        LeafType::Bit => kind == TableKind::Bit,
        LeafType::Pointer => false,
        LeafType::Offset(_) => false,
        LeafType::Area(_) => false,
    }
}

#[tactic(auto, using(crate::proofs::Leaves::kind_here, crate::proofs::Leaves::kind_behind, std::proofs::lemmas::List::drop_all))]
fn has_kind(leaves: &[Leaf], kind: TableKind) -> bool
    ensures { result ≡ list_any (λ l. form.is_type kind l.type) (map leaf_of leaves.now) }
{
    for leaf in leaves {
        if is_type(kind, leaf.kind) {
            return true;
        }
    }
    false
}

/// The leaves of a part; a program names those that are there.
#[tactic(auto, using(crate::proofs::Leaves::leaves_of_part))]
fn leaves_of_part<'t, 'a>(leaves: &'t [Leaf<'a>], part: Part) -> Result<&'t [Leaf<'a>], AllocError>
    ensures { IfOk result (λ ls. map leaf_of ls.now ≡ take part.count (drop part.first (map leaf_of leaves.now))) }
{
    if part.first > leaves.len() {
        return Err(AllocError);
    }
    let (_, behind) = leaves.split_at(part.first);
    if part.count > behind.len() {
        return Err(AllocError);
    }
    let (here, _) = behind.split_at(part.count);
    Ok(here)
}

#[tactic(auto, using(crate::proofs::Leaves::leaves_are))]
fn leaves_in<'t, 'a>(
    environment: &Environment<'_, 't, 'a>,
    reference: &Reference,
) -> Result<&'t [Leaf<'a>], AllocError>
    ensures { IfOk result (λ ls. map leaf_of ls.now ≡ form.leaves_in (environment_of environment.now) (reference_of reference.now)) }
{
    let declaration = environment.declaration(variable_in(reference))?;
    leaves_of_part(&declaration.leaves, part_in(reference))
}

/// Those of an aggregate.
pub fn kinds_in(environment: &Environment, reference: &Reference) -> Result<Kinds, AllocError>
    ensures fixed { IfOk result (λ k. k.fixed ≡ form.has_kind (environment_of environment.now) (reference_of reference.now) K.Fixed) }
    ensures bit { IfOk result (λ k. k.bit ≡ form.has_kind (environment_of environment.now) (reference_of reference.now) K.Bit) }
    ensures text { IfOk result (λ k. k.text ≡ form.has_texts (environment_of environment.now) (reference_of reference.now)) }
{
    let leaves = leaves_in(environment, reference)?;
    let character = has_kind(leaves, TableKind::Character);
    let varying = has_kind(leaves, TableKind::Varying);
    Ok(Kinds {
        fixed: has_kind(leaves, TableKind::Fixed),
        bit: has_kind(leaves, TableKind::Bit),
        text: character || varying,
    })
}
