// The names of a reference with what stands in parentheses behind them.

ghost use Rattle.std.specs.Prelude.{◌≡◌, ◌++◌, map, OnOk, IfOk};
ghost use Rattle.std.specs.List.{list_any};
ghost use Rattle.pli_typing.specs.References.{all_operands, is_empty, is_listed, listed, listed_place};
ghost use Rattle.pli_language.specs.View.{option_of};
ghost use Rattle.pli_operand.specs.Shown.{operand_of};
ghost use Rattle.pli_reference.specs.Shown.{named_of};

use pli_language::expr::{Name, Place};
use pli_operand::operand::Operand;
use std::alloc::{AllocError, Global};

/// A name of a reference, with its judged arguments where it has parentheses.
#[derive(Drop)]
pub struct Named<'t, 'a> {
    pub name: &'a Name,
    pub arguments: Option<Vec<Operand<'t, 'a>>>,
}

/// The name has parentheses.
fn is_listed(named: &Named) -> bool
    ensures { result ≡ is_listed (named_of named.now) }
{
    named.arguments.is_some()
}

/// A name has parentheses.
pub fn any_listed(names: &[Named]) -> bool
    ensures { result ≡ list_any is_listed (map named_of names.now) }
{
    names.iter().any(|n| is_listed(n))
}

/// The parentheses are empty.
fn is_empty(named: &Named) -> bool
    ensures { result ≡ is_empty (named_of named.now).arguments }
{
    match &named.arguments {
        Some(operands) => operands.is_empty(),
        None => false,
    }
}

/// A name has empty parentheses.
pub fn any_empty(names: &[Named]) -> bool
    ensures { result ≡ list_any (λ n. is_empty n.arguments) (map named_of names.now) }
{
    names.iter().any(|n| is_empty(n))
}

/// The place of the first name with parentheses, or this one.
#[tactic(auto, using(pli_declare::proofs::Chains::drop_here, std::proofs::lemmas::List::drop_all))]
pub fn listed_place(place: Place, names: &[Named]) -> Place
    ensures { result ≡ listed_place place (map named_of names.now) }
{
    for n in names {
        if is_listed(n) {
            return n.name.place;
        }
    }
    place
}

/// The operands of a name behind others.
fn put_operands<'t, 'a>(
    out: &mut Vec<Operand<'t, 'a>>,
    arguments: Option<Vec<Operand<'t, 'a>>>,
) -> Result<(), AllocError>
    ensures { OnOk result (map operand_of out.new.items ≡ map operand_of out.old.items ++ listed (option_of (λ v. map operand_of v.items) arguments.entry)) }
{
    match arguments {
        Some(mut operands) => out.append(&mut operands),
        None => Ok(()),
    }
}

/// The operands of all names.
#[tactic(auto, using(crate::proofs::Parts::lists))]
pub fn all_operands<'t, 'a>(
    alloc: Global,
    names: Vec<Named<'t, 'a>>,
) -> Result<Vec<Operand<'t, 'a>>, AllocError>
    ensures { IfOk result (λ v. map operand_of v.items ≡ all_operands (map named_of names.entry.items)) }
{
    let mut out = Vec::new(alloc);
    for n in names {
        put_operands(&mut out, n.arguments)?;
    }
    Ok(out)
}
