// The data that the code names: each thing once, in the order in which it stands behind the code.

ghost use Rattle.std.specs.Prelude.{◌≡◌, ◌+◌, ◌*◌, ◌<◌, ◌≤◌, ◌^◌, [], ◌∷◌, ◌++◌, length, map, filter, OnOk, IfOk};
ghost use Rattle.std.specs.List.{flat_map};
ghost use Rattle.pli_coding.specs.StaticData as form;
ghost use Rattle.rv_assembly.specs.View.{leaf_of, datum_of, item_of};
ghost use Rattle.rv_assembly.specs.Borrowed.{datum, is_sort, data_at, values_datum};

use crate::code::Code;
use crate::item::{Datum, InitialLeaf, Item, Symbol};
use indexmap::IndexSet;
use std::alloc::{AllocError, Global};

/// A datum, borrowed from the code that names it.
#[derive(Clone, Copy, PartialEq, Eq, Hash, Debug)]
pub enum DatumRef<'a> {
    ConstantBytes(&'a [u8]),
    InitialValues(&'a [InitialLeaf]),
    NumberWord {
        block: usize,
        index: usize,
    },
    StaticStorage {
        block: usize,
        index: usize,
        bytes: usize,
    },
}

/// The sorts of data.
#[derive(Clone, Copy, PartialEq, Eq, Debug)]
pub(crate) enum Sort {
    Constant,
    Initial,
    Word,
    Storage,
}

impl Datum {
    /// The datum, borrowed.
    pub fn borrowed(&self) -> DatumRef<'_>
        ensures { datum result ≡ datum_of self.now }
    {
        match self {
            Datum::ConstantBytes(bytes) => DatumRef::ConstantBytes(bytes),
            Datum::InitialValues(leaves) => DatumRef::InitialValues(leaves),
            Datum::NumberWord { block, index } => DatumRef::NumberWord {
                block: *block,
                index: *index,
            },
            Datum::StaticStorage {
                block,
                index,
                bytes,
            } => DatumRef::StaticStorage {
                block: *block,
                index: *index,
                bytes: *bytes,
            },
        }
    }
}

impl DatumRef<'_> {
    fn is_of(self, sort: Sort) -> bool
        ensures { result ≡ is_sort sort (datum self.entry) }
    {
        match self {
            DatumRef::ConstantBytes(_) => sort == Sort::Constant,
            DatumRef::InitialValues(_) => sort == Sort::Initial,
            DatumRef::NumberWord { .. } => sort == Sort::Word,
            DatumRef::StaticStorage { .. } => sort == Sort::Storage,
        }
    }
}

fn put_named<'a>(out: &mut Vec<DatumRef<'a>>, item: &'a Item) -> Result<(), AllocError>
    ensures { OnOk result (map datum out.new.items ≡ map datum out.old.items ++ data_at (item_of item.now)) }
{
    match item {
        Item::OffsetOf(_, Symbol::DataPlace(named)) => {
            out.push(named.borrowed())?;
            Ok(())
        }
        _ => Ok(()),
    }
}

/// What the code names, as often as it does.
#[tactic(auto, using(crate::proofs::Naming::next_named))]
fn named<'a>(alloc: Global, code: &'a Code) -> Result<Vec<DatumRef<'a>>, AllocError>
    ensures { IfOk result (λ d. map datum d.items ≡ form.data_named code.now) }
{
    let mut out = Vec::new(alloc);
    let items = code.items();
    for item in items {
        put_named(&mut out, item)?;
    }
    Ok(out)
}

/// Each datum where it first stands.
fn once<'a>(alloc: Global, list: &[DatumRef<'a>]) -> Result<IndexSet<DatumRef<'a>>, AllocError>
    ensures { IfOk result (λ s. map datum s.keys ≡ form.once [] (map datum list.now)) }
{
    let mut seen = IndexSet::new(alloc);
    for datum in list {
        seen.insert(*datum)?;
    }
    Ok(seen)
}

#[tactic(auto, using(crate::proofs::Naming::next_kept, crate::proofs::Naming::next_passed))]
fn put_sort<'a>(
    out: &mut Vec<DatumRef<'a>>,
    named: &[DatumRef<'a>],
    sort: Sort,
) -> Result<(), AllocError>
    ensures { OnOk result (map datum out.new.items ≡ map datum out.old.items ++ filter (is_sort sort) (map datum named.now)) }
{
    for datum in named {
        if datum.is_of(sort) {
            out.push(*datum)?;
        }
    }
    Ok(())
}

fn put_leaves<'a>(out: &mut Vec<DatumRef<'a>>, leaves: &'a [InitialLeaf]) -> Result<(), AllocError>
    ensures { OnOk result (map datum out.new.items ≡ map datum out.old.items ++ map values_datum (map leaf_of leaves.now)) }
{
    for leaf in leaves {
        out.push(DatumRef::ConstantBytes(&leaf.values))?;
    }
    Ok(())
}

fn put_values_of<'a>(out: &mut Vec<DatumRef<'a>>, named: DatumRef<'a>) -> Result<(), AllocError>
    ensures { OnOk result (map datum out.new.items ≡ map datum out.old.items ++ form.values_of (datum named.entry)) }
{
    match named {
        DatumRef::InitialValues(leaves) => put_leaves(out, leaves),
        _ => Ok(()),
    }
}

/// The bytes to which lists of INITIAL values lead.
fn put_values<'a>(out: &mut Vec<DatumRef<'a>>, named: &[DatumRef<'a>]) -> Result<(), AllocError>
    ensures { OnOk result (map datum out.new.items ≡ map datum out.old.items ++ flat_map form.values_of (map datum named.now)) }
{
    for datum in named {
        put_values_of(out, *datum)?;
    }
    Ok(())
}

fn put_constants<'a>(
    alloc: Global,
    out: &mut Vec<DatumRef<'a>>,
    named: &[DatumRef<'a>],
) -> Result<(), AllocError>
    ensures { OnOk result (map datum out.new.items ≡ map datum out.old.items ++ form.once [] (filter form.is_constant (map datum named.now) ++ flat_map form.values_of (map datum named.now))) }
{
    let mut constants = Vec::new(alloc);
    put_sort(&mut constants, named, Sort::Constant)?;
    put_values(&mut constants, named)?;
    let constants = once(alloc, &constants)?;
    out.extend_from_slice(constants.as_slice())?;
    Ok(())
}

/// The data of the code, in its order.
pub(crate) fn static_data<'a>(
    alloc: Global,
    code: &'a Code,
) -> Result<Vec<DatumRef<'a>>, AllocError>
    ensures { IfOk result (λ d. map datum d.items ≡ form.static_data code.now) }
{
    let all = named(alloc, code)?;
    let named = once(alloc, &all)?;
    let mut data = Vec::new(alloc);
    put_sort(&mut data, named.as_slice(), Sort::Initial)?;
    put_constants(alloc, &mut data, named.as_slice())?;
    put_sort(&mut data, named.as_slice(), Sort::Word)?;
    put_sort(&mut data, named.as_slice(), Sort::Storage)?;
    Ok(data)
}
