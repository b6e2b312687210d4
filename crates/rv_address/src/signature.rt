// The signature of a variable as the words that the table has of it. An extent that no 32 bits hold is want of memory.

ghost use Rattle.std.specs.Prelude.{◌≡◌, ◌==◌, map, [], ◌∷◌, ◌++◌, ◌&&◌, OnOk, IfOk};
ghost use Rattle.std.specs.List.{list_any};
ghost use Rattle.rv_meaning.specs.Words.{word};
ghost use Rattle.rv_meaning.specs.Tables as tables;
ghost use Rattle.pli_typing.specs.TypedView.{bounds_of, class_of, extent_of, leaf_of, leaf_type_of};
ghost use Rattle.pli_typing.specs.TypedStatementView.{declared_variable_of, refer_member_of};
ghost use Rattle.pli_language.specs.View.{option_of};
ghost use Rattle.pli_coding.specs.SignatureTable as form;

use pli_typing::typed::{
    Bounds, DeclaredVariable, Extent, Leaf, LeafType, ReferMember, StorageClass,
};
use std::alloc::{AllocError, Global};

/// The size of a length or a capacity that is known only when the program runs.
const RUN_TIME_SIZE: u32 = u32::MAX;

/// A number from -2^31 to 2^32 - 1 as a word.
fn word_of(number: i128) -> Result<u32, AllocError>
    ensures { IfOk result (λ w. w ≡ word number) }
{
    if number < -(1 << 31) || number >= 1 << 32 {
        return Err(AllocError);
    }
    if number < 0 {
        return Ok((number as i32).cast_unsigned());
    }
    Ok(number as u32)
}

/// The bounds of a dimension as words: 1 and 0 where they are known only when the program runs.
fn pair_of(bounds: Bounds) -> Result<(u32, u32), AllocError>
    ensures { IfOk result (λ p. record { lower = p.0; upper = p.1 } ≡ form.pair_of (bounds_of bounds)) }
{
    match (bounds.lower, bounds.upper) {
        (Extent::Constant(lower), Extent::Constant(upper)) => {
            Ok((word_of(lower)?, word_of(upper)?))
        }
        _ => Ok((1, 0)),
    }
}

fn length_size(extent: Extent) -> Result<u32, AllocError>
    ensures { IfOk result (λ n. n ≡ form.length_size (extent_of extent)) }
{
    match extent {
        Extent::Constant(number) => {
            if number < 0 {
                return Ok(0);
            }
            if number >= 1 << 32 {
                return Err(AllocError);
            }
            Ok(number as u32)
        }
        Extent::Star => Ok(RUN_TIME_SIZE),
        Extent::Refer => Ok(RUN_TIME_SIZE),
        Extent::Evaluated(_) => Ok(RUN_TIME_SIZE),
    }
}

fn capacity_size(extent: Extent) -> u32
    ensures { result ≡ form.capacity_size (extent_of extent) }
{
    match extent {
        Extent::Constant(number) => {
            if number < 0 {
                return 0;
            }
            if number >= (1 << 20) + 16 {
                return RUN_TIME_SIZE;
            }
            number as u32 / 16 * 16
        }
        Extent::Star => RUN_TIME_SIZE,
        Extent::Refer => RUN_TIME_SIZE,
        Extent::Evaluated(_) => RUN_TIME_SIZE,
    }
}

fn precision_size(precision: u64) -> Result<u32, AllocError>
    ensures { IfOk result (λ n. n ≡ precision) }
{
    if precision >= 1 << 32 {
        return Err(AllocError);
    }
    Ok(precision as u32)
}

/// The precision, length or capacity of a leaf.
fn size_of(kind: LeafType) -> Result<u32, AllocError>
    ensures { IfOk result (λ n. n ≡ (form.leaf_of_type [] (leaf_type_of kind)).size) }
{
    match kind {
        LeafType::Fixed(precision) => precision_size(precision),
        LeafType::Character(size) => length_size(size),
        LeafType::Varying(size) => length_size(size),
        LeafType::Bit => Ok(0),
        LeafType::Pointer => Ok(0),
        LeafType::Offset(_) => Ok(0),
        LeafType::Area(size) => Ok(capacity_size(size)),
    }
}

fn kind_number(kind: LeafType) -> u32
    ensures { result ≡ tables.kind_number (form.leaf_of_type [] (leaf_type_of kind)).kind }
{
    match kind {
        LeafType::Fixed(_) => 1,
        LeafType::Character(_) => 2,
        LeafType::Varying(_) => 3,
        LeafType::Bit => 4,
        LeafType::Pointer => 5,
        LeafType::Offset(_) => 6,
        LeafType::Area(_) => 7,
    }
}

// ---- what is filled in when the program runs

#[tactic(auto, using(crate::proofs::Open::pair_open))]
fn is_open_pair(bounds: Bounds) -> Result<bool, AllocError>
    ensures { IfOk result (λ b. b ≡ form.is_open_pair (form.pair_of (bounds_of bounds))) }
{
    let (lower, upper) = pair_of(bounds)?;
    Ok(lower == 1 && upper == 0)
}

#[tactic(auto, using(crate::proofs::Open::open_bounds, crate::proofs::Open::closed_bounds, std::proofs::lemmas::List::drop_all))]
fn any_open_pair(dimensions: &[Bounds]) -> Result<bool, AllocError>
    ensures { IfOk result (λ b. b ≡ list_any form.is_open_pair (map form.pair_of (map bounds_of dimensions.now))) }
{
    for bounds in dimensions {
        if is_open_pair(*bounds)? {
            return Ok(true);
        }
    }
    Ok(false)
}

#[tactic(auto, using(crate::proofs::Open::leaf_open))]
fn is_open_leaf(leaf: &Leaf) -> Result<bool, AllocError>
    ensures { IfOk result (λ b. b ≡ form.is_open_leaf (form.table_leaf (leaf_of leaf.now))) }
{
    let size = size_of(leaf.kind)?;
    let pairs = any_open_pair(&leaf.bounds)?;
    Ok(size == RUN_TIME_SIZE || pairs)
}

#[tactic(auto, using(crate::proofs::Open::open_leaf, crate::proofs::Open::closed_leaf, std::proofs::lemmas::List::drop_all))]
fn any_open_leaf(leaves: &[Leaf]) -> Result<bool, AllocError>
    ensures { IfOk result (λ b. b ≡ list_any form.is_open_leaf (map form.table_leaf (map leaf_of leaves.now))) }
{
    for leaf in leaves {
        if is_open_leaf(leaf)? {
            return Ok(true);
        }
    }
    Ok(false)
}

/// Whether an extent is filled in when the program runs; that of REFER is none.
pub fn is_open(variable: &DeclaredVariable) -> Result<bool, AllocError>
    ensures { IfOk result (λ b. b ≡ form.is_open (form.signature_of (declared_variable_of variable.now))) }
{
    let open = any_open_leaf(&variable.leaves)?;
    match variable.refer {
        Some(_) => Ok(false),
        None => Ok(open),
    }
}

// ---- words

#[tactic(auto, using(crate::proofs::Open::next_pair, std::proofs::lemmas::List::drop_all, crate::proofs::Open::no_more))]
fn put_pairs(words: &mut Vec<u32>, dimensions: &[Bounds]) -> Result<(), AllocError>
    ensures { OnOk result (words.new.items ≡ words.old.items ++ tables.pairs_words (map form.pair_of (map bounds_of dimensions.now))) }
{
    for bounds in dimensions {
        let (lower, upper) = pair_of(*bounds)?;
        words.push(lower)?;
        words.push(upper)?;
    }
    Ok(())
}

/// A count, or a place, as a word.
fn counted(number: usize) -> Result<u32, AllocError>
    ensures { IfOk result (λ n. n ≡ number) }
{
    if number >= 1 << 32 {
        return Err(AllocError);
    }
    Ok(number as u32)
}

#[tactic(auto, using(crate::proofs::Open::leaf_words_are))]
fn put_leaf(words: &mut Vec<u32>, leaf: &Leaf) -> Result<(), AllocError>
    ensures { OnOk result (words.new.items ≡ words.old.items ++ tables.leaf_words (form.table_leaf (leaf_of leaf.now))) }
{
    let size = size_of(leaf.kind)?;
    let dimensions = counted(leaf.bounds.len())?;
    words.push(kind_number(leaf.kind))?;
    words.push(size)?;
    words.push(dimensions)?;
    put_pairs(words, &leaf.bounds)
}

#[tactic(auto, using(crate::proofs::Open::next_leaf, std::proofs::lemmas::List::drop_all, crate::proofs::Open::no_more))]
fn put_leaves(words: &mut Vec<u32>, leaves: &[Leaf]) -> Result<(), AllocError>
    ensures { OnOk result (words.new.items ≡ words.old.items ++ tables.leaves_words (map form.table_leaf (map leaf_of leaves.now))) }
{
    for leaf in leaves {
        put_leaf(words, leaf)?;
    }
    Ok(())
}

fn class_number(class: StorageClass) -> u32
    ensures { result ≡ form.class_number (class_of class) }
{
    match class {
        StorageClass::Automatic => 0,
        StorageClass::Parameter => 0,
        StorageClass::Static => 0,
        StorageClass::Based => 0,
        StorageClass::Controlled => 1,
    }
}

/// 0 without REFER, else 1 more than the place of the member that it names.
fn refer_number(refer: &Option<ReferMember>) -> Result<u32, AllocError>
    ensures { IfOk result (λ n. n ≡ form.refer_number (option_of refer_member_of refer.now)) }
{
    match refer {
        None => Ok(0),
        Some(found) => {
            if found.member >= u32::MAX as usize {
                return Err(AllocError);
            }
            Ok(found.member as u32 + 1)
        }
    }
}

/// The words of a variable's signature in the table.
#[tactic(auto, using(crate::proofs::Open::signature_words_are))]
pub fn signature_words(alloc: Global, variable: &DeclaredVariable) -> Result<Vec<u32>, AllocError>
    ensures { IfOk result (λ w. w.items ≡ tables.signature_words (form.signature_of (declared_variable_of variable.now))) }
{
    let mut words = Vec::new(alloc);
    let leaves = counted(variable.leaves.len())?;
    words.push(class_number(variable.class))?;
    words.push(leaves)?;
    words.push(refer_number(&variable.refer)?)?;
    put_leaves(&mut words, &variable.leaves)?;
    Ok(words)
}
