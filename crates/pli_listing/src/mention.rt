// Names that a source writes.

ghost use Rattle.std.specs.Prelude.{◌≡◌, ◌++◌, ◌∷◌, [], map, IfOk, OnOk};
ghost use Rattle.pli_declare.specs.Among.{letters_of};
ghost use Rattle.pli_language.specs.View.{name_of, option_of};
ghost use Rattle.pli_listing.specs.Mentions.{in_name, mention_of, written};

use pli_language::expr::Name;
use std::alloc::{AllocError, Global};

/// Names with points between them, outermost first, the number of the block in which they stand, and the line of the
/// last one.
#[derive(Drop)]
pub struct Mention<'a> {
    pub block: usize,
    pub names: Vec<&'a [u8]>,
    pub line: u32,
}

/// A name behind qualifiers.
pub fn push_written<'a>(
    out: &mut Vec<Mention<'a>>,
    block: usize,
    qualifiers: Vec<&'a [u8]>,
    name: &'a Name,
) -> Result<(), AllocError>
    ensures { OnOk result (map mention_of out.new.items ≡
        map mention_of out.old.items ++ written block (letters_of qualifiers.entry.items) (name_of name.now) ∷ []) }
{
    let mut names = qualifiers;
    names.push(&name.letters)?;
    out.push(Mention {
        block,
        names,
        line: name.place.line,
    })?;
    Ok(())
}

/// A name that stands alone.
pub fn push_name<'a>(
    alloc: Global,
    out: &mut Vec<Mention<'a>>,
    block: usize,
    name: &'a Name,
) -> Result<(), AllocError>
    ensures { OnOk result (map mention_of out.new.items ≡
        map mention_of out.old.items ++ written block [] (name_of name.now) ∷ []) }
{
    push_written(out, block, Vec::new(alloc), name)
}

/// A name, where there is one.
pub fn push_optional_name<'a>(
    alloc: Global,
    out: &mut Vec<Mention<'a>>,
    block: usize,
    name: &'a Option<Name>,
) -> Result<(), AllocError>
    ensures { OnOk result (map mention_of out.new.items ≡
        map mention_of out.old.items ++ in_name block (option_of name_of name.now)) }
{
    match name {
        Some(name) => push_name(alloc, out, block, name),
        None => Ok(()),
    }
}
