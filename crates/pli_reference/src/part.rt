// Parts of variables.

ghost use Rattle.std.specs.Prelude.{◌≡◌, Some, IfOk, false, map, true};
ghost use Rattle.pli_language.specs.Declarations.{Variable'};
ghost use Rattle.pli_typing.specs.TypedTree as Y;
ghost use Rattle.pli_typing.specs.TypedView.{numbers_of, part_of, pointer_of, reference_of, variable_of};
ghost use Rattle.pli_typing.specs.Variables.{what_at};
ghost use Rattle.pli_declare.specs.Shown.{held_of};
ghost use Rattle.pli_declare.specs.ShownBlocks.{block_of};
ghost use Rattle.pli_operand.specs.Shown.{designated_of};
ghost use Rattle.pli_variables.specs.Shapes.{shape};
ghost use Rattle.pli_variables.specs.ShownShapes.{shape_of};
ghost use Rattle.pli_reference.specs.Parts.{designated_by, part_by, whole_by};
ghost use Rattle.pli_reference.specs.Shown.{locator_of};

use pli_declare::scope::Held;
use pli_language::scope::DeclarationAt;
use pli_operand::operand::Designated;
use pli_typing::typed::{Numbers, Part, Pointer, Reference, Variable};
use pli_variables::{Shape, Tables};
use std::alloc::{AllocError, Global};

#[tactic(auto, unfolding(pli_typing::specs::TypedView::reference_of))]
fn located<'a>(
    alloc: Global,
    variable: Variable,
    locator: Pointer<'a>,
    part: Part,
    subscripts: Numbers<'a>,
) -> Result<Reference<'a>, AllocError>
    ensures { IfOk result (λ r. reference_of r ≡ Y.Referring (variable_of variable) (Y.LocatedBy (pointer_of locator.entry)) (part_of part) (numbers_of subscripts.entry)) }
{
    Ok(Reference::Located {
        locator: Box::new(alloc, locator)?,
        variable,
        part,
        subscripts,
    })
}

/// A reference to a part of a variable.
#[tactic(auto, unfolding(pli_typing::specs::TypedView::reference_of))]
fn referring<'a>(
    alloc: Global,
    variable: Variable,
    locator: Option<Pointer<'a>>,
    part: Part,
    subscripts: Numbers<'a>,
) -> Result<Reference<'a>, AllocError>
    ensures { IfOk result (λ r. reference_of r ≡ Y.Referring (variable_of variable) (locator_of locator.entry) (part_of part) (numbers_of subscripts.entry)) }
{
    match locator {
        None => Ok(Reference::Plain {
            variable,
            part,
            subscripts,
        }),
        Some(locator) => located(alloc, variable, locator, part, subscripts),
    }
}

/// An element of a variable that has this shape.
fn element<'t, 'a>(shape: &'t Shape<'a>, reference: Reference<'a>) -> Designated<'t, 'a>
    ensures { designated_of result ≡ designated_by (shape_of shape.now) (reference_of reference.entry) true }
{
    Designated {
        reference,
        leaves: shape.leaves(),
        subscripted: shape.dimensions,
        dimensions: 0,
        has_members: shape.has_members,
        is_whole: false,
    }
}

/// A variable that has this shape, without subscripts.
fn unsubscripted<'t, 'a>(shape: &'t Shape<'a>, reference: Reference<'a>) -> Designated<'t, 'a>
    ensures { designated_of result ≡ designated_by (shape_of shape.now) (reference_of reference.entry) false }
{
    Designated {
        reference,
        leaves: shape.leaves(),
        subscripted: 0,
        dimensions: shape.dimensions,
        has_members: shape.has_members,
        is_whole: shape.is_alone,
    }
}

/// What a reference to such a variable designates; with subscripts it is an element.
fn designated<'t, 'a>(
    shape: &'t Shape<'a>,
    reference: Reference<'a>,
    is_element: bool,
) -> Designated<'t, 'a>
    ensures { designated_of result ≡ designated_by (shape_of shape.now) (reference_of reference.entry) is_element }
{
    if is_element {
        element(shape, reference)
    } else {
        unsubscripted(shape, reference)
    }
}

/// The part of a variable that has this shape, located so; with subscripts it is an element.
pub fn part_by<'t, 'a>(
    alloc: Global,
    shape: &'t Shape<'a>,
    locator: Option<Pointer<'a>>,
    is_element: bool,
    subscripts: Numbers<'a>,
) -> Result<Designated<'t, 'a>, AllocError>
    ensures { IfOk result (λ d. designated_of d ≡ part_by (shape_of shape.now) (locator_of locator.entry) is_element (numbers_of subscripts.entry)) }
{
    let reference = referring(alloc, shape.variable, locator, shape.part, subscripts)?;
    Ok(designated(shape, reference, is_element))
}

/// A whole variable that has this shape and isn't BASED.
#[tactic(auto, unfolding(pli_typing::specs::TypedView::reference_of, pli_typing::specs::TypedView::numbers_of))]
pub fn whole_by<'t, 'a>(shape: &'t Shape<'a>) -> Designated<'t, 'a>
    ensures { designated_of result ≡ whole_by (shape_of shape.now) }
{
    let reference = Reference::Plain {
        variable: shape.variable,
        part: shape.part,
        subscripts: Numbers::End,
    };
    designated(shape, reference, false)
}

/// The shape of the variable that is declared there.
pub fn shape_of<'t, 'a>(tables: &'t Tables<'_, 'a>, at: DeclarationAt, held: &Held) -> &'t Shape<'a>
    requires { what_at (map block_of tables.now.scopes.now.blocks.items) at ≡ Some (Variable' (held_of held.now)) }
    ensures { shape_of result.now ≡ shape (map block_of tables.now.scopes.now.blocks.items) at.block (held_of held.now) }
{
    match tables.shape_at(at) {
        Some(shape) => shape,
        None => unreachable!(),
    }
}
