// Variables of the running block.

ghost use Rattle.std.specs.Prelude.{◌≡◌, map, ◌++◌, OnOk};
ghost use Rattle.pli_language.specs.View.{option_of};
ghost use Rattle.pli_typing.specs.TypedView.{leaf_of, leaf_type_of, variable_of};
ghost use Rattle.rv_address.specs.Around.{environment_of};
ghost use Rattle.rv_entry.specs.Pieces.{lower_grown, own_variable, single_type};

use pli_frames::fixed::lower_top;
use pli_typing::typed::{Leaf, LeafType, StorageClass, Variable};
use rv_address::environment::Environment;
use rv_assembly::code::Code;
use rv_assembly::registers::{frame, u1, u2};
use std::alloc::AllocError;

/// The variable of an index in the running block.
pub fn own_variable(environment: &Environment, index: usize) -> Variable
    ensures { variable_of result ≡ own_variable (environment_of environment.now) index }
{
    Variable {
        class: StorageClass::Automatic,
        block: environment.block,
        level: environment.level,
        index,
    }
}

/// The type of a variable that has one leaf and no bounds.
pub fn single_type(leaves: &[Leaf]) -> Option<LeafType>
    ensures { option_of leaf_type_of result ≡ single_type (map leaf_of leaves.now) }
{
    match leaves {
        [only] => match only.bounds.as_slice() {
            [] => Some(only.kind),
            _ => None,
        },
        _ => None,
    }
}

/// The lower stack grows by the bytes in u2; its top in u1.
#[tactic(auto, unfolding(crate::specs::Pieces::lower_grown))]
pub fn lower_grown(code: &mut Code) -> Result<(), AllocError>
    ensures { OnOk result (code.new ≡ code.old ++ lower_grown) }
{
    code.load_word(u1(), frame(), lower_top())?;
    code.subtract(u1(), u1(), u2())?;
    code.store_word(frame(), u1(), lower_top())
}
