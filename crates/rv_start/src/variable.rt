// Variables by where they are declared.

ghost use Rattle.std.specs.Prelude.{◌≡◌};
ghost use Rattle.pli_typing.specs.TypedView.{variable_of};
ghost use Rattle.rv_start.specs.Pieces.{variable_at};

use pli_typing::typed::{StorageClass, Variable};

/// A variable whose declaration is sought, by its block and its place there.
pub fn variable_at(block: usize, index: usize) -> Variable
    ensures { variable_of result ≡ variable_at block index }
{
    Variable {
        class: StorageClass::Static,
        block,
        level: 0,
        index,
    }
}
