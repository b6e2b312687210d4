// Copies of signatures.

ghost use Rattle.std.specs.Prelude.{◌≡◌, IfOk};
ghost use Rattle.pli_types.specs.View.{leaf_of, template_of};

use pli_types::signature::{Leaf, Signature};
use smallvec::SmallVec;
use std::alloc::{AllocError, Global};

fn copied_leaf(alloc: Global, leaf: &Leaf) -> Result<Leaf, AllocError>
    ensures { IfOk result (λ l. leaf_of l ≡ leaf_of leaf.now) }
{
    Ok(Leaf {
        kind: leaf.kind,
        bounds: SmallVec::from_slice(alloc, &leaf.bounds)?,
    })
}

/// A copy of a signature.
pub fn copied(alloc: Global, signature: &Signature) -> Result<Signature, AllocError>
    ensures { IfOk result (λ g. template_of g ≡ template_of signature.now) }
{
    let mut leaves = Vec::new(alloc);
    for leaf in &signature.leaves {
        leaves.push(copied_leaf(alloc, leaf)?)?;
    }
    Ok(Signature {
        class: signature.class,
        refer: signature.refer,
        leaves,
    })
}
