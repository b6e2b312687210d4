// Each call once; worked sizes and conversions are computed on the definitions.

use crate::kind::{Conversion, Kind, convert_kind, converted_length};
use crate::signature::{Class, Leaf, LeafKind, Signature};
use crate::size::{footprint, size_of};
use smallvec::SmallVec;
use std::test::Fail;

#[test]
fn a_text_has_its_size(rt: HostRuntime) -> Result<(), Fail> {
    let alloc = rt.alloc();
    let mut leaves = Vec::new(alloc);
    leaves.push(Leaf {
        kind: LeafKind::Character { length: Some(5) },
        bounds: SmallVec::from_slice(alloc, &[])?,
    })?;
    let signature = Signature {
        class: Class::Plain,
        refer: None,
        leaves,
    };
    assert!(rt; size_of(&signature) == 8 && footprint(8) == 32);
    let from = Kind::Number { precision: 31 };
    let to = Conversion::NumberToText { precision: 31 };
    assert!(rt; convert_kind(from, Kind::Text) == Some(to) && converted_length(31) == 14);
    Ok(())
}
