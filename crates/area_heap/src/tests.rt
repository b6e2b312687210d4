// Each public call on its happy path, and the refusals of a small area.

ghost use Rattle.std.specs.Prelude.{IsSome};
ghost use Rattle.area_keeper.specs.Chain.{chain_area};

use crate::chain::Chain;
use crate::fault::AreaFault;
use crate::keeper::AreaKeeper;
use std::process::Abort;

const SIGNATURE: u32 = 5;

const ANOTHER: u32 = 6;

/// Places 16 bytes, where the next gap is to be at an offset.
fn place<R: Abort>(rt: &R, area: &mut [u8], offset: u32)
    requires { IsSome (chain_area area.old) }
    ensures { IsSome (chain_area area.new) }
{
    assert_eq!(rt; Chain::allocate(area, 16, SIGNATURE, -3), Ok(offset));
    assert!(rt; Chain::open(area).is_ok());
}

/// Frees the generation at an offset.
fn free<R: Abort>(rt: &R, area: &mut [u8], offset: u32)
    requires { IsSome (chain_area area.old) }
    ensures { IsSome (chain_area area.new) }
{
    assert_eq!(rt; Chain::free(area, offset, SIGNATURE), Ok(()));
    assert!(rt; Chain::open(area).is_ok());
}

#[test]
fn a_small_area_is_filled_freed_copied_and_emptied(rt: HostRuntime) {
    let mut area = [7; 112];
    let area = area.as_mut_slice();
    assert_eq!(rt; Chain::bytes_for(96), area.len());
    assert_eq!(rt; Chain::open(area), Err(AreaFault::Damaged));
    Chain::make(area, 96);
    assert!(rt; Chain::open(area).is_ok());
    place(&rt, area, 0);
    place(&rt, area, 32);
    place(&rt, area, 64);
    free(&rt, area, 0);
    free(&rt, area, 64);
    assert_eq!(rt;
        Chain::allocate(area, 32, SIGNATURE, 0),
        Err(AreaFault::NoGap)
    );
    assert!(rt; Chain::open(area).is_ok());
    place(&rt, area, 0);
    assert_eq!(rt;
        Chain::free(area, 32, ANOTHER),
        Err(AreaFault::NoGeneration)
    );
    assert!(rt; Chain::open(area).is_ok());
    assert_eq!(rt; Chain::find(area, 32, SIGNATURE), Ok(64));
    assert_eq!(rt;
        Chain::find(area, 64, SIGNATURE),
        Err(AreaFault::NoGeneration)
    );
    assert_eq!(rt; Chain::extent(area, 32, SIGNATURE), Ok(-3));

    let mut small = [0; 48];
    let small = small.as_mut_slice();
    Chain::make(small, 32);
    assert!(rt; Chain::open(small).is_ok());
    assert_eq!(rt; Chain::copy_from(small, area), Err(AreaFault::TooSmall));
    let mut same = [0; 80];
    let same = same.as_mut_slice();
    Chain::make(same, 64);
    assert!(rt; Chain::open(same).is_ok());
    assert_eq!(rt; Chain::copy_from(same, area), Ok(()));
    assert!(rt; Chain::open(same).is_ok());
    assert_eq!(rt; Chain::find(same, 32, SIGNATURE), Ok(64));
    Chain::empty(same);
    assert!(rt; Chain::open(same).is_ok());
    assert_eq!(rt;
        Chain::find(same, 32, SIGNATURE),
        Err(AreaFault::NoGeneration)
    );
}

#[test]
fn faults_have_their_numbers(rt: HostRuntime) {
    assert_eq!(rt; AreaFault::NoGap as u8, 1);
    assert_eq!(rt; AreaFault::NoGeneration as u8, 2);
    assert_eq!(rt; AreaFault::TooSmall as u8, 3);
    assert_eq!(rt; AreaFault::Damaged as u8, 4);
}
