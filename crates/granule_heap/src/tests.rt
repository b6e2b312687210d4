// Each public call on its happy path, the refusals of a small area, and many calls that both keepers answer alike.

ghost use Rattle.std.specs.Prelude.{IsSome};
ghost use Rattle.area_keeper.specs.Chain.{chain_area};
ghost use Rattle.granule_keeper.specs.Granules.{granules_area};

use crate::granules::Granules;
use area_heap::chain::Chain;
use area_heap::fault::AreaFault;
use area_heap::keeper::AreaKeeper;
use std::process::Abort;

const SIGNATURE: u32 = 5;

const ANOTHER: u32 = 6;

/// Places 16 bytes, where the next gap is to be at an offset.
fn place<R: Abort>(rt: &R, area: &mut [u8], offset: u32)
    requires { IsSome (granules_area area.old) }
    ensures { IsSome (granules_area area.new) }
{
    assert_eq!(rt; Granules::allocate(area, 16, SIGNATURE, -3), Ok(offset));
    assert!(rt; Granules::open(area).is_ok());
}

/// Frees the generation at an offset.
fn free<R: Abort>(rt: &R, area: &mut [u8], offset: u32)
    requires { IsSome (granules_area area.old) }
    ensures { IsSome (granules_area area.new) }
{
    assert_eq!(rt; Granules::free(area, offset, SIGNATURE), Ok(()));
    assert!(rt; Granules::open(area).is_ok());
}

#[test]
fn a_small_area_is_filled_freed_copied_and_emptied(rt: HostRuntime) {
    let mut area = [7; 112];
    let area = area.as_mut_slice();
    assert_eq!(rt; Granules::bytes_for(96), area.len());
    assert_eq!(rt; Granules::open(area), Err(AreaFault::Damaged));
    Granules::make(area, 96);
    assert!(rt; Granules::open(area).is_ok());
    place(&rt, area, 0);
    place(&rt, area, 32);
    place(&rt, area, 64);
    free(&rt, area, 0);
    free(&rt, area, 64);
    assert_eq!(rt;
        Granules::allocate(area, 32, SIGNATURE, 0),
        Err(AreaFault::NoGap)
    );
    assert!(rt; Granules::open(area).is_ok());
    place(&rt, area, 0);
    assert_eq!(rt;
        Granules::free(area, 32, ANOTHER),
        Err(AreaFault::NoGeneration)
    );
    assert!(rt; Granules::open(area).is_ok());
    assert_eq!(rt; Granules::find(area, 32, SIGNATURE), Ok(64));
    assert_eq!(rt;
        Granules::find(area, 64, SIGNATURE),
        Err(AreaFault::NoGeneration)
    );
    assert_eq!(rt; Granules::extent(area, 32, SIGNATURE), Ok(-3));

    let mut small = [0; 48];
    let small = small.as_mut_slice();
    Granules::make(small, 32);
    assert!(rt; Granules::open(small).is_ok());
    assert_eq!(rt; Granules::copy_from(small, area), Err(AreaFault::TooSmall));
    let mut same = [0; 80];
    let same = same.as_mut_slice();
    Granules::make(same, 64);
    assert!(rt; Granules::open(same).is_ok());
    assert_eq!(rt; Granules::copy_from(same, area), Ok(()));
    assert!(rt; Granules::open(same).is_ok());
    assert_eq!(rt; Granules::find(same, 32, SIGNATURE), Ok(64));
    Granules::empty(same);
    assert!(rt; Granules::open(same).is_ok());
    assert_eq!(rt;
        Granules::find(same, 32, SIGNATURE),
        Err(AreaFault::NoGeneration)
    );
}

/// Places so many bytes in both areas.
fn allocate_both<R: Abort>(rt: &R, chained: &mut [u8], marked: &mut [u8], size: u64, extent: i32)
    requires chained { IsSome (chain_area chained.old) }
    requires marked { IsSome (granules_area marked.old) }
    ensures chained { IsSome (chain_area chained.new) }
    ensures marked { IsSome (granules_area marked.new) }
{
    let answer = Chain::allocate(chained, size, SIGNATURE, extent);
    assert_eq!(rt; Granules::allocate(marked, size, SIGNATURE, extent), answer);
    assert!(rt; Chain::open(chained).is_ok());
    assert!(rt; Granules::open(marked).is_ok());
}

/// Looks for the generation at an offset of both areas, and frees it.
fn free_both<R: Abort>(rt: &R, chained: &mut [u8], marked: &mut [u8], offset: u32)
    requires chained { IsSome (chain_area chained.old) }
    requires marked { IsSome (granules_area marked.old) }
    ensures chained { IsSome (chain_area chained.new) }
    ensures marked { IsSome (granules_area marked.new) }
{
    let found = Chain::find(chained, offset, SIGNATURE).is_ok();
    assert_eq!(rt; Granules::find(marked, offset, SIGNATURE).is_ok(), found);
    let extent = Chain::extent(chained, offset, SIGNATURE);
    assert_eq!(rt; Granules::extent(marked, offset, SIGNATURE), extent);
    let freed = Chain::free(chained, offset, SIGNATURE);
    assert_eq!(rt; Granules::free(marked, offset, SIGNATURE), freed);
    assert!(rt; Chain::open(chained).is_ok());
    assert!(rt; Granules::open(marked).is_ok());
}

/// Some hundred calls with each: three allocations of several sizes for each free at an offset.
fn call_both<R: Abort>(rt: &R, chained: &mut [u8], marked: &mut [u8])
    requires chained { IsSome (chain_area chained.old) }
    requires marked { IsSome (granules_area marked.old) }
    ensures chained { IsSome (chain_area chained.new) }
    ensures marked { IsSome (granules_area marked.new) }
{
    'steps: for step in 0..400_u32 {
        if step % 4 == 3 {
            free_both(rt, chained, marked, step * 80 % 2048);
        } else {
            let size = u64::from(step * 7 % 60);
            allocate_both(rt, chained, marked, size, step.cast_signed());
        }
    }
}

#[test]
fn both_keepers_answer_alike(rt: HostRuntime) {
    let mut chained = [0; 2064];
    let chained = chained.as_mut_slice();
    Chain::make(chained, 2048);
    assert!(rt; Chain::open(chained).is_ok());
    let mut marked = [0; 2192];
    let marked = marked.as_mut_slice();
    assert_eq!(rt; Granules::bytes_for(2048), marked.len());
    Granules::make(marked, 2048);
    assert!(rt; Granules::open(marked).is_ok());
    assert!(rt; Granules::open(chained).is_err());
    call_both(&rt, chained, marked);

    let mut other_chained = [0; 4112];
    let other_chained = other_chained.as_mut_slice();
    Chain::make(other_chained, 4096);
    assert!(rt; Chain::open(other_chained).is_ok());
    let mut other_marked = [0; 4368];
    let other_marked = other_marked.as_mut_slice();
    Granules::make(other_marked, 4096);
    assert!(rt; Granules::open(other_marked).is_ok());
    let copied = Chain::copy_from(other_chained, chained);
    assert_eq!(rt; Granules::copy_from(other_marked, marked), copied);
    assert!(rt; Chain::open(other_chained).is_ok());
    assert!(rt; Granules::open(other_marked).is_ok());
    call_both(&rt, other_chained, other_marked);
    let copied = Chain::copy_from(chained, other_chained);
    assert_eq!(rt; Granules::copy_from(marked, other_marked), copied);
}
