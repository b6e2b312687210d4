// Each public call on its happy path, the refusals of a small area, and many calls that two keepers answer alike.

ghost use Rattle.std.specs.Prelude.{IsSome};
ghost use Rattle.area_keeper.specs.Chain.{chain_area};
ghost use Rattle.free_keeper.specs.FreeList.{free_list_area};

use crate::free_list::FreeList;
use area_heap::chain::Chain;
use area_heap::fault::AreaFault;
use area_heap::keeper::AreaKeeper;
use std::process::Abort;

const SIGNATURE: u32 = 5;

const ANOTHER: u32 = 6;

/// Places 16 bytes, where the next gap is to be at an offset.
fn place<R: Abort>(rt: &R, area: &mut [u8], offset: u32)
    requires { IsSome (free_list_area area.old) }
    ensures { IsSome (free_list_area area.new) }
{
    assert_eq!(rt; FreeList::allocate(area, 16, SIGNATURE, -3), Ok(offset));
    assert!(rt; FreeList::open(area).is_ok());
}

/// Frees the generation at an offset.
fn free<R: Abort>(rt: &R, area: &mut [u8], offset: u32)
    requires { IsSome (free_list_area area.old) }
    ensures { IsSome (free_list_area area.new) }
{
    assert_eq!(rt; FreeList::free(area, offset, SIGNATURE), Ok(()));
    assert!(rt; FreeList::open(area).is_ok());
}

#[test]
fn a_small_area_is_filled_freed_copied_and_emptied(rt: HostRuntime) {
    let mut area = [7; 112];
    let area = area.as_mut_slice();
    assert_eq!(rt; FreeList::bytes_for(96), area.len());
    assert_eq!(rt; FreeList::open(area), Err(AreaFault::Damaged));
    FreeList::make(area, 96);
    assert!(rt; FreeList::open(area).is_ok());
    place(&rt, area, 0);
    place(&rt, area, 32);
    place(&rt, area, 64);
    free(&rt, area, 0);
    free(&rt, area, 64);
    assert_eq!(rt;
        FreeList::allocate(area, 32, SIGNATURE, 0),
        Err(AreaFault::NoGap)
    );
    assert!(rt; FreeList::open(area).is_ok());
    place(&rt, area, 0);
    assert_eq!(rt;
        FreeList::free(area, 32, ANOTHER),
        Err(AreaFault::NoGeneration)
    );
    assert!(rt; FreeList::open(area).is_ok());
    assert_eq!(rt; FreeList::find(area, 32, SIGNATURE), Ok(64));
    assert_eq!(rt;
        FreeList::find(area, 64, SIGNATURE),
        Err(AreaFault::NoGeneration)
    );
    assert_eq!(rt; FreeList::extent(area, 32, SIGNATURE), Ok(-3));

    let mut small = [0; 48];
    let small = small.as_mut_slice();
    FreeList::make(small, 32);
    assert!(rt; FreeList::open(small).is_ok());
    assert_eq!(rt; FreeList::copy_from(small, area), Err(AreaFault::TooSmall));
    let mut same = [0; 80];
    let same = same.as_mut_slice();
    FreeList::make(same, 64);
    assert!(rt; FreeList::open(same).is_ok());
    assert_eq!(rt; FreeList::copy_from(same, area), Ok(()));
    assert!(rt; FreeList::open(same).is_ok());
    assert_eq!(rt; FreeList::find(same, 32, SIGNATURE), Ok(64));
    FreeList::empty(same);
    assert!(rt; FreeList::open(same).is_ok());
    assert_eq!(rt;
        FreeList::find(same, 32, SIGNATURE),
        Err(AreaFault::NoGeneration)
    );
}

/// Places so many bytes in both areas.
fn allocate_both<R: Abort>(rt: &R, chained: &mut [u8], listed: &mut [u8], size: u64, extent: i32)
    requires chained { IsSome (chain_area chained.old) }
    requires listed { IsSome (free_list_area listed.old) }
    ensures chained { IsSome (chain_area chained.new) }
    ensures listed { IsSome (free_list_area listed.new) }
{
    let answer = Chain::allocate(chained, size, SIGNATURE, extent);
    assert_eq!(rt; FreeList::allocate(listed, size, SIGNATURE, extent), answer);
    assert!(rt; Chain::open(chained).is_ok());
    assert!(rt; FreeList::open(listed).is_ok());
}

/// Looks for the generation at an offset of both areas, and frees it.
fn free_both<R: Abort>(rt: &R, chained: &mut [u8], listed: &mut [u8], offset: u32)
    requires chained { IsSome (chain_area chained.old) }
    requires listed { IsSome (free_list_area listed.old) }
    ensures chained { IsSome (chain_area chained.new) }
    ensures listed { IsSome (free_list_area listed.new) }
{
    let found = Chain::find(chained, offset, SIGNATURE).is_ok();
    assert_eq!(rt; FreeList::find(listed, offset, SIGNATURE).is_ok(), found);
    let extent = Chain::extent(chained, offset, SIGNATURE);
    assert_eq!(rt; FreeList::extent(listed, offset, SIGNATURE), extent);
    let freed = Chain::free(chained, offset, SIGNATURE);
    assert_eq!(rt; FreeList::free(listed, offset, SIGNATURE), freed);
    assert!(rt; Chain::open(chained).is_ok());
    assert!(rt; FreeList::open(listed).is_ok());
}

/// Some hundred calls with each: three allocations of several sizes for each free at an offset.
fn call_both<R: Abort>(rt: &R, chained: &mut [u8], listed: &mut [u8])
    requires chained { IsSome (chain_area chained.old) }
    requires listed { IsSome (free_list_area listed.old) }
    ensures chained { IsSome (chain_area chained.new) }
    ensures listed { IsSome (free_list_area listed.new) }
{
    'steps: for step in 0..400_u32 {
        if step % 4 == 3 {
            free_both(rt, chained, listed, step * 80 % 2048);
        } else {
            let size = u64::from(step * 7 % 60);
            allocate_both(rt, chained, listed, size, step.cast_signed());
        }
    }
}

#[test]
fn both_keepers_answer_alike(rt: HostRuntime) {
    let mut chained = [0; 2064];
    let chained = chained.as_mut_slice();
    Chain::make(chained, 2048);
    assert!(rt; Chain::open(chained).is_ok());
    let mut listed = [0; 2080];
    let listed = listed.as_mut_slice();
    assert_eq!(rt; FreeList::bytes_for(2048), listed.len());
    FreeList::make(listed, 2048);
    assert!(rt; FreeList::open(listed).is_ok());
    assert!(rt; FreeList::open(chained).is_err());
    assert!(rt; Chain::open(listed).is_err());
    assert!(rt; Chain::open(chained).is_ok());
    assert!(rt; FreeList::open(listed).is_ok());
    call_both(&rt, chained, listed);

    let mut other_chained = [0; 4112];
    let other_chained = other_chained.as_mut_slice();
    Chain::make(other_chained, 4096);
    assert!(rt; Chain::open(other_chained).is_ok());
    let mut other_listed = [0; 4144];
    let other_listed = other_listed.as_mut_slice();
    assert_eq!(rt; FreeList::bytes_for(4096), other_listed.len());
    FreeList::make(other_listed, 4096);
    assert!(rt; FreeList::open(other_listed).is_ok());
    let copied = Chain::copy_from(other_chained, chained);
    assert_eq!(rt; FreeList::copy_from(other_listed, listed), copied);
    assert!(rt; Chain::open(other_chained).is_ok());
    assert!(rt; FreeList::open(other_listed).is_ok());
    call_both(&rt, other_chained, other_listed);
    let copied = Chain::copy_from(chained, other_chained);
    assert_eq!(rt; FreeList::copy_from(listed, other_listed), copied);
}

/// A free block whose link leads back to itself, and one to the block before it.
#[test]
fn a_ring_of_free_blocks_is_damage(rt: HostRuntime) {
    let mut area = [0; 112];
    let area = area.as_mut_slice();
    FreeList::make(area, 96);
    assert!(rt; FreeList::open(area).is_ok());
    place(&rt, area, 0);
    place(&rt, area, 32);
    free(&rt, area, 0);
    assert_eq!(rt; area[20], 65);
    area[84] = 1;
    assert_eq!(rt; FreeList::open(area), Err(AreaFault::Damaged));
    area[84] = 65;
    assert_eq!(rt; FreeList::open(area), Err(AreaFault::Damaged));
    area[84] = 0;
    assert!(rt; FreeList::open(area).is_ok());
    area[20] = 1;
    assert_eq!(rt; FreeList::open(area), Err(AreaFault::Damaged));
}
