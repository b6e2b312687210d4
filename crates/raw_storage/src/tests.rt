// Each public call once, with the allocation refused where it is.

use crate::storage::{Storage, StorageFault};
use std::process::Abort;

fn expect<R: Abort>(rt: &R, storage: &Storage, at: u32, value: u32) {
    assert!(rt; at < 16 && storage.len() == 32);
    assert_eq!(rt; storage.load32(at), value);
}

fn move_four<R: Abort>(rt: &R, storage: &mut Storage, from: u32, to: u32) {
    assert!(rt; from < 16 && to < 16 && storage.len() == 32);
    storage.move_within(from, to, 4);
}

/// Fills each part with its number.
fn number_parts<R: Abort>(rt: &R, storage: &mut Storage) {
    let (statics, stack, heap) = storage.parts_mut();
    assert_eq!(rt; statics.len(), 8);
    assert_eq!(rt; stack.len(), 4);
    assert_eq!(rt; heap.len(), 20);
    statics.fill(1);
    stack.fill(2);
    heap.fill(3);
}

fn bytes_are_stored<R: Abort>(rt: &R, storage: &mut Storage) {
    assert!(rt; storage.len() == 32);
    storage.store8(0, 0xaa);
    assert!(rt; storage.len() == 32);
    storage.store16(2, 0x1234);
    assert!(rt; storage.len() == 32);
    assert_eq!(rt; storage.load8(3), 0x12);
    assert_eq!(rt; storage.load16(2), 0x1234);
    expect(rt, storage, 0, 0x1234_00aa);
    storage.store32(12, 0x0403_0201);
}

fn ranges_are_filled<R: Abort>(rt: &R, storage: &mut Storage) {
    assert!(rt; storage.len() == 32);
    storage.fill(13, 2, 9);
    expect(rt, storage, 12, 0x0409_0901);
    assert!(rt; storage.len() == 32);
    storage.range_mut(13, 2).fill(8);
    assert!(rt; storage.len() == 32);
    storage.as_mut_slice()[12] = 2;
}

#[test]
fn three_parts_are_read_and_written(rt: HostRuntime) {
    match Storage::new(rt.alloc(), 8, 4, 20) {
        Ok(mut storage) => {
            expect(&rt, &storage, 12, 0);
            bytes_are_stored(&rt, &mut storage);
            move_four(&rt, &mut storage, 12, 13);
            expect(&rt, &storage, 12, 0x0302_0101);
            move_four(&rt, &mut storage, 13, 12);
            expect(&rt, &storage, 12, 0x0403_0201);
            ranges_are_filled(&rt, &mut storage);
            expect(&rt, &storage, 12, 0x0408_0802);
            number_parts(&rt, &mut storage);
            expect(&rt, &storage, 6, 0x0202_0101);
            expect(&rt, &storage, 10, 0x0303_0202);
        }
        Err(fault) => assert_eq!(rt; fault, StorageFault::Memory),
    }
}

#[test]
fn the_fault_has_its_number(rt: HostRuntime) {
    assert_eq!(rt; StorageFault::Memory as u8, 1);
}
