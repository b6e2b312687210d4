// Each public call once, with each allocation refused where it is.

ghost use Rattle.std.specs.Prelude.{◌≤◌, length};

use crate::controlled::Controlled;
use crate::fault::GenFault;
use crate::roots::{Place, Roots};
use area_heap::chain::Chain;
use area_heap::keeper::AreaKeeper;
use std::process::Abort;

const PLACE: Place = Place { at: 96, len: 8 };

fn enter<R: Abort>(rt: &R, roots: &mut Roots, owner: u32, wanted: u64) -> Result<(), GenFault> {
    let serial = if owner == 0 {
        roots.enter(PLACE, 5)?
    } else {
        roots.enter_owned(PLACE, 5, owner)?
    };
    assert!(rt; serial == wanted);
    Ok(())
}

fn lives<R: Abort>(rt: &R, roots: &Roots, serial: u64, wanted: bool) {
    assert!(rt; roots.root(serial).is_some() == wanted);
    assert!(rt; roots.resolve(serial, 5).is_ok() == wanted);
    assert!(rt; roots.resolve(serial, 6).is_err());
}

#[test]
fn serials_are_given_once(rt: HostRuntime) -> Result<(), GenFault> {
    let mut roots = Roots::new(rt.alloc());
    enter(&rt, &mut roots, 0, 1)?;
    lives(&rt, &roots, 1, true);
    roots.leave(1);
    lives(&rt, &roots, 1, false);
    enter(&rt, &mut roots, 0, 2)?;
    enter(&rt, &mut roots, 1, 3)?;
    enter(&rt, &mut roots, 2, 4)?;
    roots.leave_above(1);
    lives(&rt, &roots, 2, true);
    lives(&rt, &roots, 3, true);
    lives(&rt, &roots, 4, false);
    Ok(())
}

/// Pushes 16 bytes.
fn push<R: Abort>(rt: &R, controlled: &mut Controlled, heap: &mut [u8]) -> Result<u32, GenFault>
    requires { 2 ≤ length controlled.old }
    ensures { 2 ≤ length controlled.new }
{
    assert!(rt; Chain::open(heap).is_ok());
    controlled.push::<Chain>(heap, 1, 16, 5)
}

fn pop<R: Abort>(rt: &R, controlled: &mut Controlled, heap: &mut [u8], works: bool)
    requires { 2 ≤ length controlled.old }
    ensures { 2 ≤ length controlled.new }
{
    assert!(rt; Chain::open(heap).is_ok());
    assert!(rt; controlled.pop::<Chain>(heap, 1).is_ok() == works);
}

fn newest<R: Abort>(rt: &R, controlled: &Controlled, count: u64, offset: u32)
    requires { 2 ≤ length controlled.now }
{
    assert!(rt; controlled.count(1) == count);
    match controlled.top(1) {
        Ok((at, signature)) => assert!(rt; at == offset && signature == 5),
        Err(_) => assert!(rt; count == 0),
    }
}

fn push_and_pop<R: Abort>(
    rt: &R,
    controlled: &mut Controlled,
    heap: &mut [u8],
) -> Result<(), GenFault>
    requires { 2 ≤ length controlled.old }
{
    newest(rt, controlled, 0, 0);
    push(rt, controlled, heap)?;
    let second = push(rt, controlled, heap)?;
    newest(rt, controlled, 2, second);
    assert!(rt; push(rt, controlled, heap).is_err());
    pop(rt, controlled, heap, true);
    newest(rt, controlled, 1, 0);
    assert!(rt; Chain::open(heap).is_ok());
    Chain::empty(heap);
    pop(rt, controlled, heap, false);
    newest(rt, controlled, 1, 0);
    Ok(())
}

#[test]
fn generations_are_pushed_and_popped(rt: HostRuntime) -> Result<(), GenFault> {
    let mut heap = [0; 80];
    Chain::make(&mut heap, 64);
    let mut controlled = Controlled::new(rt.alloc(), 2)?;
    push_and_pop(&rt, &mut controlled, &mut heap)
}

#[test]
fn faults_have_their_numbers(rt: HostRuntime) {
    assert_eq!(rt; GenFault::Dead as u8, 1);
    assert_eq!(rt; GenFault::NoGeneration as u8, 2);
    assert_eq!(rt; GenFault::HeapFull as u8, 3);
    assert_eq!(rt; GenFault::NoSerial as u8, 4);
    assert_eq!(rt; GenFault::Memory as u8, 9);
}
