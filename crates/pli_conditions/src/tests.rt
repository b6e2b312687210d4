// Each call once; with a refused allocation the answer is Memory, and what stands stays as it was.

ghost use Rattle.std.specs.Prelude.{◌≡◌, []};

use crate::fault::OnUnitsFault;
use crate::units::{OnUnits, Unit};
use pli_language::condition::Condition;

// What is in force for ENDFILE at each step, or `Memory` and what was in force before it.
fn walk(units: &mut OnUnits) -> Result<[Option<(u32, Unit)>; 4], OnUnitsFault>
    requires { units.old ≡ [] }
{
    units.enter()?;
    units.establish(Condition::Endfile, Unit::Code(64))?;
    let outer = units.lookup(Condition::Endfile);
    units.enter()?;
    units.establish(Condition::Endfile, Unit::System)?;
    units.establish(Condition::Endfile, Unit::Code(128))?;
    let inner = units.lookup(Condition::Endfile);
    units.revert(Condition::Endfile);
    let reverted = units.lookup(Condition::Endfile);
    units.unwind(1);
    units.leave();
    Ok([outer, inner, reverted, units.lookup(Condition::Endfile)])
}

#[test]
fn units_are_in_force_or_memory_is_refused(rt: HostRuntime) {
    let mut units = OnUnits::new(rt.alloc());
    assert!(rt; units.depth() == 0);
    let outer = Some((1, Unit::Code(64)));
    match walk(&mut units) {
        Ok(found) => assert!(rt; found == [outer, Some((2, Unit::Code(128))), outer, None]),
        Err(fault) => {
            let stands = units.lookup(Condition::Endfile);
            assert!(rt; fault == OnUnitsFault::Memory && (stands == None || stands == outer));
        }
    }
}
