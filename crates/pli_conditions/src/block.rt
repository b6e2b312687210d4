// The units of one block.

ghost use Rattle.std.specs.Prelude.{◌≡◌, ◌∷◌, OnOk, OnErr, length, Option, Some, None};
ghost use Rattle.pli_meaning.specs.StorageState.{unit_for, without_unit};
ghost use Rattle.pli_conditions.specs.Blocks.{IsPlaceOf};

use crate::units::Unit;
use pli_language::condition::Condition;
use std::alloc::AllocError;

/// The place of a condition's entry, if there is one.
fn place_of(units: &[(Condition, Unit)], condition: Condition) -> Option<usize>
    ensures { IsPlaceOf units.now condition result }
{
    for (place, (known, _)) in units.iter().enumerate() {
        if *known == condition {
            return Some(place);
        }
    }
    None
}

/// The unit of a condition, if there is one.
pub fn unit_of(units: &[(Condition, Unit)], condition: Condition) -> Option<Unit>
    ensures { result ≡ unit_for units.now condition }
{
    let place = place_of(units, condition)?;
    Some(units[place].1)
}

/// Drops a condition's entry, if there is one.
pub fn revert(units: &mut Vec<(Condition, Unit)>, condition: Condition)
    ensures { units.new.items ≡ without_unit condition units.old.items }
{
    if let Some(place) = place_of(units, condition) {
        let _entry = units.remove(place);
    }
}

/// Puts an entry in front, in the place of the condition's older one.
pub fn establish(
    units: &mut Vec<(Condition, Unit)>,
    condition: Condition,
    unit: Unit,
) -> Result<(), AllocError>
    ensures done { OnOk result (units.new.items ≡ (condition, unit) ∷ without_unit condition units.old.items) }
    ensures refused { OnErr result (units.new.items ≡ units.old.items) }
{
    match place_of(units, condition) {
        None => units.insert(0, (condition, unit))?,
        Some(place) => {
            let _older = units.remove(place);
            units.insert(0, (condition, unit)).unwrap();
        }
    }
    Ok(())
}
