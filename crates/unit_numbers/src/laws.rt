// Laws of the definitions: each function's contract is one law, and calling it does nothing.

ghost use Rattle.unit_numbers.specs.AgainRows.{AgainKept};
ghost use Rattle.unit_numbers.specs.ClimbRows.{ClimbKept};
ghost use Rattle.unit_numbers.specs.GroupRows.{GroupKept};
ghost use Rattle.unit_numbers.specs.GuardRows.{GuardKept};
ghost use Rattle.unit_numbers.specs.HailRows.{HailKept};
ghost use Rattle.unit_numbers.specs.HaltRows.{HaltKept};
ghost use Rattle.unit_numbers.specs.Headlines.{UnitNumberHeadlinesKept};
ghost use Rattle.unit_numbers.specs.LodgeRows.{LodgeKept};
ghost use Rattle.unit_numbers.specs.MendRows.{MendKept};
ghost use Rattle.unit_numbers.specs.PleadRows.{PleadKept};
ghost use Rattle.unit_numbers.specs.RescueRows.{RescueKept};
ghost use Rattle.unit_numbers.specs.ResortRows.{ResortKept};
ghost use Rattle.unit_numbers.specs.RetreatRows.{RetreatKept};
ghost use Rattle.unit_numbers.specs.Rows.{HealKept};
ghost use Rattle.unit_numbers.specs.ShiftRows.{ShiftKept};
ghost use Rattle.unit_numbers.specs.TallyRows.{TallyKept};
ghost use Rattle.unit_numbers.specs.TollRows.{TollKept};
ghost use Rattle.unit_numbers.specs.WrapRows.{WrapKept};

use block_headlines::laws::unit_headlines_kept;
use code_marks::laws::marked_once;
use storage_relation::laws::table_differs;

/// Each well-formed program of the class keeps the headline, if its image fits memory.
pub fn unit_number_headlines_kept()
    ensures { UnitNumberHeadlinesKept }
{
    marked_once();
    table_differs();
    unit_headlines_kept();
}

/// A worked row: a unit sets the variable whose sum overflows, a program of the class.
pub fn heal_kept()
    ensures { HealKept }
{
    unit_number_headlines_kept();
}

/// A worked row: units that are raised in a procedure and in a function, which one of them leaves by a jump.
pub fn guard_kept()
    ensures { GuardKept }
{
    unit_number_headlines_kept();
}

/// A worked row: ON in a group in a group, whose unit is raised behind it.
pub fn group_kept()
    ensures { GroupKept }
{
    unit_number_headlines_kept();
}

/// A worked row: units that change in a loop, in choices and in a group with a label, and REVERT and SYSTEM.
pub fn shift_kept()
    ensures { ShiftKept }
{
    unit_number_headlines_kept();
}

/// A worked row: SIGNAL of a condition with a unit, and of one without, which ends the run.
pub fn hail_kept()
    ensures { HailKept }
{
    unit_number_headlines_kept();
}

/// A worked row: a number that is written again and again, and overflows on its way, where a unit sets it.
pub fn mend_kept()
    ensures { MendKept }
{
    unit_number_headlines_kept();
}

/// A worked row: a unit that raises its own condition, and so enters itself.
pub fn again_kept()
    ensures { AgainKept }
{
    unit_number_headlines_kept();
}

/// A worked row: a procedure that calls itself until its unit is raised, which leaves all of its blocks by a jump.
pub fn climb_kept()
    ensures { ClimbKept }
{
    unit_number_headlines_kept();
}

/// A worked row: loops that count, one of them in a unit that is raised in the other, and elements that both assign.
pub fn tally_kept()
    ensures { TallyKept }
{
    unit_number_headlines_kept();
}

/// A worked row: a FIXED BINARY(15) variable that is raised over its limit, and wraps, since a unit returns.
pub fn wrap_kept()
    ensures { WrapKept }
{
    unit_number_headlines_kept();
}

/// A worked row: a unit for ERROR, which reads ONCODE and leaves by a jump.
pub fn rescue_kept()
    ensures { RescueKept }
{
    unit_number_headlines_kept();
}

/// A worked row: a unit for ERROR that returns, behind which the run ends, and one for FIXEDOVERFLOW.
pub fn halt_kept()
    ensures { HaltKept }
{
    unit_number_headlines_kept();
}

/// A worked row: ONCODE in a unit, in one that is raised in it, and in neither.
pub fn toll_kept()
    ensures { TollKept }
{
    unit_number_headlines_kept();
}

/// A worked row: a unit for ERROR that is raised while a procedure writes, writes itself, and leaves both by a jump.
pub fn plead_kept()
    ensures { PleadKept }
{
    unit_number_headlines_kept();
}

/// A worked row: a procedure's own unit, raised in another that it calls, and the main procedure's behind REVERT.
pub fn lodge_kept()
    ensures { LodgeKept }
{
    unit_number_headlines_kept();
}

/// A worked row: a procedure's own unit, which leaves two blocks by a jump to a label of the procedure.
pub fn retreat_kept()
    ensures { RetreatKept }
{
    unit_number_headlines_kept();
}

/// A worked row: a function whose unit for ERROR goes back to a label of it from behind its list.
pub fn resort_kept()
    ensures { ResortKept }
{
    unit_number_headlines_kept();
}
