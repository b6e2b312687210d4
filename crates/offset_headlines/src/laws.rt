// Laws of the definitions: each function's contract is one law, and calling it does nothing.

ghost use Rattle.offset_headlines.specs.Rows.{TwinKept};
ghost use Rattle.offset_headlines.specs.Strays.{MissKept, StrayKept};

use block_headlines::laws::headlines_kept;

/// A worked row: three structures in an area are linked by offsets, and the list is walked in a copy of the area.
pub fn twin_kept()
    ensures { TwinKept }
{
    headlines_kept();
}

/// A worked row: by an offset that names nothing in an area a structure is assigned, which is told.
pub fn miss_kept()
    ensures { MissKept }
{
    headlines_kept();
}

/// A worked row: the offset in an area is asked of a structure in its copy, which is told.
pub fn stray_kept()
    ensures { StrayKept }
{
    headlines_kept();
}
