// Laws of the symbols that code marks, each of which a function carries.

ghost use Rattle.code_marks.specs.CodeMarks.{ExpressionsMarkNone, StatementsMark, ProgramsMark, MarkedOnce};
ghost use Rattle.code_marks.specs.CodeData.{DataStand};

/// The code of an expression marks no symbol, whatever is declared around it.
pub fn expressions_mark_none()
    ensures { ExpressionsMarkNone }
{}

/// The code of statements marks the labels of their lists with the numbers of their blocks, and the ends of the
/// on-units among them that are blocks.
pub fn statements_mark()
    ensures { StatementsMark }
{}

/// The code of a program marks the routines of raises, those of extents, and each procedure's entry, labels and end.
pub fn programs_mark()
    ensures { ProgramsMark }
{}

/// The code of a well-formed tree marks each symbol once at most, so that a jump's place is the one that it means.
pub fn marked_once()
    ensures { MarkedOnce }
{}

/// Each datum that code names, whatever the code, has a place behind it.
pub fn data_stand()
    ensures { DataStand }
{}
