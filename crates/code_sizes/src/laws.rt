// Laws of the sizes of code, each of which a function carries.

ghost use Rattle.code_sizes.specs.ExpressionSizes.{ExpressionsSized};
ghost use Rattle.code_sizes.specs.StoringSizes.{StoringSized};
ghost use Rattle.code_sizes.specs.StreamSizes.{StreamsSized};
ghost use Rattle.code_sizes.specs.StatementSizes.{AllStatementsSized};
ghost use Rattle.code_sizes.specs.StartSizes.{BesideProceduresSized};
ghost use Rattle.code_sizes.specs.ProgramSizes.{AllProgramsSized};

/// The code of an expression is no longer than the sum of what its nodes take, whatever is declared around it and
/// whatever temporaries are in use.
pub fn expressions_sized()
    ensures { ExpressionsSized }
{}

/// Nor is that of an assignment, of ALLOCATE and of FREE.
pub fn storing_sized()
    ensures { StoringSized }
{}

/// Nor is that of GET and PUT.
pub fn streams_sized()
    ensures { StreamsSized }
{}

/// Nor is that of a statement or a list, with the blocks in them and the variables of these.
pub fn statements_sized()
    ensures { AllStatementsSized }
{}

/// Nor is that of routines of extents, of the start of a run, and of the routines of raises.
pub fn beside_procedures_sized()
    ensures { BesideProceduresSized }
{}

/// Nor is that of procedures and of whole programs, and an image has as many words.
pub fn programs_sized()
    ensures { AllProgramsSized }
{}
