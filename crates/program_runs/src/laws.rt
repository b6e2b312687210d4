// Laws of the definitions: each function's contract is one law, and calling it does nothing.

ghost use Rattle.program_runs.specs.Calls.{CallsDo, NoneMade, ProceduresRun};
ghost use Rattle.program_runs.specs.Constants.{ConstantsStand};
ghost use Rattle.program_runs.specs.Initial.{InitialRead, VariablesBegin};
ghost use Rattle.program_runs.specs.Names.{NamesTold, OneNamed};
ghost use Rattle.program_runs.specs.Procedures.{ProceduresBegin};
ghost use Rattle.program_runs.specs.Programs.{ProgramsRun};
ghost use Rattle.program_runs.specs.Rows.{ProgramRan};
ghost use Rattle.program_runs.specs.Starts.{ImagesStart};
ghost use Rattle.program_runs.specs.Statements.{ListsDo, StatementsDo};
ghost use Rattle.program_runs.specs.VariableRows.{NumberRan};
ghost use Rattle.program_runs.specs.Variables.{OneAmong, OneMade, VariablesMade};

use run_keeper::laws::run_keeper_keeps;

/// The start of an image comes to the call of the main procedure, at the first point.
pub fn images_start()
    ensures { ImagesStart }
{
    run_keeper_keeps();
}

/// The layer of a procedure is what its call makes, and its code that of the program's procedure.
pub fn procedures_begin()
    ensures { ProceduresBegin }
{}

/// Null statements, RETURN and STOP do what they mean, at each point of their block.
pub fn statements_do()
    ensures { StatementsDo }
{}

/// Bytes that are told of static data where a block's first statement begins stand at each of its points.
pub fn constants_stand()
    ensures { ConstantsStand }
{}

/// A list does what it means if each of its statements does.
pub fn lists_do()
    ensures { ListsDo }
{}

/// A procedure comes behind its call if each of its statements does what it means.
pub fn procedures_run()
    ensures { ProceduresRun }
{}

/// So does the statement CALL of it, in the block that declares it.
pub fn calls_do()
    ensures { CallsDo }
{}

/// A procedure that has no variables makes none.
pub fn none_made()
    ensures { NoneMade }
{}

/// The run of a whole image does what its program does, if each statement of the main procedure does.
pub fn programs_run()
    ensures { ProgramsRun }
{
    run_keeper_keeps();
}

/// A worked row: such a program, with the image that pli_coding defines.
pub fn program_ran()
    ensures { ProgramRan }
{
    run_keeper_keeps();
}

/// A variable of constant size is made in the newest block, as its code and the storage machine do it.
pub fn variables_made()
    ensures { VariablesMade }
{}

/// Service 7 reads the INITIAL values that are told of static data at the place that a variable's code hands over.
pub fn initial_read()
    ensures { InitialRead }
{}

/// A variable with INITIAL values is made so, too.
pub fn variables_begin()
    ensures { VariablesBegin }
{}

/// A procedure with one variable makes it where its block begins.
pub fn one_made()
    ensures { OneMade }
{}

/// The name of a variable that is made is told of its block's frame.
pub fn names_told()
    ensures { NamesTold }
{}

/// A procedure with one variable makes it where its block begins, and its name is told.
pub fn one_named()
    ensures { OneNamed }
{}

/// If it can make it where the first statement of the block that calls it begins, it can wherever that calls it.
pub fn one_among()
    ensures { OneAmong }
{}

/// A worked row: a main procedure with one variable.
pub fn number_ran()
    ensures { NumberRan }
{
    run_keeper_keeps();
}
