// Laws of the definitions: each function's contract is one law, and calling it does nothing.

ghost use Rattle.number_runs.specs.Areas.{AreasMade};
ghost use Rattle.number_runs.specs.Laws.{BodiesDo, ExpressionsDo, TemporariesFit};
ghost use Rattle.number_runs.specs.Variables.{WordsMade};

/// Numbers and tests of the class leave what they mean in a register, at each point of a block that knows what they
/// may name.
pub fn expressions_do()
    ensures { ExpressionsDo }
{}

/// Each statement of a body of the class does what it means, wherever its code stands in a procedure's or function's
/// own block.
pub fn bodies_do()
    ensures { BodiesDo }
{}

/// A procedure makes its variables, any number of them, and each is a number of its block.
pub fn words_made()
    ensures { WordsMade }
{}

/// Temporaries of the class wait in registers that the block saves.
pub fn temporaries_fit()
    ensures { TemporariesFit }
{}

/// So does one with areas and what is BASED among them, and the name of each area is told there.
pub fn areas_made()
    ensures { AreasMade }
{}
