// Laws of typed trees, each of which a function carries.

ghost use Rattle.well_formed_trees.specs.WellFormed.{ShapeKept, NumbersKept, ListsKept, OutermostKept, LabelsKept};
ghost use Rattle.well_formed_trees.specs.WellFormed.{AcceptedWellFormed};
ghost use Rattle.well_formed_trees.specs.Spelled.{RangesKept};
ghost use Rattle.well_formed_trees.specs.Counted.{ArgumentsKept};
ghost use Rattle.well_formed_trees.specs.Shallow.{ParenthesesKept};
ghost use Rattle.well_formed_trees.specs.Placed.{PlacesKept};
ghost use Rattle.well_formed_trees.specs.Written.{GroupsKept};
ghost use Rattle.well_formed_trees.specs.Framed.{AcceptedFramed};
ghost use Rattle.well_formed_trees.specs.Everywhere.{AcceptedTargets};
ghost use Rattle.well_formed_trees.specs.SoundStatements.{AcceptedProcedures};
ghost use Rattle.well_formed_trees.specs.Structured.{AcceptedVariables};
ghost use Rattle.well_formed_trees.specs.SoundVariables.{AcceptedEvaluations, AcceptedLeaves, AcceptedChecks};
ghost use Rattle.well_formed_trees.specs.Held.{BlocksKept, NestingKept, TableKept, EntriesKept, DepthsKept};
ghost use Rattle.well_formed_trees.specs.Held.{MainKept, ResultsKept, ParametersKept};

/// What is spelled is procedures, with the labels of each END last in their list, and on-units that hold no statement
/// but in BEGIN blocks.
pub fn shape_kept()
    ensures { ShapeKept }
{}

/// Procedures stand in the outermost lists of blocks, and in no group.
pub fn groups_kept()
    ensures { GroupsKept }
{}

/// Lines, constants, texts and format lists of what is spelled are in range, what stands right of an operator binds
/// closer than it, and nothing stands deeper than it may.
pub fn ranges_kept()
    ensures { RangesKept }
{}

/// No head of what is spelled has more arguments and subscripts than a head may, nor a procedure more parameters.
pub fn arguments_kept()
    ensures { ArgumentsKept }
{}

/// No expression in a head of what is spelled has more parentheses open at once than may be.
pub fn parentheses_kept()
    ensures { ParenthesesKept }
{}

/// Each block has a number of its own, from 1 on.
pub fn numbers_kept()
    ensures { NumbersKept }
{}

/// Variables are listed for each block.
pub fn lists_kept()
    ensures { ListsKept }
{}

/// Each label stands once in its block.
pub fn labels_kept()
    ensures { LabelsKept }
{}

/// Each block stands one level further in than the block that holds it, where the table of blocks has it; lines,
/// RETURN, SKIP and format lists are as they may be.
pub fn blocks_kept()
    ensures { BlocksKept }
{}

/// The block that holds another one is the last block of its level before it.
pub fn nesting_kept()
    ensures { NestingKept }
{}

/// The table has as many entries as there are blocks.
pub fn table_kept()
    ensures { TableKept }
{}

/// Each entry of the table has its own number first, at the level of as many blocks as are around.
pub fn entries_kept()
    ensures { EntriesKept }
{}

/// The whole program, which is block 0, declares nothing.
pub fn outermost_kept()
    ensures { OutermostKept }
{}

/// Each block has its entry in the table, and none stands inside more blocks than a block may.
pub fn depths_kept()
    ensures { DepthsKept }
{}

/// The first procedure stands in no block and has no parameters, and all others stand in it.
pub fn main_kept()
    ensures { MainKept }
{}

/// What a procedure returns is no area, and its extents are constants in range.
pub fn results_kept()
    ensures { ResultsKept }
{}

/// Each parameter of a procedure is a variable of its block, and no two are the same one.
pub fn parameters_kept()
    ensures { ParametersKept }
{}

/// Labels, procedures and the names of DECLARE stand in source order, so no two of them have one place.
pub fn places_kept()
    ensures { PlacesKept }
{}

/// The typed tree of each accepted source is well formed but for what its expressions, GOTO and declarations say.
pub fn accepted_framed()
    ensures { AcceptedFramed }
{}

/// The label that a GOTO of an accepted source names stands in a list around it, in the block at the level that it
/// says.
pub fn accepted_targets()
    ensures { AcceptedTargets }
{}

/// Each procedure of an accepted source is sound, with all its blocks, statements and expressions.
pub fn accepted_procedures()
    ensures { AcceptedProcedures }
{}

/// Each variable of an accepted source has the members of a structure, each leaf as many bounds as its member has
/// dimensions, and areas are variables by themselves.
pub fn accepted_variables()
    ensures { AcceptedVariables }
{}

/// What is evaluated for the extents of each variable of an accepted source is a sound number in the variable's block.
pub fn accepted_evaluations()
    ensures { AcceptedEvaluations }
{}

/// Each leaf of a variable of an accepted source has an extent, bounds and values of INITIAL that are in range and that
/// the variable's class lets it have.
pub fn accepted_leaves()
    ensures { AcceptedLeaves }
{}

/// What is checked behind an evaluation of an accepted source is in range, or among the variable's evaluations.
pub fn accepted_checks()
    ensures { AcceptedChecks }
{}

/// The typed tree of each accepted source is well formed: all that a proof about code wants to know of it.
pub fn accepted_well_formed()
    ensures { AcceptedWellFormed }
{}
