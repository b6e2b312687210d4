// Laws of the definitions: each function's contract is one law, and calling it does nothing.

ghost use Rattle.nested_begins.specs.BegunVariables.{BegunVariables};
ghost use Rattle.nested_begins.specs.DeepBegins.{DeepBeginsEnd};
ghost use Rattle.nested_begins.specs.InnerBlocks.{InnerBlocks};

/// BEGIN ends the run where as many blocks are active as may be.
pub fn deep_begins_end()
    ensures { DeepBeginsEnd }
{}

/// A begin block makes all its variables, and each is known in it; where they pass the limit the run ends.
pub fn begun_variables()
    ensures { BegunVariables }
{}

/// It is nested in the blocks around it, whose variables, of any type, are the same ones there.
pub fn inner_blocks()
    ensures { InnerBlocks }
{}
