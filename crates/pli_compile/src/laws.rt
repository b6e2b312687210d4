// Laws of refusals and of trees: each function's contract is one law, and calling it does nothing.

ghost use Rattle.pli_compile.specs.Compiling.{FirstPathShort, ProcedureFound, RefusedNever};
ghost use Rattle.pli_compile.specs.Stacks.{ListsMet, ParametersApart, PlacesApart, StacksFit};

use pli_headline::first_path::first_path_small;

/// A source that is refused, for anything but want of memory, is none that is accepted.
pub fn refused_never()
    ensures { RefusedNever }
{}

/// Only a source without a token spells a tree without a procedure.
pub fn procedure_found()
    ensures { ProcedureFound }
{}

/// No program of the first path is refused for the length of its code.
pub fn first_path_short()
    ensures { FirstPathShort }
{
    first_path_small();
}

/// The frames of as many blocks as may be active fit the stacks, with all data that the limit on automatic data allows.
pub fn stacks_fit()
    ensures { StacksFit }
{}

/// What variables take in a frame is apart.
pub fn places_apart()
    ensures { PlacesApart }
{}

/// Where the list of arguments is stands in a frame before the variables, and parameters are apart in the list.
pub fn parameters_apart()
    ensures { ParametersApart }
{}

/// A word of a list of arguments is where the caller stores it, counted from the list's address.
pub fn lists_met()
    ensures { ListsMet }
{}
