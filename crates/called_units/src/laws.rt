// Laws of the definitions: each function's contract is one law, and calling it does nothing.

ghost use Rattle.called_units.specs.Functions.{FunctionsTurn};
ghost use Rattle.called_units.specs.Hosts.{HostsKnown};
ghost use Rattle.called_units.specs.Lists.{ListsEnd};

/// A list of any block comes to its end through phases, and so does a function's, or they are left.
pub fn lists_end()
    ensures { ListsEnd }
{}

/// A unit's block has the variables and the static ancestors of the block that established it.
pub fn hosts_known()
    ensures { HostsKnown }
{}

/// A function's list goes on at its own labels where a unit jumps there, also out of ERROR behind it.
pub fn functions_turn()
    ensures { FunctionsTurn }
{}
