// Laws of the tokens of trees, each of which a function carries.

ghost use Rattle.tree_tokens.specs.TreeTokens.{TreesSpelled};

/// A source has no fewer tokens than its tree is spelled with.
pub fn trees_spelled()
    ensures { TreesSpelled }
{}
