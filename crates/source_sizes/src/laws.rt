// Laws of the lengths of code, each of which a function carries.

ghost use Rattle.source_sizes.specs.Short.{ExpressionsShort, ReferencesShort};

/// The code of an expression of a source has no more than 104 words for each token that it is spelled with, and 53.
pub fn expressions_short()
    ensures { ExpressionsShort }
{}

/// So has that of a reference.
pub fn references_short()
    ensures { ReferencesShort }
{}
