// Laws of the definitions: each function's contract is one law, and calling it does nothing.

ghost use Rattle.pli_typing.specs.Laws.{ConvertedOnce, ConversionExact};

/// A pair of kinds has at most one conversion.
pub fn converted_once()
    ensures { ConvertedOnce }
{}

/// The conversion that the definitions compute for a pair of kinds is the one that it has, and they compute none just
/// where it has none.
pub fn conversion_exact()
    ensures { ConversionExact }
{}
