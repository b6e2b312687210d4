// Laws of the definitions: each function's contract is one law, and calling it does nothing.

ghost use Rattle.rv_meaning.specs.Laws.{OneToOne, KeepsAll};

/// An image has one list of bytes, and a list of bytes is that of one image at most.
pub fn one_to_one()
    ensures { OneToOne }
{}

/// The bytes of an image keep every rule for whose breach bytes are refused.
pub fn keeps_all()
    ensures { KeepsAll }
{}
