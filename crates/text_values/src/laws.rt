// Laws of the definitions: each function's contract is one law, and calling it does nothing.

ghost use Rattle.text_values.specs.Assignments.{TextAssignmentsDo};
ghost use Rattle.text_values.specs.Bits.{BitTextsDo, BitsAbove};
ghost use Rattle.text_values.specs.Known.{TextsKnown};
ghost use Rattle.text_values.specs.Laws.{TextValuesDo};

/// A constant or variable of a block is known where texts wait, where a place in a format list is in use, and in a
/// block that knows the same variables.
pub fn texts_known()
    ensures { TextsKnown }
{}

/// Text constants that are told at the points of a block, and its CHARACTER variables, come onto the stack above what
/// waits there; two texts are compared and dropped.
pub fn text_values_do()
    ensures { TextValuesDo }
{}

/// A bit where texts wait is one of the block that has them, and where none wait it is a test of the block itself.
pub fn bits_above()
    ensures { BitsAbove }
{}

/// Texts and numbers of bits, and the bit that a text shows.
pub fn bit_texts_do()
    ensures { BitTextsDo }
{}

/// An assignment to a CHARACTER variable does what it means if its text does.
pub fn text_assignments_do()
    ensures { TextAssignmentsDo }
{}
