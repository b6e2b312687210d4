// Laws of frames, each of which a function carries.

ghost use Rattle.small_frames.specs.Weights.{WeightsLimited};
ghost use Rattle.small_frames.specs.Within.{ExpressionsWithin};
ghost use Rattle.small_frames.specs.Light.{HeadsLight};
ghost use Rattle.small_frames.specs.Small.{AcceptedSmall};

/// An expression of a source weighs no more than its parentheses and arguments allow.
pub fn weights_limited()
    ensures { WeightsLimited }
{}

/// What an expression comes to takes no more words of a frame than it weighs, whatever is declared around it.
pub fn expressions_within()
    ensures { ExpressionsWithin }
{}

/// No expression in a head of what is spelled weighs more than the limits on parentheses and arguments allow.
pub fn heads_light()
    ensures { HeadsLight }
{}

/// No block of an accepted source has a frame of more than 4,896 bytes beside its variables, and no variable a routine
/// of extents with more than 2,368.
pub fn accepted_small()
    ensures { AcceptedSmall }
{}
