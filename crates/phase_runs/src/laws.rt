// Laws of the definitions: each function's contract is one law, and calling it does nothing.

ghost use Rattle.phase_runs.specs.Laws.{FormsDoThrough, PhasesOf, UnitsChangeThrough};
ghost use Rattle.phase_runs.specs.Signals.{SignalsEnd};

/// Lists, groups, choices and loops do what they mean through phases, if what is in them does.
pub fn forms_do()
    ensures { FormsDoThrough }
{}

/// ON, ON with SYSTEM and REVERT come to another phase.
pub fn units_change()
    ensures { UnitsChangeThrough }
{}

/// The phases of a block with some ONs, from its first statement on.
pub fn phases_change()
    ensures { PhasesOf }
{}

/// SIGNAL where no unit is in force, or where none can be entered, ends the run.
pub fn signals_end()
    ensures { SignalsEnd }
{}
