// Laws of the definitions: each function's contract is one law, and calling it does nothing.

ghost use Rattle.edit_runs.specs.Edits.{PlacesWait, PutsDo};
ghost use Rattle.edit_runs.specs.FormatRows.{NumbersShown};
ghost use Rattle.edit_runs.specs.MixedEdits.{MixedPutsDo};
ghost use Rattle.edit_runs.specs.SkipRows.{RuledRan};
ghost use Rattle.edit_runs.specs.Skips.{SkipsDo};
ghost use Rattle.edit_runs.specs.TextEdits.{DataPutsDo};

use run_keeper::laws::run_keeper_keeps;

/// PUT SKIP ends lines, as it is meant.
pub fn skips_do()
    ensures { SkipsDo }
{}

/// A worked row: a loop by GOTO that ends two lines in each turn, until its variable overflows.
pub fn ruled_ran()
    ensures { RuledRan }
{
    run_keeper_keeps();
}

/// What is known of a block, and around its expressions, is known while a place in a format list is in use.
pub fn places_wait()
    ensures { PlacesWait }
{}

/// PUT EDIT of numbers by F does what it means, in a block that knows the format list.
pub fn puts_do()
    ensures { PutsDo }
{}

/// PUT EDIT with some data lists of numbers by F and others of numbers or texts by A does what it means, in a block
/// that knows the format lists.
pub fn data_puts_do()
    ensures { DataPutsDo }
{}

/// PUT EDIT of numbers and texts by any lists does what it means, in a block that knows the format lists: what a list
/// has next shows each of them.
pub fn mixed_puts_do()
    ensures { MixedPutsDo }
{}

/// Worked rows: lists of F items, and a program that writes three numbers by one.
pub fn numbers_shown()
    ensures { NumbersShown }
{}
