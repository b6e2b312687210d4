// Laws of the definitions: each function's contract is one law, and calling it does nothing.

ghost use Rattle.number_headlines.specs.AlarmRows.{AlarmKept};
ghost use Rattle.number_headlines.specs.AreaRows.{GatherKept};
ghost use Rattle.number_headlines.specs.ArrayRows.{SieveKept};
ghost use Rattle.number_headlines.specs.BeginRows.{BeginsKept};
ghost use Rattle.number_headlines.specs.CallRows.{CallingKept};
ghost use Rattle.number_headlines.specs.ChainRows.{ChainKept};
ghost use Rattle.number_headlines.specs.CountRows.{CountingKept};
ghost use Rattle.number_headlines.specs.EscapeRows.{EscapeKept};
ghost use Rattle.number_headlines.specs.EuclidRows.{EuclidKept};
ghost use Rattle.number_headlines.specs.FlagRows.{FlagKept};
ghost use Rattle.number_headlines.specs.GatheredRows.{GatheredKept};
ghost use Rattle.number_headlines.specs.GivenRows.{FactKept};
ghost use Rattle.number_headlines.specs.GridRows.{TriangleKept};
ghost use Rattle.number_headlines.specs.Headlines.{NumberHeadlinesKept};
ghost use Rattle.number_headlines.specs.InitialRows.{InitialKept};
ghost use Rattle.number_headlines.specs.LentRows.{LentKept};
ghost use Rattle.number_headlines.specs.LoopRows.{LoopsKept};
ghost use Rattle.number_headlines.specs.FewerRows.{FarKept};
ghost use Rattle.number_headlines.specs.HolderRows.{HolderKept};
ghost use Rattle.number_headlines.specs.NestRows.{NestKept};
ghost use Rattle.number_headlines.specs.PairRows.{PairKept};
ghost use Rattle.number_headlines.specs.PowerRows.{PowerKept};
ghost use Rattle.number_headlines.specs.PutRows.{SquaresKept};
ghost use Rattle.number_headlines.specs.ReadRows.{PairsKept};
ghost use Rattle.number_headlines.specs.QuestRows.{QuestKept};
ghost use Rattle.number_headlines.specs.Rows.{TotalKept};
ghost use Rattle.number_headlines.specs.SearchRows.{SearchKept};
ghost use Rattle.number_headlines.specs.SumRows.{SumKept};
ghost use Rattle.number_headlines.specs.TextRows.{WordKept};

use block_headlines::laws::headlines_kept;
use code_marks::laws::marked_once;
use storage_relation::laws::table_differs;

/// Each well-formed program of the class keeps the headline, if its image fits memory.
pub fn number_headlines_kept()
    ensures { NumberHeadlinesKept }
{
    marked_once();
    table_differs();
    headlines_kept();
}

/// A worked row: a loop with a choice, a program of the class.
pub fn total_kept()
    ensures { TotalKept }
{
    number_headlines_kept();
}

/// A worked row: SIGNAL, which ends the run.
pub fn alarm_kept()
    ensures { AlarmKept }
{
    number_headlines_kept();
}

/// A worked row with calls: the same loop, in which a procedure and a function of the main procedure are called.
pub fn calling_kept()
    ensures { CallingKept }
{
    number_headlines_kept();
}

/// A worked row with recursion: two procedures that call one another, one inside one of them, and a function.
pub fn nest_kept()
    ensures { NestKept }
{
    number_headlines_kept();
}

/// A worked row that reads: a loop that takes pairs of numbers until the sum of their products is large enough.
pub fn pairs_kept()
    ensures { PairsKept }
{
    number_headlines_kept();
}

/// A worked row that writes: a loop that prints a table of numbers with their squares.
pub fn squares_kept()
    ensures { SquaresKept }
{
    number_headlines_kept();
}

/// A worked row with an array: flags are struck at places that a function returns, and its last subscript is too great.
pub fn sieve_kept()
    ensures { SieveKept }
{
    number_headlines_kept();
}

/// A worked row with loops that count: one stands in the turns of the other, where a function is called.
pub fn counting_kept()
    ensures { CountingKept }
{
    number_headlines_kept();
}

/// A worked row with arguments: a function calls itself with a copy, and a procedure changes its parameter.
pub fn fact_kept()
    ensures { FactKept }
{
    number_headlines_kept();
}

/// A worked row with arrays of two dimensions and of bits: a triangle of sums, with a flag for each number past 2.
pub fn triangle_kept()
    ensures { TriangleKept }
{
    number_headlines_kept();
}

/// A worked row with a scalar of 15 bits and a bit: a loop that doubles the one as long as the other says so.
pub fn flag_kept()
    ensures { FlagKept }
{
    number_headlines_kept();
}

/// A worked row with two variables beside a function with a parameter.
pub fn sum_kept()
    ensures { SumKept }
{
    number_headlines_kept();
}

/// A worked row with lists of arguments: a function of two parameters is called in an argument of itself, in the turns
/// of a loop that counts.
pub fn gathered_kept()
    ensures { GatheredKept }
{
    number_headlines_kept();
}

/// A worked row with texts: one grows in a loop, waits while a function runs, and is written with a number.
pub fn word_kept()
    ensures { WordKept }
{
    number_headlines_kept();
}

/// A worked row with an area: numbers are put into it by way of a pointer, summed and printed, and it is emptied.
pub fn gather_kept()
    ensures { GatherKept }
{
    number_headlines_kept();
}

/// A worked row with a list: structures are linked in an area by way of pointers, walked, written and freed.
pub fn chain_kept()
    ensures { ChainKept }
{
    number_headlines_kept();
}

/// A worked row with two areas: a structure in one is linked to one in the other, the link is followed, and a function
/// is called with what each has.
pub fn pair_kept()
    ensures { PairKept }
{
    number_headlines_kept();
}

/// A worked row with variables beside parameters: a function that raises a number to a power in a loop that counts.
pub fn power_kept()
    ensures { PowerKept }
{
    number_headlines_kept();
}

/// A worked row with INITIAL: a table of constants, a text, and a variable that begins anew in each block of a
/// function.
pub fn initial_kept()
    ensures { InitialKept }
{
    number_headlines_kept();
}

/// A worked row with arguments by reference: a procedure calls itself with its parameter and a variable of its own.
pub fn euclid_kept()
    ensures { EuclidKept }
{
    number_headlines_kept();
}

/// A worked row with both: variables that INITIAL gave values are passed by reference.
pub fn lent_kept()
    ensures { LentKept }
{
    number_headlines_kept();
}

/// A worked row with other loops: DO that counts while a test is met, and DO with a variable that starts once.
pub fn loops_kept()
    ensures { LoopsKept }
{
    number_headlines_kept();
}

/// A worked row with parameters of a block around: a procedure adds one that its holder has to another, and calls its
/// holder with both.
pub fn holder_kept()
    ensures { HolderKept }
{
    number_headlines_kept();
}

/// A worked row with begin blocks: in the turns of a loop, in one another, with a procedure in one, and in a procedure
/// that calls itself and returns from there.
pub fn begins_kept()
    ensures { BeginsKept }
{
    number_headlines_kept();
}

/// A worked row with jumps: a procedure that calls itself, and in it a function, which leaves all of them for a label
/// of the main procedure.
pub fn search_kept()
    ensures { SearchKept }
{
    number_headlines_kept();
}

/// A worked row with jumps and arguments: a function that calls itself with a parameter, in a loop that counts, until
/// it leaves all of these for a label.
pub fn quest_kept()
    ensures { QuestKept }
{
    number_headlines_kept();
}

/// A worked row with functions of fewer bits: what one returns in a loop comes to have too many, which is raised.
pub fn far_kept()
    ensures { FarKept }
{
    number_headlines_kept();
}

/// A worked row with jumps out of begin blocks: a procedure that calls itself from one, until that leaves all of them
/// for a label of the main procedure.
pub fn escape_kept()
    ensures { EscapeKept }
{
    number_headlines_kept();
}
