// Where the element of a number is, by the rows of a part and the elements in each.

ghost use Rattle.pli_order.specs.Walks.{IsTurn};

/// Past all elements of a part, or in one of its rows; with the number that the element has behind the part, or in the row.
#[derive(Clone, Copy, PartialEq, Eq, Debug)]
pub enum Turn {
    Past(u64),
    Into { row: u64, rest: u64 },
}

/// Where the element of a number is, with so many elements in each of so many rows.
pub fn turn_in(rows: u64, each: u64, number: u64) -> Turn
    ensures { IsTurn rows each number result }
{
    let here = rows.saturating_mul(each);
    if here <= number {
        return Turn::Past(number - here);
    }
    Turn::Into {
        row: number / each,
        rest: number % each,
    }
}
