// Format lists as they stand in memory, and pieces of them.

/// An item of a format list; widths are numbers of characters.
#[derive(Clone, Copy, PartialEq, Eq, Debug)]
pub enum Format {
    Fixed(u32),
    Text(Option<u32>),
    Space(u32),
    Skip(u32),
    Column(u32),
}

/// An item that was passed, and whether its list was begun again for it.
#[derive(Clone, Copy, PartialEq, Eq, Debug)]
pub struct Passed {
    pub format: Format,
    pub is_again: bool,
}

/// An item that is repeated so many times, or a list of so many of the nodes that follow.
#[derive(Clone, Copy, PartialEq, Eq, Debug)]
pub enum Node {
    Item(u32, Format),
    List(u32, u32),
}

/// So many times an item, or so many times the nodes from a place on, as many as the last number says.
#[derive(Clone, Copy, PartialEq, Eq, Debug)]
pub enum Piece {
    Item(u32, Format),
    Range(u32, usize, u32),
}

/// A range in three: its first node, the nodes behind it, and its further repetitions.
#[derive(Clone, Copy, PartialEq, Eq, Debug)]
pub struct Split {
    pub first: Piece,
    pub behind: Piece,
    pub again: Piece,
}
