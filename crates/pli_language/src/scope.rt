// Which declaration a reference means.

/// A declaration: the block that it stands in, and its place among that block's declarations, both counted from 0.
#[derive(Clone, Copy, PartialEq, Eq, Debug)]
pub struct DeclarationAt {
    pub block: usize,
    pub index: usize,
}

/// What names mean at a place: one declaration, none, or one of several that can't be told apart.
#[derive(Clone, Copy, PartialEq, Eq, Debug)]
pub enum Found {
    One(DeclarationAt),
    None,
    Ambiguous,
}
