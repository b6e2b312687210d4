// Where a part of a program stands.

use pli_variables::Tables;

/// The tables of a program, and the number of the innermost block around a part of it.
#[derive(Clone, Copy)]
pub struct Scope<'t, 's, 'a> {
    pub tables: &'t Tables<'s, 'a>,
    pub block: usize,
}
