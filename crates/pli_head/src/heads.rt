// The forms of heads.

use pli_language::condition::Condition;
use pli_language::declaration::DeclareItem;
use pli_language::expr::{Expr, Name, Place};
use pli_language::stmt::{Counting, ProcedureOption, Stmt};

/// A head, with the place of its first token: a procedure's, a declaration, a whole simple statement, or the front of
/// another one.
#[derive(Debug, Drop)]
pub enum Head {
    ProcedureFront {
        place: Place,
        parameters: Vec<Name>,
        options: Vec<ProcedureOption>,
    },
    Declaring {
        items: Vec<DeclareItem>,
        place: Place,
    },
    Simple(Stmt),
    IfThen {
        condition: Expr,
        place: Place,
    },
    Else {
        place: Place,
    },
    DoGroup {
        place: Place,
    },
    DoWhileGroup {
        condition: Expr,
        place: Place,
    },
    DoCountGroup {
        counting: Counting,
        place: Place,
    },
    BeginBlock {
        place: Place,
    },
    On {
        condition: Condition,
        place: Place,
    },
    System {
        place: Place,
    },
    EndOf {
        name: Option<Name>,
        place: Place,
    },
}
