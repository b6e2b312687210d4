// The words of a table.

ghost use Rattle.std.specs.Prelude.{◌≡◌, map, IfOk};
ghost use Rattle.rv_meaning.specs.Tables.{table_words};
ghost use Rattle.pli_typing.specs.TypedStatementView.{program_of};
ghost use Rattle.pli_coding.specs.SignatureTable.{table_of};
ghost use Rattle.rv_address.specs.Rows.{items_of};
ghost use Rattle.rv_program.specs.Joined.{joined};

use rv_address::known::Known;
use std::alloc::{AllocError, Global};

/// The words of all signatures, one behind the other.
#[tactic(auto, using(crate::proofs::Steps::next_signature, crate::proofs::Steps::nothing_more, std::proofs::lemmas::List::drop_all))]
fn joined(alloc: Global, table: &[Vec<u32>]) -> Result<Vec<u32>, AllocError>
    ensures { IfOk result (λ t. t.items ≡ joined (map items_of table.now)) }
{
    let mut words = Vec::new(alloc);
    for signature in table {
        words.extend_from_slice(signature)?;
    }
    Ok(words)
}

/// The words of a program's table.
#[tactic(auto, using(crate::proofs::Steps::table_joined))]
pub fn table_words(alloc: Global, known: &Known) -> Result<Vec<u32>, AllocError>
    ensures { IfOk result (λ t. t.items ≡ table_words (table_of (program_of known.now.typed.now))) }
{
    let table = known.table();
    Ok(joined(alloc, table)?)
}
