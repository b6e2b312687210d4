// All heads of a source.

ghost use Rattle.std.specs.Prelude.{◌≡◌, ◌≤◌, IfOk, None, Some, length};
ghost use Rattle.pli_language.specs.Nesting.{outermost};
ghost use Rattle.pli_language.specs.Tokens.{most_bytes};
ghost use Rattle.pli_parse.specs.Answers.{answer};
ghost use Rattle.pli_parse.specs.Reading.{parsed};
ghost use Rattle.pli_parse.specs.View.{answer_of};

use crate::turn::{Turn, next_turn};
use pli_language::fault::SourceFault;
use pli_language::stmt::Tree;
use pli_language::token::Token;
use pli_nest::outermost;
use std::alloc::{AllocError, Global};

/// The tree of all tokens, or the least of the rules that they break.
pub fn tree(
    alloc: Global,
    source: &[u8],
    tokens: &[Token],
) -> Result<Result<Tree, SourceFault>, AllocError>
    requires { length source.now ≤ most_bytes }
    ensures { IfOk result (λ a. answer None (parsed source.now outermost tokens.now) ≡ Some (answer_of a)) }
{
    let mut nest = outermost(alloc);
    let mut rest = tokens;
    let mut found = None;
    'heads: loop {
        match next_turn(alloc, source, nest, found, rest)? {
            Turn::On {
                nest: around,
                rest: behind,
                found: least,
            } => {
                nest = around;
                rest = behind;
                found = least;
            }
            Turn::Ends(answer) => return Ok(answer),
        }
    }
}
