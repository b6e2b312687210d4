// Qualifiers against the names of the structures that hold a variable.

ghost use Rattle.std.specs.Prelude.{◌≡◌, ℕ, List, ◌≤◌, ◌++◌, ◌∷◌, [], length, take};
ghost use Rattle.pli_language.specs.Keywords.{same_bytes};
ghost use Rattle.pli_language.specs.Means.{is_part, same_names, qualifiers_of};
ghost use Rattle.pli_declare.specs.Among.{letters_of, names_above};
ghost use Rattle.pli_declare.specs.Shown.{chain_of, what_of};

use crate::above::Levels;
use crate::scope::{Variable, What};

fn same_bytes(a: &[u8], b: &[u8]) -> bool
    ensures { result ≡ same_bytes a.now b.now }
{
    a == b
}

/// How many qualifiers are left to be found once this name is passed, where so many were left before it.
#[tactic(auto, using(crate::proofs::Parts::parts))]
fn passed(qualifiers: &[&[u8]], left: usize, name: &[u8]) -> usize
    requires { left ≤ length qualifiers.now }
    ensures within { result ≤ length qualifiers.now }
    ensures step { (ns : List (List ℕ)) → is_part (letters_of (take result qualifiers.now)) ns ≡ is_part (letters_of (take left qualifiers.now)) (ns ++ name.now ∷ []) }
{
    if left == 0 {
        return left;
    }
    let q = qualifiers[left - 1];
    if same_bytes(q, name) {
        return left - 1;
    }
    left
}

/// The qualifiers are the names above, with some left out.
#[tactic(auto, using(crate::proofs::Parts::parts))]
fn is_part(qualifiers: &[&[u8]], outermost: Option<Variable>, levels: &Levels) -> bool
    ensures { result ≡ is_part (letters_of qualifiers.now) (names_above (chain_of outermost.entry levels.now)) }
{
    let mut left = qualifiers.len();
    let Some(first) = outermost else {
        return left == 0;
    };
    let mut rest = levels;
    while let Levels::Inside {
        structure,
        above,
        ..
    } = rest
    {
        if left == 0 {
            return true;
        }
        left = passed(qualifiers, left, &structure.declared.name.letters);
        rest = above;
    }
    passed(qualifiers, left, &first.declared.name.letters) == 0
}

/// The qualifiers are the names above.
#[tactic(auto, using(crate::proofs::Parts::parts))]
fn is_full(qualifiers: &[&[u8]], outermost: Option<Variable>, levels: &Levels) -> bool
    ensures { result ≡ same_names (letters_of qualifiers.now) (names_above (chain_of outermost.entry levels.now)) }
{
    let mut left = qualifiers.len();
    let Some(first) = outermost else {
        return left == 0;
    };
    let mut rest = levels;
    while let Levels::Inside {
        structure,
        above,
        ..
    } = rest
    {
        if left == 0 {
            return false;
        }
        if !same_bytes(qualifiers[left - 1], &structure.declared.name.letters) {
            return false;
        }
        left -= 1;
        rest = above;
    }
    left == 1 && same_bytes(qualifiers[0], &first.declared.name.letters)
}

/// The qualifiers are those of what is declared, with some left out.
pub fn may_mean(qualifiers: &[&[u8]], what: &What) -> bool
    ensures { result ≡ is_part (letters_of qualifiers.now) (qualifiers_of (what_of what.now)) }
{
    match what {
        What::Variable(held) => is_part(qualifiers, held.above.outermost, &held.above.levels),
        What::Label => is_part(qualifiers, None, &Levels::Outermost),
        What::Procedure(_) => is_part(qualifiers, None, &Levels::Outermost),
    }
}

/// The qualifiers are those of what is declared.
pub fn means_fully(qualifiers: &[&[u8]], what: &What) -> bool
    ensures { result ≡ same_names (letters_of qualifiers.now) (qualifiers_of (what_of what.now)) }
{
    match what {
        What::Variable(held) => is_full(qualifiers, held.above.outermost, &held.above.levels),
        What::Label => is_full(qualifiers, None, &Levels::Outermost),
        What::Procedure(_) => is_full(qualifiers, None, &Levels::Outermost),
    }
}
