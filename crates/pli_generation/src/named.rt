// The names in attributes.

ghost use Rattle.std.specs.Prelude.{◌≡◌, map};
ghost use Rattle.pli_language.specs.declared.scope.Found.TheVariants as F;
ghost use Rattle.pli_typing.specs.Generations as G;
ghost use Rattle.pli_language.specs.View.{attribute_of, name_of, option_of};
ghost use Rattle.pli_operand.specs.Notes.{noted};
ghost use Rattle.pli_operand.specs.Shown.{notes_of};
ghost use Rattle.pli_variables.specs.Rows.{blocks_shown};

use pli_declaring::attribute::is_builtin;
use pli_language::declaration::Attribute;
use pli_language::expr::Name;
use pli_language::fault::SourceKind;
use pli_language::scope::Found;
use pli_operand::notes::Notes;
use pli_reference::locator::locator_found;
use pli_reference::meant::locator_name;
use pli_variables::Tables;
use pli_variables::declared::area_name;

/// A name that means nothing that is declared; a built-in is of another kind.
#[tactic(auto, using(pli_operand::proofs::Noting::noting))]
fn undeclared(notes: &mut Notes, name: &Name, is_one: bool)
    ensures { notes_of notes.new ≡ noted (notes_of notes.old) (G.name_demanded F.None is_one (name_of name.now)) }
{
    if is_builtin(name.word) {
        notes.broken(name.place, SourceKind::TypeMismatch);
    } else {
        notes.broken(name.place, SourceKind::Undeclared);
    }
}

/// A name that must mean something of one kind.
#[tactic(auto, using(pli_operand::proofs::Noting::noting))]
fn name_demanded(notes: &mut Notes, found: Found, is_one: bool, name: &Name)
    ensures { notes_of notes.new ≡ noted (notes_of notes.old) (G.name_demanded found is_one (name_of name.now)) }
{
    match found {
        Found::One(_) => notes.demand(is_one, name.place, SourceKind::TypeMismatch),
        Found::None => undeclared(notes, name, is_one),
        Found::Ambiguous => notes.broken(name.place, SourceKind::Ambiguous),
    }
}

/// OFFSET(name) names an area.
#[tactic(auto, using(pli_operand::proofs::Noting::noting))]
fn area_demanded(notes: &mut Notes, tables: &Tables, block: usize, name: Option<&Name>)
    ensures { notes_of notes.new ≡ noted (notes_of notes.old) (G.area_demanded (blocks_shown tables.now.scopes.now) block (option_of (λ n. name_of n.now) name.entry)) }
{
    if let Some(name) = name {
        let found = tables.name_means(block, name);
        let is_one = tables.area_found(found).is_some();
        name_demanded(notes, found, is_one, name);
    }
}

/// BASED(name) names a locator.
#[tactic(auto, using(pli_operand::proofs::Noting::noting))]
fn locator_demanded(notes: &mut Notes, tables: &Tables, block: usize, name: Option<&Name>)
    ensures { notes_of notes.new ≡ noted (notes_of notes.old) (G.locator_demanded (blocks_shown tables.now.scopes.now) block (option_of (λ n. name_of n.now) name.entry)) }
{
    if let Some(name) = name {
        let found = tables.name_means(block, name);
        let is_one = locator_found(tables, found).is_some();
        name_demanded(notes, found, is_one, name);
    }
}

/// The names in attributes, which are looked up from a block.
#[tactic(auto, using(pli_operand::proofs::Noting::noting))]
pub fn names_demanded(notes: &mut Notes, tables: &Tables, block: usize, attributes: &[Attribute])
    ensures { notes_of notes.new ≡ noted (notes_of notes.old) (G.names_demanded (blocks_shown tables.now.scopes.now) block (map attribute_of attributes.now)) }
{
    area_demanded(notes, tables, block, area_name(attributes));
    locator_demanded(notes, tables, block, locator_name(attributes));
}
