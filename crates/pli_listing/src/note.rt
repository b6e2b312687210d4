// The places of code that have names.

use rv_assembly::code::Code;
use rv_assembly::item::{Item, Symbol};
use std::alloc::{AllocError, Global};

/// What stands at a word, counted from the first one.
#[derive(Drop)]
pub struct Note {
    pub place: usize,
    pub text: String,
}

// The letters of a block, which are known of procedures.
fn block_letters<'a>(names: &'a [Vec<u8>], block: usize) -> &'a [u8] {
    match names.get(block) {
        Some(letters) => letters,
        None => &[],
    }
}

// Letters of a source, which are ASCII.
fn push_letters(text: &mut String, letters: &[u8]) -> Result<(), AllocError> {
    for letter in letters {
        text.push(char::from(*letter))?;
    }
    Ok(())
}

// What a reader calls the place of a symbol.
fn place_name(alloc: Global, names: &[Vec<u8>], symbol: &Symbol) -> Result<String, AllocError> {
    let mut text = String::new(alloc);
    match symbol {
        Symbol::ProcedureEntry { block } => {
            text.push_str("procedure ")?;
            push_letters(&mut text, block_letters(names, *block))?;
        }
        Symbol::LabelPlace { letters, .. } => {
            text.push_str("label ")?;
            push_letters(&mut text, letters)?;
        }
        Symbol::ReturnPlace { .. } => text.push_str("return")?,
        Symbol::RaiseCondition => text.push_str("a condition is raised")?,
        Symbol::RaiseError => text.push_str("ERROR is raised")?,
        Symbol::ErrorEnd => text.push_str("end by ERROR")?,
        Symbol::ExtentRoutine { .. } => text.push_str("extents")?,
        Symbol::DataPlace(_) => {}
    }
    Ok(text)
}

/// The named places of code, in order.
pub fn notes_of(alloc: Global, names: &[Vec<u8>], code: &Code) -> Result<Vec<Note>, AllocError> {
    let mut notes = Vec::new(alloc);
    let mut place: usize = 0;
    for item in code.items() {
        if let Item::Mark(symbol) = item {
            notes.push(Note {
                place,
                text: place_name(alloc, names, symbol)?,
            })?;
        }
        place = place.saturating_add(item.size());
    }
    Ok(notes)
}
