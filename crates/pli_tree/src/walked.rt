// What is found and made on the way through a program.

ghost use Rattle.std.specs.Prelude.{◌≡◌, ◌+◌, ◌++◌, ◌∷◌, [], false, map, IfOk, None, OnOk};
ghost use Rattle.pli_typing.specs.TypedStatementView.{procedure_of};
ghost use Rattle.pli_operand.specs.Shown.{notes_of};

use pli_language::fault::SourceFault;
use pli_operand::notes::Notes;
use pli_typing::statement::Procedure;
use std::alloc::{AllocError, Global};

/// The least rule that is broken so far, the procedures so far, and the number of the next block.
#[derive(Drop)]
pub struct Walked<'a> {
    pub found: Option<SourceFault>,
    pub procedures: Vec<Procedure<'a>>,
    pub next: usize,
}

/// The number behind another; no memory holds a program of so many blocks that there is none.
pub fn after(number: usize) -> Result<usize, AllocError>
    ensures { IfOk result (λ n. n ≡ number + 1) }
{
    number.checked_add(1).ok_or(AllocError)
}

impl<'a> Walked<'a> {
    /// Nothing, with the number of the next block.
    pub fn from(alloc: Global, next: usize) -> Walked<'a>
        ensures found { result.found ≡ None }
        ensures procedures { map procedure_of result.procedures.items ≡ [] }
        ensures next { result.next ≡ next }
    {
        Walked {
            found: None,
            procedures: Vec::new(alloc),
            next,
        }
    }

    /// What is found so far with no procedure yet, for the inside of one.
    pub fn inside(&self, alloc: Global) -> Walked<'a>
        ensures found { result.found ≡ self.now.found }
        ensures procedures { map procedure_of result.procedures.items ≡ [] }
        ensures next { result.next ≡ self.now.next }
    {
        Walked {
            found: self.found,
            procedures: Vec::new(alloc),
            next: self.next,
        }
    }

    /// A procedure before those inside it.
    #[tactic(auto, using(crate::proofs::Forms::puts))]
    pub fn put_procedure(
        &mut self,
        whole: Procedure<'a>,
        inside: Walked<'a>,
    ) -> Result<(), AllocError>
        ensures found { OnOk result (self.new.found ≡ inside.entry.found) }
        ensures procedures { OnOk result (map procedure_of self.new.procedures.items ≡ map procedure_of self.old.procedures.items ++ procedure_of whole.entry ∷ map procedure_of inside.entry.procedures.items) }
        ensures next { OnOk result (self.new.next ≡ inside.entry.next) }
    {
        let Walked {
            found,
            mut procedures,
            next,
        } = inside;
        self.found = found;
        self.next = next;
        self.procedures.push(whole)?;
        self.procedures.append(&mut procedures)?;
        Ok(())
    }

    /// What is noted of a part outside extents.
    pub fn notes(&self) -> Notes
        ensures { notes_of result ≡ record { found = self.now.found; own = None; forbidden = false } }
    {
        Notes {
            found: self.found,
            own: None,
            forbidden: false,
        }
    }
}
