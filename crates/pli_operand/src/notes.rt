// What is noted while a program is judged.

ghost use Rattle.std.specs.Prelude.{◌≡◌, Option, Some, None};
ghost use Rattle.pli_typing.specs.Judging.{demand, MentionsFunction, MentionsVariable};
ghost use Rattle.pli_typing.specs.Generations.{is_forbidden};
ghost use Rattle.pli_language.specs.Refusals.{fault};
ghost use Rattle.pli_typing.specs.TypedView.{variable_of};
ghost use Rattle.pli_operand.specs.Notes.{noted, with_fault, with_mention};
ghost use Rattle.pli_operand.specs.Shown.{notes_of};

use pli_declaring::least::noted;
use pli_language::expr::Place;
use pli_language::fault::{SourceFault, SourceKind};
use pli_typing::typed::{StorageClass, Variable};

/// The least of what is broken so far. Where an extent is judged, its variable, and whether it mentions what it may not.
#[derive(Clone, Copy, Debug)]
pub struct Notes {
    pub found: Option<SourceFault>,
    pub own: Option<Variable>,
    pub forbidden: bool,
}

/// The variable isn't made yet where an extent of the other is evaluated.
fn is_unmade(own: Variable, variable: Variable) -> bool
    ensures { result ≡ is_forbidden (variable_of own) (MentionsVariable (variable_of variable)) }
{
    matches!(variable.class, StorageClass::Automatic)
        && variable.block == own.block
        && own.index <= variable.index
}

impl Notes {
    /// A rule is broken at a place.
    pub fn broken(&mut self, place: Place, kind: SourceKind)
        ensures { notes_of self.new ≡ with_fault (notes_of self.old) (fault place kind) }
    {
        self.found = noted(self.found, true, place, kind);
    }

    /// A rule is broken at a place unless this holds.
    #[tactic(auto, using(crate::proofs::Noting::noting))]
    pub fn demand(&mut self, holds: bool, place: Place, kind: SourceKind)
        ensures { notes_of self.new ≡ noted (notes_of self.old) (demand holds place kind) }
    {
        if !holds {
            self.broken(place, kind);
        }
    }

    /// A variable is mentioned.
    #[tactic(auto, using(crate::proofs::Noting::mentioned_free, crate::proofs::Noting::mentioned))]
    pub fn mention(&mut self, variable: Variable)
        ensures { notes_of self.new ≡ with_mention (notes_of self.old) (MentionsVariable (variable_of variable)) }
    {
        match self.own {
            None => {}
            Some(own) => self.forbidden |= is_unmade(own, variable),
        }
    }

    /// A function is mentioned.
    #[tactic(auto, using(crate::proofs::Noting::mentioned_free, crate::proofs::Noting::mentioned))]
    pub fn mention_function(&mut self)
        ensures { notes_of self.new ≡ with_mention (notes_of self.old) MentionsFunction }
    {
        match self.own {
            None => {}
            Some(_) => self.forbidden |= true,
        }
    }
}
