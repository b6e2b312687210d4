// Places of items whose numbers aren't known yet.

ghost use Rattle.std.specs.Prelude.{◌≡◌};
ghost use Rattle.rv_assembly.specs.Places.{words_between};

/// The place of an item that is put there once the code behind it is known.
#[derive(Clone, Copy, PartialEq, Eq, Debug)]
pub struct Place {
    /// How many items stand before it.
    pub index: usize,
    /// How many words the code has up to it and with it.
    pub words: usize,
}

impl Place {
    /// The words between an earlier place and this one, with the item at this one.
    #[tactic(auto, unfolding(crate::specs::Places::words_between))]
    pub fn words_from(&self, earlier: Place) -> usize
        ensures { result ≡ words_between earlier self.now }
    {
        self.words.saturating_sub(earlier.words)
    }
}
