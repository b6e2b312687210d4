// What the definitions read of a service's call.

ghost use Rattle.std.specs.Prelude.{◌≡◌, ℕ};
ghost use Rattle.pli_serving.specs.Finding.{Call};
ghost use Rattle.pli_serving.specs.FormatLists.{formats_at};
ghost use Rattle.pli_values.specs.Calls.{call_on};

/// Format lists are read of the layout and the bytes of a call, whatever its keeper and its state.
#[tactic(auto, using(crate::proofs::Calls::formats_anywhere))]
pub fn format_lists_of_memory()
    ensures { (c : Call) (at : ℕ) → formats_at c at ≡ formats_at (call_on c.layout c.memory) at }
{}
