// What the definitions read of a service's call.

ghost use Rattle.std.specs.Prelude.{◌≡◌, ℕ, List};
ghost use Rattle.pli_typing.specs.Signatures.{Leaf};
ghost use Rattle.pli_serving.specs.Finding.{Call};
ghost use Rattle.pli_serving.specs.InitialValues.{initial_values};
ghost use Rattle.pli_values.specs.Calls.{call_on};

/// INITIAL values are read of the layout and the bytes of a call, whatever its keeper and its state.
#[tactic(auto, using(crate::proofs::Calls::values_anywhere))]
pub fn initial_values_of_memory()
    ensures { (c : Call) (leaves : List Leaf) (at : ℕ) → initial_values c leaves at ≡ initial_values (call_on c.layout c.memory) leaves at }
{}
