// What the definitions read of a service's call, and the nests of shapes.

ghost use Rattle.std.specs.Prelude.{◌≡◌, ℕ, List};
ghost use Rattle.pli_meaning.specs.StreamOrder.{nest_of};
ghost use Rattle.pli_serving.specs.ElementService.{item_shape_at};
ghost use Rattle.pli_serving.specs.Finding.{Call};
ghost use Rattle.pli_shapes.specs.Members.{members_of};
ghost use Rattle.pli_shapes.specs.Nests.{nest_in};
ghost use Rattle.pli_shapes.specs.declared.part.Part.{Part};
ghost use Rattle.pli_values.specs.Calls.{call_on};

/// Shapes are read of the layout and the bytes of a call, whatever its keeper and its state.
#[tactic(auto, using(crate::proofs::Calls::shapes_anywhere))]
pub fn item_shapes_of_memory()
    ensures { (c : Call) (at : ℕ) → item_shape_at c at ≡ item_shape_at (call_on c.layout c.memory) at }
{}

/// The nest of a shape's members is that of its parts.
#[tactic(auto, using(crate::proofs::Nests::nest_of_parts))]
pub fn nests_of_parts()
    ensures { (parts : List Part) → nest_of (members_of parts) ≡ nest_in parts }
{}
