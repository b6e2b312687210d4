// What is counted stays right where other services are done.

ghost use Rattle.std.specs.Prelude.{◌≡◌, ℕ, List, length, take};
ghost use Rattle.pli_serving.specs.Answers.{Done};
ghost use Rattle.pli_serving.specs.Blocks.{leave_served, return_served, unwind_served};
ghost use Rattle.pli_serving.specs.Finding.{Call};
ghost use Rattle.pli_serving.specs.ServiceState.{Services};
ghost use Rattle.pli_serving.specs.SignatureService.{signature_served};
ghost use Rattle.pli_making.specs.InUse.{IsCounted};

/// Service 3 adds a signature behind the others, or none, so that what is counted stays.
pub fn signatures_are_added()
    ensures { (c : Call) → (number places lower upper : ℕ) → (totals : List ℕ) → (v : Services) → (m : List ℕ) → (x y : ℕ) → IsCounted c.services.signatures c.services.living totals →
        signature_served c number places lower upper ≡ Done v m x y → IsCounted v.signatures v.living totals }
{}

/// Services 5, 6 and 31 end blocks with their variables, so that the totals of the heights that are left are right.
pub fn blocks_are_left()
    ensures leave { (c : Call) → (keep second : ℕ) → (totals : List ℕ) → (v : Services) → (m : List ℕ) → (x y : ℕ) → IsCounted c.services.signatures c.services.living totals →
        leave_served c keep second ≡ Done v m x y → IsCounted v.signatures v.living (take (length v.activations) totals) }
    ensures unwind { (c : Call) → (frame keep : ℕ) → (totals : List ℕ) → (v : Services) → (m : List ℕ) → (x y : ℕ) → IsCounted c.services.signatures c.services.living totals →
        unwind_served c frame keep ≡ Done v m x y → IsCounted v.signatures v.living (take (length v.activations) totals) }
    ensures return_from { (c : Call) → (totals : List ℕ) → (v : Services) → (m : List ℕ) → (x y : ℕ) → IsCounted c.services.signatures c.services.living totals →
        return_served c ≡ Done v m x y → IsCounted v.signatures v.living (take (length v.activations) totals) }
{}
