// What a machine calls at an ECALL.

ghost use Rattle.std.specs.Prelude.{◌≡◌, ℕ, List, length, slice_index};
ghost use Rattle.rv_meaning.specs.Machine.{memory_size};

use raw_storage::storage::Storage;

/// How the call of a service came out.
#[derive(Clone, Copy, PartialEq, Eq, Debug)]
pub enum Served {
    /// It did its work, and the run goes on.
    Done,
    /// It did its work, and the run is over.
    Ended,
    /// There is no such service, or its arguments are wrong. Nothing has changed.
    Bad,
    /// There is no memory for its work. Nothing has changed.
    Memory,
}

/// The services of a machine, by number in register 17.
pub trait Services {
    ghost use Rattle.rv_machine.specs.declared.services.Served.{Served};
    ghost use Rattle.rv_machine.specs.Refusals.{KeepsWhereRefused};

    // from the services, the registers by number and the bytes of memory, by an answer, to these after the call
    ghost serves: { Self → (ℕ → ℕ) → List ℕ → Served → Self → (ℕ → ℕ) → List ℕ → Type 0 };

    /// Serves the call whose number is in register 17; `storage` is the machine's 16 MiB, code included.
    fn call(&mut self, registers: &mut [u32; 32], storage: &mut Storage) -> Served
        requires { length storage.old.bytes ≡ memory_size }
        ensures meaning { serves self.old (slice_index registers.old) storage.old.bytes result
            self.new (slice_index registers.new) storage.new.bytes }
        ensures zero { slice_index registers.new 0 ≡ slice_index registers.old 0 }
        ensures sized { length storage.new.bytes ≡ length storage.old.bytes }
        ensures refused { KeepsWhereRefused result registers.old storage.old.bytes registers.new storage.new.bytes };
}
