// Generations that are placed: service 10.

ghost use Rattle.std.specs.Prelude.{◌≡◌, slice_index};
ghost use Rattle.pli_serving.specs.AreaServices.{allocate_served};
ghost use Rattle.pli_meaning.specs.InputLines.{Input as LineInput};
ghost use Rattle.pli_runtime.specs.Seen.{run_seen, CanServe, IsCarriedOut};

use crate::runtime::Runtime;
use area_heap::keeper::AreaKeeper;
use pli_allocation::allocating::{Allocation, allocate};
use pli_answering::reply::{Refusal, Reply};
use pli_edit::input_stream::InputStream;
use pli_edit::output_stream::OutputStream;

/// What is to be allocated, by the registers of the call.
fn allocation_of(registers: &[u32; 32]) -> Allocation
    ensures { result ≡ record { area = slice_index registers.now 10; signature = slice_index registers.now 11; extent = slice_index registers.now 12; initial = slice_index registers.now 13; destination = slice_index registers.now 14 } }
{
    Allocation {
        area: registers[10],
        signature: registers[11],
        extent: registers[12],
        initial: registers[13],
        destination: registers[14],
    }
}

impl<I: InputStream, O: OutputStream> Runtime<I, O> {
    /// 10: a generation is placed in an area or in the heap.
    #[inline(never)]
    pub(crate) fn allocate<K: AreaKeeper>(
        &mut self,
        memory: &mut [u8],
        registers: &[u32; 32],
    ) -> Result<Reply, Refusal>
        requires { CanServe K.keeper self.old memory.old }
        ensures carried { (input : LineInput) → IsCarriedOut K.keeper
            (λ c. allocate_served c (slice_index registers.now 10) (slice_index registers.now 11)
            (slice_index registers.now 12) (slice_index registers.now 13) (slice_index registers.now 14))
            (run_seen O.output self.old input) memory.old result (run_seen O.output self.new input) memory.new }
        ensures unread { self.new.streams.input ≡ self.old.streams.input }
        ensures grows { O.grows self.old.flow.shown.output self.new.flow.shown.output }
    {
        allocate::<K>(&mut self.held, self.alloc, memory, allocation_of(registers))
    }
}
