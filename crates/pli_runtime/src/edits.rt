// Format lists of edit-directed streams: service 34.

ghost use Rattle.std.specs.Prelude.{◌≡◌};
ghost use Rattle.pli_serving.specs.Edits as services;
ghost use Rattle.pli_meaning.specs.InputLines.{Input as LineInput};
ghost use Rattle.pli_runtime.specs.Seen.{run_seen, CanServe, IsCarriedOut};

use crate::runtime::Runtime;
use area_heap::keeper::AreaKeeper;
use pli_answering::reply::{Refusal, Reply};
use pli_edit::input_stream::InputStream;
use pli_edit::output_stream::OutputStream;
use pli_values::source::Source;

impl<I: InputStream, O: OutputStream> Runtime<I, O> {
    /// 34: a place at the start of the format list at an address.
    #[inline(never)]
    pub(crate) fn begin_edit<K: AreaKeeper>(
        &mut self,
        memory: &[u8],
        at: u32,
        mode: u32,
    ) -> Result<Reply, Refusal>
        requires { CanServe K.keeper self.old memory.now }
        ensures carried { (input : LineInput) → IsCarriedOut K.keeper (λ c. services.edit_begin_served c at mode)
            (run_seen O.output self.old input) memory.now result (run_seen O.output self.new input) memory.now }
        ensures unread { self.new.streams.input ≡ self.old.streams.input }
        ensures grows { O.grows self.old.flow.shown.output self.new.flow.shown.output }
    {
        let source = Source::new(self.held.layout, memory);
        self.streams.begin(&source, at, mode)
    }
}
