// Blocks are entered: service 4.

ghost use Rattle.std.specs.Prelude.{◌≡◌, ◌<◌, ◌≤◌, ℕ, length, option_map, MatchOption, ⊤};
ghost use Rattle.pli_serving.specs.ServiceState.{Services};
ghost use Rattle.pli_answering.specs.Answering.{Answers};
ghost use Rattle.pli_serving.specs.Blocks as blocks;
ghost use Rattle.pli_serving.specs.Finding.{Call};
ghost use Rattle.pli_activations.specs.Entered.{block_shown, kind_shown};
ghost use Rattle.pli_services.specs.Entering.{entered_as, entered_shown};
ghost use Rattle.pli_services.specs.Flowing.{flow_seen, waiting_of, with_flow};

use crate::flow::Flow;
use pli_activations::block::{Block, BlockKind};
use pli_answering::reply::{Refusal, Reply};
use pli_edit::output_stream::OutputStream;
use pli_meaning::outcome::{End, Limit};

/// So many blocks may be entered.
const MOST_ACTIVATIONS: u32 = 500;

/// The kind of a block, and the line that is current again when it ends.
#[derive(Clone, Copy, PartialEq, Eq, Debug)]
struct Entered {
    kind: BlockKind,
    line: u32,
}

/// What waits when a block is entered: whether the argument texts are on top, and how many entries of expressions and places in format
/// lists there are.
#[derive(Clone, Copy, PartialEq, Eq, Debug)]
pub struct Standing {
    pub are_texts: bool,
    pub entries: usize,
    pub edits: usize,
}

/// The block that is entered, where its heights fit 32 bits.
fn block_of(entered: Entered, frame: u32, texts: u32, standing: Standing) -> Option<Block>
    ensures { (v : Services) → standing.entries ≡ length v.entries → standing.edits ≡ length v.edits →
        MatchOption result ⊤ (λ b. block_shown b ≡ blocks.activation_of v (entered_shown entered) frame texts) }
{
    let below = standing.entries.saturating_sub(texts as usize);
    let below = u32::try_from(below).ok()?;
    let edits = u32::try_from(standing.edits).ok()?;
    Some(Block {
        kind: entered.kind,
        frame,
        texts: below,
        edits,
        line: entered.line,
    })
}

impl<O: OutputStream> Flow<O> {
    /// A block other than an on-unit, where no raise waits.
    fn block_entered(&self, kind: BlockKind) -> Option<Entered>
        ensures { option_map entered_shown result ≡ blocks.block_entered (kind_shown kind) self.now.line (option_map waiting_of self.now.waiting) }
    {
        match self.waiting {
            None => Some(Entered {
                kind,
                line: self.line,
            }),
            Some(_) => None,
        }
    }

    /// The on-unit for which a raise waits.
    fn unit_entered(&self) -> Option<Entered>
        ensures { option_map entered_shown result ≡ blocks.unit_entered (option_map waiting_of self.now.waiting) }
    {
        match self.waiting {
            None => None,
            Some(waiting) => Some(Entered {
                kind: BlockKind::OnUnit {
                    code: waiting.code,
                    resume: waiting.resume,
                },
                line: waiting.line,
            }),
        }
    }

    fn entered(&self, kind: u32) -> Option<Entered>
        ensures { option_map entered_shown result ≡ blocks.entered_of kind self.now.line (option_map waiting_of self.now.waiting) }
    {
        match kind {
            0 => self.block_entered(BlockKind::Procedure),
            1 => self.block_entered(BlockKind::Begin),
            2 => self.unit_entered(),
            _ => None,
        }
    }

    /// A new activation.
    #[tactic(auto, using(crate::proofs::Enters::entered_so))]
    fn enter_block(
        &mut self,
        block: Block,
        kind: u32,
        frame: u32,
        line: u32,
    ) -> Result<Reply, Refusal>
        requires { length self.old.activations < 500 }
        ensures answers { (c : Call) → (e : blocks.Entered) → (texts : ℕ) → block_shown block ≡ blocks.activation_of
            (with_flow (flow_seen O.output self.old) c).services e frame texts →
            Answers (λ c. entered_as c kind frame line texts e) (with_flow (flow_seen O.output self.old) c) result
            (with_flow (flow_seen O.output self.new) c) }
        ensures height { length self.old.activations ≤ length self.new.activations }
        ensures grows { O.grows self.old.shown.output self.new.shown.output }
    {
        if self.activations.enter(block).is_err() {
            return Err(Refusal::Memory);
        }
        self.waiting = None;
        self.line = line;
        Ok(Reply::Done(kind, frame))
    }

    /// A new activation of a kind. More entries than 32 bits count have no memory.
    #[tactic(auto, using(crate::proofs::Enters::too_many))]
    fn enter_as(
        &mut self,
        entered: Entered,
        kind: u32,
        frame: u32,
        line: u32,
        texts: u32,
        standing: Standing,
    ) -> Result<Reply, Refusal>
        ensures answers { (c : Call) → standing.entries ≡ length c.services.entries → standing.edits ≡ length c.services.edits →
            Answers (λ c. entered_as c kind frame line texts (entered_shown entered))
            (with_flow (flow_seen O.output self.old) c) result (with_flow (flow_seen O.output self.new) c) }
        ensures height { length self.old.activations ≤ length self.new.activations }
        ensures grows { O.grows self.old.shown.output self.new.shown.output }
    {
        if self.activations.height() >= MOST_ACTIVATIONS {
            self.shown.finish(End::Limit(Limit::Depth))?;
            return Ok(Reply::Ended);
        }
        match block_of(entered, frame, texts, standing) {
            Some(block) => self.enter_block(block, kind, frame, line),
            None => Err(Refusal::Memory),
        }
    }

    /// 4: a new activation, above which the argument texts stand; one too many ends the run.
    pub fn enter(
        &mut self,
        kind: u32,
        frame: u32,
        line: u32,
        texts: u32,
        standing: Standing,
    ) -> Result<Reply, Refusal>
        ensures answers { (c : Call) → standing.are_texts ≡ blocks.are_texts texts c.services.entries → standing.entries ≡ length c.services.entries → standing.edits ≡ length c.services.edits →
            Answers (λ c. blocks.enter_served c kind frame line texts) (with_flow (flow_seen O.output self.old) c)
            result (with_flow (flow_seen O.output self.new) c) }
        ensures height { length self.old.activations ≤ length self.new.activations }
        ensures grows { O.grows self.old.shown.output self.new.shown.output }
    {
        match self.entered(kind) {
            Some(entered) => {
                if !standing.are_texts {
                    return Err(Refusal::Bad);
                }
                self.enter_as(entered, kind, frame, line, texts, standing)
            }
            None => Err(Refusal::Bad),
        }
    }
}
