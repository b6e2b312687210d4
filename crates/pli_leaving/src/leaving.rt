// Blocks are left: services 5, 6 and 31. The entries of expressions and the places in format lists are the caller's to take back.

ghost use Rattle.std.specs.Prelude.{◌≡◌, ◌≤◌, ◌-◌, ℕ, List, Ok, drop, is_some, length, option_map, slice_get};
ghost use Rattle.area_keeper.specs.Keeper.{Keeper};
ghost use Rattle.controlled_gens.specs.Rooted.{up_to_owner};
ghost use Rattle.pli_activations.specs.Entered.{block_shown, without_units};
ghost use Rattle.pli_leaving.specs.Leaving.{with_both, IsNewest, IsTop, Leaves};
ghost use Rattle.pli_services.specs.Flowing.{flow_seen};
ghost use Rattle.pli_serving.specs.Blocks as blocks;
ghost use Rattle.pli_serving.specs.Finding.{Call};
ghost use Rattle.pli_serving.specs.ServiceState.{Entry};

use pli_activations::activations::Activations;
use pli_activations::block::{Block, BlockKind};
use pli_answering::reply::{Refusal, Reply};
use pli_edit::output_stream::OutputStream;
use pli_services::flow::Flow;
use pli_storage::held::Held;
use pli_storage::variables::Variables;

/// What is known of the entries of expressions: how many there are, and whether the newest is a text.
#[derive(Clone, Copy, PartialEq, Eq, Debug)]
pub struct Top {
    pub entries: usize,
    pub is_text: bool,
}

/// A block was left: the reply, and how many entries of expressions, below a text that is kept, and how many places in format lists
/// there are to be from now on.
#[derive(Clone, Copy, PartialEq, Eq, Debug)]
pub struct Left {
    pub reply: Reply,
    pub texts: u32,
    pub edits: u32,
}

/// Whether entries go back to a height below the newest, a text.
#[tactic(auto, using(crate::proofs::Ends::text_on_top, crate::proofs::Ends::no_text_on_top))]
fn can_keep_text(texts: u32, top: Top) -> bool
    ensures { (es : List Entry) → IsTop top es → result ≡ is_some (blocks.top_kept texts es) }
{
    if top.is_text {
        (texts as usize) < top.entries
    } else {
        false
    }
}

/// Whether entries go back to a height, with keep 1 below the newest, a text.
#[tactic(auto, using(crate::proofs::Ends::not_kept))]
fn can_keep(keep: u32, texts: u32, top: Top) -> bool
    ensures { (es : List Entry) → IsTop top es → result ≡ is_some (blocks.entries_left texts keep es) }
{
    match keep {
        0 => true,
        1 => can_keep_text(texts, top),
        _ => false,
    }
}

/// All blocks above a height end, with their on-units and variables.
fn end_above(activations: &mut Activations, variables: &mut Variables, height: u32)
    requires { height ≤ length activations.old }
    ensures activations { activations.new ≡ drop (length activations.old - height) activations.old }
    ensures variables { variables.new ≡ up_to_owner height variables.old }
{
    activations.unwind(height);
    variables.leave_above(height);
}

/// The newest block ends, and the line that was current before it is current again.
fn leave_block<O: OutputStream>(
    flow: &mut Flow<O>,
    held: &mut Held,
    block: Block,
    keep: u32,
    second: u32,
    top: Top,
) -> Result<Left, Refusal>
    requires { IsNewest block flow.old.activations }
    ensures answers { (k : Keeper) → (m : List ℕ) → (c : Call) → IsTop top c.services.entries →
        Leaves (blocks.leave_served (with_both k (flow_seen O.output flow.old) held.old m c) keep second) keep
        (with_both k (flow_seen O.output flow.old) held.old m c) result (with_both k (flow_seen O.output flow.new)
        held.new m c) }
    ensures kept { held.new ≡ record held.old { variables = held.new.variables } }
    ensures grows { O.grows flow.old.shown.output flow.new.shown.output }
{
    if !can_keep(keep, block.texts, top) {
        return Err(Refusal::Bad);
    }
    flow.line = block.line;
    let height = flow.activations.height() - 1;
    end_above(&mut flow.activations, &mut held.variables, height);
    Ok(Left {
        reply: Reply::Done(keep, second),
        texts: block.texts,
        edits: block.edits,
    })
}

/// 5: the newest block ends, with its storage and on-units; with keep 1 the newest text stays above the entries of its caller.
#[tactic(auto, using(crate::proofs::Ends::none_left))]
pub fn leave<O: OutputStream>(
    flow: &mut Flow<O>,
    held: &mut Held,
    keep: u32,
    second: u32,
    top: Top,
) -> Result<Left, Refusal>
    ensures answers { (k : Keeper) → (m : List ℕ) → (c : Call) → IsTop top c.services.entries →
        Leaves (blocks.leave_served (with_both k (flow_seen O.output flow.old) held.old m c) keep second) keep
        (with_both k (flow_seen O.output flow.old) held.old m c) result (with_both k (flow_seen O.output flow.new)
        held.new m c) }
    ensures kept { held.new ≡ record held.old { variables = held.new.variables } }
    ensures grows { O.grows flow.old.shown.output flow.new.shown.output }
{
    match flow.activations.newest() {
        Some(block) => leave_block(flow, held, block, keep, second, top),
        None => Err(Refusal::Bad),
    }
}

/// All blocks above one end; the line stays.
fn unwind_block<O: OutputStream>(
    flow: &mut Flow<O>,
    held: &mut Held,
    frame: u32,
    keep: u32,
    height: u32,
    block: Block,
    top: Top,
) -> Result<Left, Refusal>
    requires newest { IsNewest block (blocks.from_frame frame flow.old.activations) }
    requires inside { height ≤ length flow.old.activations }
    requires there { drop (length flow.old.activations - height) flow.old.activations ≡ blocks.from_frame frame flow.old.activations }
    ensures answers { (k : Keeper) → (m : List ℕ) → (c : Call) → IsTop top c.services.entries →
        Leaves (blocks.unwind_served (with_both k (flow_seen O.output flow.old) held.old m c) frame keep) keep
        (with_both k (flow_seen O.output flow.old) held.old m c) result (with_both k (flow_seen O.output flow.new)
        held.new m c) }
    ensures kept { held.new ≡ record held.old { variables = held.new.variables } }
    ensures grows { O.grows flow.old.shown.output flow.new.shown.output }
{
    if !can_keep(keep, block.texts, top) {
        return Err(Refusal::Bad);
    }
    end_above(&mut flow.activations, &mut held.variables, height);
    Ok(Left {
        reply: Reply::Done(frame, keep),
        texts: block.texts,
        edits: block.edits,
    })
}

/// 6: all blocks above the newest one with a frame end, with their storage and on-units; with keep 1 the newest text stays above the
/// entries of that block. What is kept of that block is told, none where there is none.
#[tactic(auto, using(crate::proofs::Ends::none_above, crate::proofs::Ends::no_height, crate::proofs::Ends::least_height))]
pub fn unwind<O: OutputStream>(
    flow: &mut Flow<O>,
    held: &mut Held,
    frame: u32,
    keep: u32,
    block: Option<Block>,
    top: Top,
) -> Result<Left, Refusal>
    requires { option_map block_shown block ≡ option_map without_units (slice_get (blocks.from_frame frame flow.old.activations) 0) }
    ensures answers { (k : Keeper) → (m : List ℕ) → (c : Call) → IsTop top c.services.entries →
        Leaves (blocks.unwind_served (with_both k (flow_seen O.output flow.old) held.old m c) frame keep) keep
        (with_both k (flow_seen O.output flow.old) held.old m c) result (with_both k (flow_seen O.output flow.new)
        held.new m c) }
    ensures kept { held.new ≡ record held.old { variables = held.new.variables } }
    ensures grows { O.grows flow.old.shown.output flow.new.shown.output }
{
    let Some(block) = block else {
        return Err(Refusal::Bad);
    };
    match flow.activations.height_of(frame) {
        Some(found) => {
            let height = found.min(flow.activations.height());
            unwind_block(flow, held, frame, keep, height, block, top)
        }
        None => Err(Refusal::Bad),
    }
}

/// An on-unit, the newest block, ends.
fn leave_unit<O: OutputStream>(
    flow: &mut Flow<O>,
    held: &mut Held,
    block: Block,
    code: u16,
    resume: u32,
) -> Left
    requires newest { IsNewest block flow.old.activations }
    requires unit { block.kind ≡ BlockKind.OnUnit code resume }
    ensures answers { (k : Keeper) → (m : List ℕ) → (c : Call) →
        Leaves (blocks.return_served (with_both k (flow_seen O.output flow.old) held.old m c)) 0
        (with_both k (flow_seen O.output flow.old) held.old m c) (Ok result)
        (with_both k (flow_seen O.output flow.new) held.new m c) }
    ensures kept { held.new ≡ record held.old { variables = held.new.variables } }
    ensures grows { O.grows flow.old.shown.output flow.new.shown.output }
{
    flow.line = block.line;
    let height = flow.activations.height() - 1;
    end_above(&mut flow.activations, &mut held.variables, height);
    Left {
        reply: Reply::Done(resume, u32::from(code)),
        texts: block.texts,
        edits: block.edits,
    }
}

/// The newest block ends, if it is an on-unit.
#[tactic(auto, using(crate::proofs::Ends::procedure_stays, crate::proofs::Ends::begin_stays))]
fn return_block<O: OutputStream>(
    flow: &mut Flow<O>,
    held: &mut Held,
    block: Block,
) -> Result<Left, Refusal>
    requires { IsNewest block flow.old.activations }
    ensures answers { (k : Keeper) → (m : List ℕ) → (c : Call) →
        Leaves (blocks.return_served (with_both k (flow_seen O.output flow.old) held.old m c)) 0
        (with_both k (flow_seen O.output flow.old) held.old m c) result (with_both k (flow_seen O.output flow.new)
        held.new m c) }
    ensures kept { held.new ≡ record held.old { variables = held.new.variables } }
    ensures grows { O.grows flow.old.shown.output flow.new.shown.output }
{
    match block.kind {
        BlockKind::OnUnit { code, resume } => Ok(leave_unit(flow, held, block, code, resume)),
        BlockKind::Procedure => Err(Refusal::Bad),
        BlockKind::Begin => Err(Refusal::Bad),
    }
}

/// 31: the newest block, an on-unit, ends, and the line of the raise is current again. The reply tells where the program goes on, and
/// the unit's code.
#[tactic(auto, using(crate::proofs::Ends::none_returned))]
pub fn return_from<O: OutputStream>(flow: &mut Flow<O>, held: &mut Held) -> Result<Left, Refusal>
    ensures answers { (k : Keeper) → (m : List ℕ) → (c : Call) →
        Leaves (blocks.return_served (with_both k (flow_seen O.output flow.old) held.old m c)) 0
        (with_both k (flow_seen O.output flow.old) held.old m c) result (with_both k (flow_seen O.output flow.new)
        held.new m c) }
    ensures kept { held.new ≡ record held.old { variables = held.new.variables } }
    ensures grows { O.grows flow.old.shown.output flow.new.shown.output }
{
    match flow.activations.newest() {
        Some(block) => return_block(flow, held, block),
        None => Err(Refusal::Bad),
    }
}
