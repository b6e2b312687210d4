// A run's flow: an act, a block with an on-unit, a raise and its unit, and the end; with a refused allocation nothing is shown.

use crate::blocks::Standing;
use crate::flow::Flow;
use pli_answering::reply::{Refusal, Reply};
use pli_edit::output::Output;
use pli_meaning::outcome::End;

const NONE_WAIT: Standing = Standing {
    are_texts: true,
    entries: 0,
    edits: 0,
};

// What the calls reply, up to the first that is refused.
fn walk(flow: &mut Flow<Output>) -> Result<[Reply; 5], Refusal> {
    let acted = flow.act(7, 0)?;
    let entered = flow.enter(0, 4096, 8, 0, NONE_WAIT)?;
    flow.establish(5, 64)?;
    let raised = flow.raise(5, 199, 32)?;
    let unit = flow.enter(2, 8192, 9, 0, NONE_WAIT)?;
    let reverted = flow.revert(5, 1)?;
    flow.retry(1, 2)?;
    flow.end(2, 105)?;
    Ok([acted, entered, raised, unit, reverted])
}

#[test]
fn a_run_flows_or_memory_is_refused(rt: HostRuntime) {
    let mut flow = Flow::new(rt.alloc(), Output::new(rt.alloc()));
    match walk(&mut flow) {
        Ok(replies) => {
            assert!(rt; replies[0] == Reply::Done(7, 0) && replies[1] == Reply::Done(0, 4096));
            assert!(rt; replies[2] == Reply::Done(64, 4096) && replies[3] == Reply::Done(2, 8192));
            assert!(rt; replies[4] == Reply::Done(5, 1) && flow.oncode(3) == Reply::Done(199, 3));
            assert!(rt; flow.shown.acts == 4 && flow.shown.raised.len() == 1);
            assert!(rt; flow.shown.end == End::Error { code: 105, line: 9 });
        }
        Err(refusal) => assert!(rt; refusal == Refusal::Memory && flow.shown.end == End::Running),
    }
    assert!(rt; flow.act(7, 2) == Err(Refusal::Bad) && flow.end(3, 0) == Err(Refusal::Bad));
}
