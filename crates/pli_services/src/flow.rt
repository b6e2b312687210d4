// How a run goes on: services 1, 2, 28 to 30, 32 and 33.

ghost use Rattle.std.specs.Prelude.{◌≡◌, length, [], Some, None, if◌then◌else◌};
ghost use Rattle.pli_serving.specs.Finding.{Call};
ghost use Rattle.pli_serving.specs.ActsAndEnds as acts;
ghost use Rattle.pli_serving.specs.OnUnits as units;
ghost use Rattle.pli_activations.specs.Entered.{unit_shown};
ghost use Rattle.pli_answering.specs.Answering.{Answers};
ghost use Rattle.pli_services.specs.Flowing.{flow_seen, unstarted, with_flow};

use crate::shown::Shown;
use pli_activations::activations::Activations;
use pli_answering::reply::{Refusal, Reply};
use pli_conditions::units::Unit;
use pli_edit::output::Output;
use pli_edit::output_stream::OutputStream;
use pli_language::condition::Condition;
use pli_meaning::outcome::End;
use std::alloc::Global;

/// A raise whose unit is about to be entered: its code, the address where the program goes on behind the unit, and its line.
#[derive(Clone, Copy, PartialEq, Eq, Debug)]
pub struct Waiting {
    pub code: u16,
    pub resume: u32,
    pub line: u32,
}

/// What a run shows, the line that is current, the blocks that are entered, and the raise that waits.
#[derive(Drop)]
pub struct Flow<O = Output> {
    pub shown: Shown<O>,
    pub line: u32,
    pub activations: Activations,
    pub waiting: Option<Waiting>,
}

impl<O: OutputStream> Flow<O> {
    /// No block is entered, and no raise waits.
    pub fn new(alloc: Global, output: O) -> Flow<O>
        requires { O.output output ≡ [] }
        ensures unstarted { (c : Call) → with_flow (flow_seen O.output result) c ≡ unstarted c }
        ensures output { result.shown.output ≡ output }
    {
        Flow {
            shown: Shown::new(alloc, output),
            line: 0,
            activations: Activations::new(alloc),
            waiting: None,
        }
    }

    /// 1: the line becomes current; with mode 0 an act is made, with 1 none.
    pub fn act(&mut self, line: u32, mode: u32) -> Result<Reply, Refusal>
        ensures answers { (c : Call) → Answers (λ c. acts.act_served c line mode)
            (with_flow (flow_seen O.output self.old) c) result (with_flow (flow_seen O.output self.new) c) }
        ensures height { length self.new.activations ≡ length self.old.activations }
        ensures grows { O.grows self.old.shown.output self.new.shown.output }
    {
        match mode {
            0 => self.shown.count()?,
            1 => {}
            _ => return Err(Refusal::Bad),
        }
        self.line = line;
        Ok(Reply::Done(line, mode))
    }

    /// 2: the run ends: 0 Finished, 1 Stopped, 2 Error with a code at the current line.
    pub fn end(&mut self, kind: u32, code: u32) -> Result<Reply, Refusal>
        ensures answers { (c : Call) → Answers (λ c. acts.end_served c kind code)
            (with_flow (flow_seen O.output self.old) c) result (with_flow (flow_seen O.output self.new) c) }
        ensures height { length self.new.activations ≡ length self.old.activations }
        ensures grows { O.grows self.old.shown.output self.new.shown.output }
    {
        let Some(end) = end_of(kind, code, self.line) else {
            return Err(Refusal::Bad);
        };
        self.shown.finish(end)?;
        Ok(Reply::Ended)
    }

    /// 32: the act of trying an allocation again.
    pub fn retry(&mut self, first: u32, second: u32) -> Result<Reply, Refusal>
        ensures answers { (c : Call) → Answers (λ c. acts.retry_served c first second)
            (with_flow (flow_seen O.output self.old) c) result (with_flow (flow_seen O.output self.new) c) }
        ensures height { length self.new.activations ≡ length self.old.activations }
        ensures grows { O.grows self.old.shown.output self.new.shown.output }
    {
        self.shown.count()?;
        Ok(Reply::Done(first, second))
    }

    /// 33: the code of the newest active on-unit, 0 with none.
    pub fn oncode(&self, second: u32) -> Reply
        ensures { (c : Call) → Answers (λ c. acts.oncode_served c second) (with_flow (flow_seen O.output self.now) c)
            (Ok result) (with_flow (flow_seen O.output self.now) c) }
    {
        Reply::Done(u32::from(self.activations.oncode()), second)
    }

    /// 28: the newest block has a unit for the condition: code at an address, or with 0 the system's action.
    #[tactic(auto, using(crate::proofs::Units::established_none, crate::proofs::Units::established_height))]
    pub fn establish(&mut self, condition: u32, at: u32) -> Result<Reply, Refusal>
        ensures answers { (c : Call) → Answers (λ c. units.on_served c condition at)
            (with_flow (flow_seen O.output self.old) c) result (with_flow (flow_seen O.output self.new) c) }
        ensures height { length self.new.activations ≡ length self.old.activations }
        ensures grows { O.grows self.old.shown.output self.new.shown.output }
    {
        let Some(found) = condition_of(condition) else {
            return Err(Refusal::Bad);
        };
        if self.activations.height() == 0 {
            return Err(Refusal::Bad);
        }
        if self.activations.establish(found, unit_of(at)).is_err() {
            return Err(Refusal::Memory);
        }
        Ok(Reply::Done(condition, at))
    }

    /// 29: the newest block has no unit for the condition.
    #[tactic(auto, using(crate::proofs::Units::reverted_none, crate::proofs::Units::reverted_height))]
    pub fn revert(&mut self, condition: u32, second: u32) -> Result<Reply, Refusal>
        ensures answers { (c : Call) → Answers (λ c. units.revert_served c condition second)
            (with_flow (flow_seen O.output self.old) c) result (with_flow (flow_seen O.output self.new) c) }
        ensures height { length self.new.activations ≡ length self.old.activations }
        ensures grows { O.grows self.old.shown.output self.new.shown.output }
    {
        let Some(found) = condition_of(condition) else {
            return Err(Refusal::Bad);
        };
        if self.activations.height() == 0 {
            return Err(Refusal::Bad);
        }
        self.activations.revert(found);
        Ok(Reply::Done(condition, second))
    }

    /// 30: the condition is raised with its code; what the unit in force is told waits for its enter.
    #[tactic(auto, using(crate::proofs::Units::raised_without, crate::proofs::Units::raised_to))]
    pub fn raise(&mut self, condition: u32, code: u32, resume: u32) -> Result<Reply, Refusal>
        ensures answers { (c : Call) → Answers (λ c. units.raise_served c condition code resume)
            (with_flow (flow_seen O.output self.old) c) result (with_flow (flow_seen O.output self.new) c) }
        ensures height { length self.new.activations ≡ length self.old.activations }
        ensures grows { O.grows self.old.shown.output self.new.shown.output }
    {
        let (Some(raised), Some(short)) = (condition_of(condition), code_of(code)) else {
            return Err(Refusal::Bad);
        };
        self.shown.raise(raised, short)?;
        if let Some((frame, Unit::Code(at))) = self.activations.in_force(raised) {
            self.waiting = Some(Waiting {
                code: short,
                resume,
                line: self.line,
            });
            return Ok(Reply::Done(at, frame));
        }
        Ok(Reply::Done(0, code))
    }
}

/// The end of a run by its kind, an error with its code at a line.
fn end_of(kind: u32, code: u32, line: u32) -> Option<End>
    ensures { result ≡ acts.end_of kind code line }
{
    match kind {
        0 => Some(End::Finished),
        1 => Some(End::Stopped),
        2 => code_of(code).map(|code| End::Error { code, line }),
        _ => None,
    }
}

fn condition_of(number: u32) -> Option<Condition>
    ensures { result ≡ units.condition_of number }
{
    match number {
        1 => Some(Condition::Area),
        2 => Some(Condition::FixedOverflow),
        3 => Some(Condition::ZeroDivide),
        4 => Some(Condition::Endfile),
        5 => Some(Condition::Error),
        _ => None,
    }
}

fn unit_of(at: u32) -> Unit
    ensures { unit_shown result ≡ units.unit_of at }
{
    match at {
        0 => Unit::System,
        _ => Unit::Code(at),
    }
}

fn code_of(code: u32) -> Option<u16>
    ensures { result ≡ (if acts.is_code code then Some code else None) }
{
    if code <= 0xffff {
        Some(code as u16)
    } else {
        None
    }
}
