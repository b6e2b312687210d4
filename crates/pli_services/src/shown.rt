// What a run shows, which changes at acts alone.

ghost use Rattle.std.specs.Prelude.{◌≡◌, ◌+◌, ◌^◌, [], true, false, nat_lt, MatchResult};
ghost use Rattle.pli_meaning.specs.World.{counted, ending, first_world, raising};
ghost use Rattle.pli_services.specs.Shown.{world_of, Acts, Wrote};

use pli_answering::reply::Refusal;
use pli_edit::fault::EditFault;
use pli_edit::output::Output;
use pli_edit::output_stream::OutputStream;
use pli_language::condition::Condition;
use pli_meaning::outcome::End;
use std::alloc::Global;

/// The acts that were made, the output, the conditions that were raised, and how the run stands.
#[derive(Drop)]
pub struct Shown<O = Output> {
    pub acts: u64,
    pub output: O,
    pub raised: Vec<(Condition, u16)>,
    pub end: End,
}

impl<O: OutputStream> Shown<O> {
    /// Nothing is shown, and the run goes on.
    pub fn new(alloc: Global, output: O) -> Shown<O>
        requires { O.output output ≡ [] }
        ensures world { world_of O.output result ≡ first_world }
        ensures output { result.output ≡ output }
    {
        Shown {
            acts: 0,
            output,
            raised: Vec::new(alloc),
            end: End::Running,
        }
    }

    /// An act that shows nothing.
    pub fn count(&mut self) -> Result<(), Refusal>
        ensures acts { Acts (world_of O.output self.old) (counted (world_of O.output self.old)) result
            (world_of O.output self.new) }
        ensures grows { O.grows self.old.output self.new.output }
    {
        self.acts = next_act(self.acts)?;
        Ok(())
    }

    /// The act that raises a condition with its code.
    pub fn raise(&mut self, condition: Condition, code: u16) -> Result<(), Refusal>
        ensures acts { Acts (world_of O.output self.old) (raising condition code (world_of O.output self.old)) result
            (world_of O.output self.new) }
        ensures grows { O.grows self.old.output self.new.output }
    {
        let acts = next_act(self.acts)?;
        self.raised.push((condition, code))?;
        self.acts = acts;
        Ok(())
    }

    /// The act that ends the run; an unfinished last line gets its line feed.
    pub fn finish(&mut self, end: End) -> Result<(), Refusal>
        ensures acts { Acts (world_of O.output self.old) (ending end (world_of O.output self.old)) result
            (world_of O.output self.new) }
        ensures grows { O.grows self.old.output self.new.output }
    {
        let acts = next_act(self.acts)?;
        written(self.output.finish())?;
        self.acts = acts;
        self.end = end;
        Ok(())
    }
}

/// The number of the next act.
fn next_act(acts: u64) -> Result<u64, Refusal>
    ensures { MatchResult result (λ next. (next ≡ acts + 1) × (nat_lt (acts + 1) (2 ^ 64) ≡ true)) (λ e. (e ≡ Refusal.Bad) × (nat_lt (acts + 1) (2 ^ 64) ≡ false)) }
{
    acts.checked_add(1).ok_or(Refusal::Bad)
}

/// A write that failed leaves what is due: the act is made. Whoever called the service asks the output.
pub fn written(outcome: Result<(), EditFault>) -> Result<(), Refusal>
    ensures { Wrote outcome result }
{
    match outcome {
        Ok(()) | Err(EditFault::Write) => Ok(()),
        Err(_) => Err(Refusal::Memory),
    }
}
