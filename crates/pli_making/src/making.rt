// Variables are made: service 7.

ghost use Rattle.std.specs.Prelude.{◌≡◌, ◌≢◌, ◌≤◌, Ok, length, max};
ghost use Rattle.controlled_gens.specs.Rooted.{livings};
ghost use Rattle.pli_answering.specs.Answering.{Answers};
ghost use Rattle.pli_meaning.specs.BasicValues.{VariableName};
ghost use Rattle.pli_meaning.specs.declared.outcome.End.TheVariants as E;
ghost use Rattle.pli_meaning.specs.declared.outcome.Limit.TheVariants as L;
ghost use Rattle.pli_serving.specs.ActsAndEnds.{run_ended};
ghost use Rattle.pli_serving.specs.Answers.{Answer};
ghost use Rattle.pli_serving.specs.Bytes.{name_bytes, with_bytes};
ghost use Rattle.pli_serving.specs.Finding.{Call};
ghost use Rattle.pli_serving.specs.Making as served;
ghost use Rattle.pli_services.specs.Flowing.{flow_seen, with_flow};
ghost use Rattle.pli_storage.specs.Held.{with_held, IsLaid};
ghost use Rattle.pli_making.specs.InUse.{IsCounted};
ghost use Rattle.pli_making.specs.Making.{content_made, entered_with, owner_made, refusal_of, with_both, Enters, IsReady, IsStarted, IsWeighed, Starts};

use crate::content::{Fresh, put_content};
use crate::in_use::InUse;
use crate::starting::{Started, start};
use crate::wanted::{Making, owner_of};
use area_heap::keeper::AreaKeeper;
use controlled_gens::fault::GenFault;
use controlled_gens::roots::Place;
use pli_answering::reply::{Refusal, Reply};
use pli_edit::output_stream::OutputStream;
use pli_meaning::outcome::{End, Limit};
use pli_services::flow::Flow;
use pli_storage::held::Held;
use pli_values::name::{Name, put_name};
use std::alloc::Global;

/// Makes a variable's data, and then writes its name.
fn write_made<K: AreaKeeper>(memory: &mut [u8], wanted: Making, serial: u64, fresh: &Fresh)
    requires { IsReady K.keeper wanted fresh.now (length memory.old) }
    ensures { memory.new ≡ with_bytes (name_bytes (VariableName serial)) wanted.name (with_bytes (content_made K.keeper fresh.now.content wanted.place memory.old) wanted.place memory.old) }
{
    put_content::<K>(memory, wanted.place, &fresh.content);
    put_name(memory, wanted.name as usize, Name::Variable { serial });
}

/// Why a variable gets no serial: all were given, or there is no memory.
#[tactic(auto, using(crate::proofs::Makings::other_fault))]
fn refusal_of(fault: GenFault) -> Refusal
    ensures { result ≡ refusal_of fault }
{
    match fault {
        GenFault::NoSerial => Refusal::Bad,
        _ => Refusal::Memory,
    }
}

/// A variable lives by the next serial, with so many bytes of data.
fn enter(held: &mut Held, wanted: Making, owner: u32, len: u32) -> Result<u64, Refusal>
    ensures enters { Enters wanted owner len held.old result held.new }
    ensures kept { held.new ≡ record held.old { variables = held.new.variables } }
{
    let place = Place {
        at: wanted.place,
        len,
    };
    match held.variables.enter(place, wanted.signature, owner) {
        Ok(serial) => Ok(serial),
        Err(fault) => Err(refusal_of(fault)),
    }
}

/// The same, and what it counts for is counted.
fn enter_counted(
    held: &mut Held,
    in_use: &mut InUse,
    wanted: Making,
    owner: u32,
    len: u32,
    counts: u64,
) -> Result<u64, Refusal>
    requires weighed { IsWeighed held.old in_use.old wanted owner counts }
    requires counted { IsCounted held.old.signatures (livings held.old.variables.roots) in_use.old }
    requires newest { owner ≢ 0 → length in_use.old ≤ owner }
    ensures enters { Enters wanted owner len held.old result held.new }
    ensures counted { IsCounted held.new.signatures (livings held.new.variables.roots) in_use.new }
    ensures long { length in_use.new ≤ max owner (length in_use.old) }
    ensures kept { held.new ≡ record held.old { variables = held.new.variables } }
{
    in_use.reach(owner)?;
    match enter(held, wanted, owner, len) {
        Ok(serial) => {
            in_use.add(owner, counts);
            Ok(serial)
        }
        Err(refusal) => Err(refusal),
    }
}

/// Makes a variable of what it begins with.
fn make_fresh<K: AreaKeeper>(
    held: &mut Held,
    in_use: &mut InUse,
    memory: &mut [u8],
    wanted: Making,
    owner: u32,
    fresh: &Fresh,
    counts: u64,
) -> Result<Reply, Refusal>
    requires ready { IsReady K.keeper wanted fresh.now (length memory.old) }
    requires weighed { IsWeighed held.old in_use.old wanted owner counts }
    requires counted { IsCounted held.old.signatures (livings held.old.variables.roots) in_use.old }
    requires newest { owner ≢ 0 → length in_use.old ≤ owner }
    ensures answers { (c : Call) → Answers (λ c. entered_with c wanted owner (content_made K.keeper fresh.now.content wanted.place c.memory)) (with_held K.keeper held.old memory.old c) result (with_held K.keeper held.new memory.new c) }
    ensures counted { IsCounted held.new.signatures (livings held.new.variables.roots) in_use.new }
    ensures long { length in_use.new ≤ max owner (length in_use.old) }
    ensures kept { held.new ≡ record held.old { variables = held.new.variables } }
{
    match enter_counted(held, in_use, wanted, owner, fresh.len, counts) {
        Ok(serial) => {
            write_made::<K>(memory, wanted, serial, fresh);
            Ok(Reply::Done(wanted.name, wanted.signature))
        }
        Err(refusal) => Err(refusal),
    }
}

/// The run ends, since AUTOMATIC variables would count for too much.
fn end_limited<O: OutputStream>(flow: &mut Flow<O>) -> Result<Reply, Refusal>
    ensures answers { (c : Call) → Answers (λ c. run_ended (E.Limit L.Automatic) c.services)
        (with_flow (flow_seen O.output flow.old) c) result (with_flow (flow_seen O.output flow.new) c) }
    ensures kept { flow.new ≡ record flow.old { shown = flow.new.shown } }
    ensures grows { O.grows flow.old.shown.output flow.new.shown.output }
{
    flow.shown.finish(End::Limit(Limit::Automatic))?;
    Ok(Reply::Ended)
}

/// Makes a variable that was started, or ends the run.
fn make_started<K: AreaKeeper, O: OutputStream>(
    flow: &mut Flow<O>,
    held: &mut Held,
    in_use: &mut InUse,
    memory: &mut [u8],
    wanted: Making,
    owner: u32,
    started: Started,
) -> Result<Reply, Refusal>
    requires laid { IsLaid K.keeper held.old.layout memory.old }
    requires started { IsStarted K.keeper held.old in_use.old wanted owner started }
    requires counted { IsCounted held.old.signatures (livings held.old.variables.roots) in_use.old }
    requires newest { owner ≢ 0 → length in_use.old ≤ owner }
    ensures answers { (c : Call) → (answer : Answer) → Starts answer (with_both K.keeper (flow_seen O.output flow.old)
        held.old memory.old c) wanted owner (Ok started) →
        Answers (λ c. answer) (with_both K.keeper (flow_seen O.output flow.old) held.old memory.old c) result
        (with_both K.keeper (flow_seen O.output flow.new) held.new memory.new c) }
    ensures counted { IsCounted held.new.signatures (livings held.new.variables.roots) in_use.new }
    ensures long { length in_use.new ≤ max owner (length in_use.old) }
    ensures held_kept { held.new ≡ record held.old { variables = held.new.variables } }
    ensures flow_kept { flow.new ≡ record flow.old { shown = flow.new.shown } }
    ensures grows { O.grows flow.old.shown.output flow.new.shown.output }
{
    match started {
        Started::Limited => end_limited(flow),
        Started::Ready { fresh, counts } => {
            make_fresh::<K>(held, in_use, memory, wanted, owner, &fresh, counts)
        }
    }
}

/// Makes a variable of an owner.
fn make_owned<K: AreaKeeper, O: OutputStream>(
    flow: &mut Flow<O>,
    held: &mut Held,
    in_use: &mut InUse,
    alloc: Global,
    memory: &mut [u8],
    wanted: Making,
    owner: u32,
) -> Result<Reply, Refusal>
    requires laid { IsLaid K.keeper held.old.layout memory.old }
    requires counted { IsCounted held.old.signatures (livings held.old.variables.roots) in_use.old }
    requires newest { owner ≢ 0 → length in_use.old ≤ owner }
    ensures answers { (c : Call) → Answers (λ c. owner_made c wanted owner)
        (with_both K.keeper (flow_seen O.output flow.old) held.old memory.old c) result
        (with_both K.keeper (flow_seen O.output flow.new) held.new memory.new c) }
    ensures counted { IsCounted held.new.signatures (livings held.new.variables.roots) in_use.new }
    ensures long { length in_use.new ≤ max owner (length in_use.old) }
    ensures held_kept { held.new ≡ record held.old { variables = held.new.variables } }
    ensures flow_kept { flow.new ≡ record flow.old { shown = flow.new.shown } }
    ensures grows { O.grows flow.old.shown.output flow.new.shown.output }
{
    match start::<K>(held, in_use, alloc, memory, wanted, owner) {
        Ok(started) => make_started::<K, O>(flow, held, in_use, memory, wanted, owner, started),
        Err(refusal) => Err(refusal),
    }
}

/// 7: a variable's generation or an argument's copy is made where its data go, with defaults and INITIAL values, and its name is
/// written. An AUTOMATIC variable or a copy ends with the newest block; where all of these would count for more than 1 MiB, the run
/// ends. Want of memory changes nothing but how many heights have totals; data that would end behind the data of memory, where a REFER
/// extent of 0 is more than the signature counts, and an area of a capacity that no keeper makes count as that.
pub fn make<K: AreaKeeper, O: OutputStream>(
    flow: &mut Flow<O>,
    held: &mut Held,
    in_use: &mut InUse,
    alloc: Global,
    memory: &mut [u8],
    wanted: Making,
) -> Result<Reply, Refusal>
    requires laid { IsLaid K.keeper held.old.layout memory.old }
    requires counted { IsCounted held.old.signatures (livings held.old.variables.roots) in_use.old }
    requires height { length in_use.old ≤ length flow.old.activations }
    ensures answers { (c : Call) → Answers (λ c. served.make_served c wanted.name wanted.signature wanted.initial
        wanted.place wanted.class) (with_both K.keeper (flow_seen O.output flow.old) held.old memory.old c) result
        (with_both K.keeper (flow_seen O.output flow.new) held.new memory.new c) }
    ensures counted { IsCounted held.new.signatures (livings held.new.variables.roots) in_use.new }
    ensures height { length in_use.new ≤ length flow.new.activations }
    ensures held_kept { held.new ≡ record held.old { variables = held.new.variables } }
    ensures flow_kept { flow.new ≡ record flow.old { shown = flow.new.shown } }
    ensures grows { O.grows flow.old.shown.output flow.new.shown.output }
{
    match owner_of(wanted.class, flow.activations.height()) {
        Some(owner) => make_owned::<K, O>(flow, held, in_use, alloc, memory, wanted, owner),
        None => Err(Refusal::Bad),
    }
}
