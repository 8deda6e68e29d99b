// What is kept of calls for later ones.
ghost use Rattle.std.specs.Prelude.{◌≡◌, ◌<◌, ◌^◌, IfOk, IfNone, IfSome, IsOk, OnOk, Some};
ghost use Rattle.spec_meaning.specs.Question.{Question, Answer};
ghost use Rattle.spec_run.specs.Trail.{IsTrue};
ghost use Rattle.spec_node.specs.Naming.{same_ref};
ghost use Rattle.spec_node.specs.declared.node_ref.NodeRef.{NodeRef};
ghost use Rattle.xt_engine.specs.View.{call_of};
ghost use Rattle.xt_engine.specs.Advances.{ran_of};
ghost use Rattle.xt_record.specs.Kept.{kept_with};
ghost use Rattle.xt_record.specs.View.{kept_in, AsksHold};
ghost use Rattle.xt_record.specs.Sure.{IsSure};
ghost use Rattle.xt_driver.specs.Made.{IsMade, MadeHolds};
ghost use Rattle.xt_driver.specs.Counted.{IsAnswer, IsKept, IsKeptToo, IsMadeToo, IsUnserved};

use crate::came::Outcome;
use crate::drive::Served;
use crate::lost::Lost;
use crate::outcome::Ended;
use std::alloc::Global;
use std::rc::Rc;
use xt_engine::{Call, Ran};
use xt_record::{Found, Record, Reuse};
use xt_text::Memory;

// Up to here stand the records that this run kept, and behind it those of the last one.
const LAST_KEPT: u64 = (1 << 63) - 1;

/// Keeps what the engine made of a call, if it came to its end. Its outcome is given back.
pub fn keep_ended(
    alloc: Global,
    reuse: &mut Reuse<'_>,
    call: &Call,
    ended: Ended,
) -> Result<Box<Outcome>, Memory>
    requires { IsMade (call_of call.now) ended.ran }
    ensures outcome { IfOk result (λ o. o ≡ ended.outcome) }
    ensures sure { OnOk result ((ask : Question NodeRef → Answer NodeRef) → IsSure ask reuse.old → MadeHolds ask ended.ran → IsSure ask reuse.new) }
    ensures kept { OnOk result (IsMadeToo reuse.old reuse.new (call_of call.now) ended.ran) }
    ensures last { reuse.new.last ≡ reuse.old.last }
    ensures spared { reuse.new.spared ≡ reuse.old.spared }
    ensures steps { reuse.new.steps ≡ reuse.old.steps }
{
    let Ended { outcome, ran } = ended;
    match ran {
        None => {
            reuse.leave();
            Ok(outcome)
        }
        Some(ran) => {
            keep_run(alloc, reuse, call, ran)?;
            Ok(outcome)
        }
    }
}

// Keeps what the engine made of a call that came to its end.
fn keep_run(alloc: Global, reuse: &mut Reuse<'_>, call: &Call, ran: Box<Ran>) -> Result<(), Memory>
    requires { IsTrue same_ref (kept_with (call_of call.now) (ran_of ran.value)) }
    ensures sure { OnOk result ((ask : Question NodeRef → Answer NodeRef) → IsSure ask reuse.old → AsksHold ask (ran_of ran.value).trace → IsSure ask reuse.new) }
    ensures kept { OnOk result (IsMadeToo reuse.old reuse.new (call_of call.now) (Some ran)) }
    ensures last { reuse.new.last ≡ reuse.old.last }
    ensures spared { reuse.new.spared ≡ reuse.old.spared }
    ensures steps { reuse.new.steps ≡ reuse.old.steps }
{
    let Ok(call) = call.copy(alloc) else {
        return Err(Memory);
    };
    let ran = Box::into_inner(ran);
    let kept = Record::new(call, ran);
    let Ok(shared) = Rc::new(alloc, kept) else {
        return Err(Memory);
    };
    reuse.keep(alloc, shared)
}

/// Keeps the record that served a call, if this run does not yet. Nothing where the next is to be tried.
pub fn tried(
    alloc: Global,
    reuse: &mut Reuse<'_>,
    found: Found,
    served: Result<Served, Memory>,
) -> Result<Option<Served>, Memory>
    ensures sure { OnOk result ((ask : Question NodeRef → Answer NodeRef) → IsSure ask reuse.old → AsksHold ask (kept_in found.record.value).trace → IsSure ask reuse.new) }
    ensures last { reuse.new.last ≡ reuse.old.last }
    ensures spared { reuse.new.spared ≡ reuse.old.spared }
    ensures steps { reuse.new.steps ≡ reuse.old.steps }
    ensures kept { OnOk result (IsKeptToo served reuse.old reuse.new found) }
    ensures came { OnOk result (IsOk served) }
    ensures served { IfOk result (λ o. IfSome o (λ s. served ≡ Ok s)) }
    ensures unserved { IfOk result (λ o. IfNone o (IsUnserved served)) }
    ensures answer { IfOk result (λ o. IfSome o IsAnswer) }
{
    match served? {
        Served::As(outcome) => {
            keep_found(alloc, reuse, found)?;
            Ok(Some(Served::As(outcome)))
        }
        Served::Not(Lost::Nothing) => Ok(None),
        Served::Not(lost) => Ok(Some(Served::Not(lost))),
    }
}

/// From where to look for the next record.
pub fn next_turn(found: &Found) -> u64
    ensures same { result ≡ found.now.next }
    ensures fits { result < 2 ^ 64 }
{
    found.next
}

// Keeps it, if this run does not yet: those that it kept stand before all of the last run.
fn keep_found(alloc: Global, reuse: &mut Reuse<'_>, found: Found) -> Result<(), Memory>
    ensures sure { OnOk result ((ask : Question NodeRef → Answer NodeRef) → IsSure ask reuse.old → AsksHold ask (kept_in found.record.value).trace → IsSure ask reuse.new) }
    ensures kept { OnOk result (IsKept reuse.old reuse.new found) }
    ensures last { reuse.new.last ≡ reuse.old.last }
    ensures spared { reuse.new.spared ≡ reuse.old.spared }
    ensures steps { reuse.new.steps ≡ reuse.old.steps }
{
    if found.next <= LAST_KEPT {
        return reuse.plant(alloc, &found.record);
    }
    reuse.keep(alloc, found.record)
}
