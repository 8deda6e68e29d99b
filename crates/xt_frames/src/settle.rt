// What evaluations come to in a run.
ghost use Rattle.std.specs.Prelude.{◌≡◌, List, map, IfOk, OnOk};
ghost use Rattle.spec_run.specs.Plan.{located};
ghost use Rattle.spec_run.specs.Going as plain;
ghost use Rattle.xt_syntax.specs.PartView.{place_of};
ghost use Rattle.spec_node.specs.declared.node_ref.NodeRef.{NodeRef};
ghost use Rattle.xt_questions.specs.declared.read.Read as declared;
ghost use Rattle.xt_questions.specs.View.{read_of, refusal_of};
ghost use Rattle.xt_engine.specs.View.{refused_of, event_of};
ghost use Rattle.xt_progress.specs.View.{going_of};
ghost use Rattle.xt_frames.specs.Noted.{event_at, read_in, Settled};

use crate::Came;
use std::alloc::Global;
use std::rc::Rc;
use xt_base::Place;
use xt_engine::{Event, Refused};
use xt_progress::Going;
use xt_questions::{EvalFault, Read, Refusal, copy_place};
use xt_text::Memory;

/// What was evaluated at an element, in a run: where it has a value its reads are noted.
pub(crate) fn settle<T: Drop>(
    alloc: Global,
    going: &mut Going,
    place: &Place,
    reads: Vec<Read>,
    found: Result<T, EvalFault>,
) -> Result<Came<T>, Memory>
    ensures { IfOk result (Settled (place_of place.now) (going_of going.old) (going_of going.new) reads.items found) }
{
    match found {
        Ok(value) => {
            note_reads(alloc, going, place, reads)?;
            Ok(Came::Is(value))
        }
        Err(fault) => halt(alloc, place, fault),
    }
}

/// Why there is no value.
fn halt<T: Drop>(alloc: Global, place: &Place, fault: EvalFault) -> Result<Came<T>, Memory>
    ensures { (g : plain.Going NodeRef) → (reads : List declared.Read) → IfOk result (Settled (place_of place.now) g g reads (Err fault)) }
{
    match fault {
        EvalFault::Memory => Err(Memory),
        EvalFault::Refused(why) => Ok(Came::Halts(locate(alloc, place, why)?)),
        EvalFault::Wants(name) => Ok(Came::Lacks(name)),
    }
}

/// The refusal at this element: one of another element keeps its place.
fn locate(alloc: Global, place: &Place, why: Refusal) -> Result<Refused, Memory>
    ensures { IfOk result (λ r. refused_of r ≡ located (place_of place.now) (refusal_of why)) }
{
    match why {
        Refusal::Here(code) => {
            let place = copy_place(alloc, place)?;
            Ok(Refused { code, place })
        }
        Refusal::At(code, place) => Ok(Refused { code, place }),
    }
}

/// Notes what was read at an element.
fn note_reads(
    alloc: Global,
    going: &mut Going,
    place: &Place,
    reads: Vec<Read>,
) -> Result<(), Memory>
    ensures { OnOk result (going_of going.new ≡ read_in (place_of place.now) (map read_of reads.items) (going_of going.old)) }
{
    for read in reads {
        let event = event_at(alloc, place, read)?;
        going.note(event)?;
    }
    Ok(())
}

/// A read at an element.
fn event_at(alloc: Global, place: &Place, read: Read) -> Result<Event, Memory>
    ensures { IfOk result (λ e. event_of e ≡ event_at (place_of place.now) (read_of read)) }
{
    match read {
        Read::Asked(question, answer) => Ok(Event::Asked(question, answer)),
        Read::Saw(wanted, depth, given) => {
            let Ok(place) = shared_place(alloc, place) else {
                drop(wanted);
                drop(given);
                return Err(Memory);
            };
            Ok(Event::Saw(wanted, depth, place, given))
        }
    }
}

// The same place, in memory that is shared: it is large, and what was done is held in a list.
fn shared_place(alloc: Global, place: &Place) -> Result<Rc<Place>, Memory>
    ensures { IfOk result (λ p. place_of p.value ≡ place_of place.now) }
{
    let copied = copy_place(alloc, place)?;
    Ok(Rc::new(alloc, copied)?)
}
