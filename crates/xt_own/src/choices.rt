// What is asked for one choice of a template rule (XSLT 1.0, section 5.5).
ghost use Rattle.std.specs.Prelude.{◌≡◌, ℕ, [], IfOk, IfSome, map};
ghost use Rattle.spec_document.specs.Forest.{Document};
ghost use Rattle.spec_meaning.specs.Program.{reads_of};
ghost use Rattle.spec_meaning.specs.Question as question;
ghost use Rattle.spec_run.specs.Documents.{Parameters};
ghost use Rattle.spec_transform.specs.Key.{no_globals};
ghost use Rattle.xt_questions.specs.View.{candidates_of, read_of};
ghost use Rattle.xt_spared.specs.View.{own_of, questions_of};
ghost use Rattle.xt_world.specs.View.{truth_in};
ghost use Rattle.xt_own.specs.Made.{IsMade};
ghost use Rattle.xt_own.specs.Asking.{asked_in, asked_of, choice_among};
ghost use Rattle.xt_own.specs.View.{IsDecided};

use crate::asked::questions_asked;
use crate::choosing::Choosing;
use std::alloc::Global;
use std::mem;
use xp_eval::Eval;
use xt_match::choose;
use xt_names::{Expanded, copy_name_if};
use xt_questions::{Candidates, EvalFault, Logged, Question, Read, Supplies};
use xt_spared::OwnChoice;
use xt_text::Memory;
use xt_tree::NodeRef;
use xt_world::{Source, Stylesheet};

/// A choice, made once more in this source, with what is asked for it. None where that is more than the source and its keys
/// answer.
pub(crate) fn own_choice<'a>(
    alloc: Global,
    stylesheet: &Stylesheet,
    node: NodeRef,
    mode: &Option<Expanded>,
    candidates: Candidates,
    choosing: &mut Choosing<'a>,
) -> Result<Option<OwnChoice>, Memory>
    ensures decided { (parameters : Parameters) (document : Document ℕ) → asked_of choosing.old ≡ asked_in stylesheet.now document
        → IfOk result (λ o. IfSome o (λ own. IsDecided stylesheet.now (truth_in stylesheet.now parameters document) (own_of own))) }
    ensures same { asked_of choosing.new ≡ asked_of choosing.old }
{
    let reads = reads_of_choice(alloc, stylesheet, node, mode, candidates, choosing)?;
    let asked = questions_asked(alloc, reads.as_slice());
    drop(reads);
    match asked? {
        None => Ok(None),
        Some(reads) => of_choice(alloc, node, mode, candidates, reads),
    }
}

// The choice with these reads.
fn of_choice(
    alloc: Global,
    node: NodeRef,
    mode: &Option<Expanded>,
    candidates: Candidates,
    reads: Vec<Question>,
) -> Result<Option<OwnChoice>, Memory>
    ensures { IfOk result (λ o. IfSome o (λ own. own_of own ≡ record { question = question.Choice node mode.now (candidates_of candidates); reads = questions_of reads.items })) }
{
    let Ok(mode) = copy_name_if(alloc, mode) else {
        drop(reads);
        return Err(Memory);
    };
    Ok(Some(OwnChoice {
        question: Question::Choice(node, mode, candidates),
        reads,
    }))
}

// What is read where the choice is made.
fn reads_of_choice<'a>(
    alloc: Global,
    stylesheet: &Stylesheet,
    node: NodeRef,
    mode: &Option<Expanded>,
    candidates: Candidates,
    choosing: &mut Choosing<'a>,
) -> Result<Vec<Read>, Memory>
    ensures reads { IfOk result (λ reads. map read_of reads.items ≡ reads_of (asked_of choosing.old).source no_globals 0 (choice_among (asked_of choosing.old).rules stylesheet.now node mode.now (candidates_of candidates))) }
    ensures same { asked_of choosing.new ≡ asked_of choosing.old }
{
    drop(take_reads(alloc, &mut choosing.world));
    let supplies = Supplies {
        position: 1,
        size: 1,
        rule: None,
        globals: Vec::new(alloc),
    };
    let units = stylesheet.units.as_slice();
    let chosen = choose(
        alloc,
        &mut choosing.table,
        units,
        node,
        mode,
        candidates,
        &supplies,
        &mut choosing.world,
    );
    drop(supplies);
    let reads = take_reads(alloc, &mut choosing.world);
    kept_if_made(chosen, reads)
}

// What was read so far, which the world keeps no longer.
fn take_reads<'a>(alloc: Global, world: &mut Eval<Logged<Source<'a>>>) -> Vec<Read>
    ensures reads { result.items ≡ world.old.world.reads.items }
    ensures none { world.new.world.reads.items ≡ [] }
    ensures source { world.new.world.world ≡ world.old.world.world }
{
    mem::replace(&mut world.world.reads, Vec::new(alloc))
}

// The reads of a choice that was made, if memory held out. A choice that is refused, or needs a global, reads too.
fn kept_if_made(
    chosen: Result<Option<u64>, EvalFault>,
    reads: Vec<Read>,
) -> Result<Vec<Read>, Memory>
    ensures { IfOk result (λ kept. (kept ≡ reads) × IsMade chosen) }
{
    match chosen {
        Ok(_) => Ok(reads),
        Err(EvalFault::Memory) => {
            drop(reads);
            Err(Memory)
        }
        Err(EvalFault::Refused(refusal)) => {
            drop(refusal);
            Ok(reads)
        }
        Err(EvalFault::Wants(name)) => {
            drop(name);
            Ok(reads)
        }
    }
}
