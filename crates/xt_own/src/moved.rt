// Choices that are made once more before a run, since a node was moved.
ghost use Rattle.std.specs.Prelude.{◌≡◌, ◌++◌, ◌∷◌, [], ℕ, IfOk, OnOk};
ghost use Rattle.spec_document.specs.Forest.{Document};
ghost use Rattle.spec_run.specs.Documents.{Parameters};
ghost use Rattle.xt_spared.specs.View.{own_of, owns_of};
ghost use Rattle.xt_world.specs.View.{truth_in};
ghost use Rattle.xt_own.specs.Asking.{asked_in, asked_of};
ghost use Rattle.xt_own.specs.View.{AllDecide};

use crate::choosing::Choosing;
use crate::gathering::made;
use std::alloc::Global;
use xt_engine::Event;
use xt_questions::Question;
use xt_record::Pool;
use xt_spared::OwnChoices;
use xt_text::Memory;
use xt_touch::{Modes, Since};
use xt_tree::Doc;
use xt_world::Stylesheet;

/// The choices of which nothing was gathered after the run that kept these records and which these changes mark, as they
/// are made in this source, each with what is asked for it. In modes of which all patterns go by names alone nothing is
/// gathered, since each choice would be made twice in each run; a move marks what is chosen for the moved node and all below
/// it, although few of their patterns ask where they stand.
pub(crate) fn choices_made_now(
    alloc: Global,
    document: &Doc,
    stylesheet: &Stylesheet,
    since: &Since,
    kept: &Pool,
) -> Result<OwnChoices, Memory>
    ensures { (parameters : Parameters) → IfOk result (λ choices. AllDecide stylesheet.now (truth_in stylesheet.now parameters document.now) (owns_of choices)) }
{
    let modes = Modes::asking(alloc, stylesheet.rules.rules.as_slice())?;
    let mut choices = OwnChoices::new(alloc);
    let added = add_choices(
        alloc,
        document,
        stylesheet,
        &modes,
        since,
        kept,
        &mut choices,
    );
    drop(modes);
    match added {
        Ok(()) => Ok(choices),
        Err(_) => {
            drop(choices);
            Err(Memory)
        }
    }
}

// Adds those that these records asked. Keys of the source are found once for all of them.
fn add_choices(
    alloc: Global,
    document: &Doc,
    stylesheet: &Stylesheet,
    modes: &Modes,
    since: &Since,
    kept: &Pool,
    choices: &mut OwnChoices,
) -> Result<(), Memory>
    ensures { (parameters : Parameters) → AllDecide stylesheet.now (truth_in stylesheet.now parameters document.now) (owns_of choices.old)
        → OnOk result (AllDecide stylesheet.now (truth_in stylesheet.now parameters document.now) (owns_of choices.new)) }
{
    let mut choosing = Choosing::new(alloc, document, stylesheet);
    let added = add_from(
        alloc,
        stylesheet,
        modes,
        since,
        kept,
        &mut choosing,
        choices,
    );
    drop(choosing);
    added
}

fn add_from<'a>(
    alloc: Global,
    stylesheet: &Stylesheet,
    modes: &Modes,
    since: &Since,
    kept: &Pool,
    choosing: &mut Choosing<'a>,
    choices: &mut OwnChoices,
) -> Result<(), Memory>
    ensures { (parameters : Parameters) (document : Document ℕ) → asked_of choosing.old ≡ asked_in stylesheet.now document
        → AllDecide stylesheet.now (truth_in stylesheet.now parameters document) (owns_of choices.old)
        → OnOk result (AllDecide stylesheet.now (truth_in stylesheet.now parameters document) (owns_of choices.new)) }
{
    for turn in 0..kept.count() {
        let events = kept.record_at(turn).ran.events.as_slice();
        add_of_events(alloc, stylesheet, modes, since, events, choosing, choices)?;
    }
    Ok(())
}

fn add_of_events<'a>(
    alloc: Global,
    stylesheet: &Stylesheet,
    modes: &Modes,
    since: &Since,
    events: &[Event],
    choosing: &mut Choosing<'a>,
    choices: &mut OwnChoices,
) -> Result<(), Memory>
    ensures decided { (parameters : Parameters) (document : Document ℕ) → asked_of choosing.old ≡ asked_in stylesheet.now document
        → AllDecide stylesheet.now (truth_in stylesheet.now parameters document) (owns_of choices.old)
        → OnOk result (AllDecide stylesheet.now (truth_in stylesheet.now parameters document) (owns_of choices.new)) }
    ensures same { asked_of choosing.new ≡ asked_of choosing.old }
{
    for event in events {
        add_of_event(alloc, stylesheet, modes, since, event, choosing, choices)?;
    }
    Ok(())
}

fn add_of_event<'a>(
    alloc: Global,
    stylesheet: &Stylesheet,
    modes: &Modes,
    since: &Since,
    event: &Event,
    choosing: &mut Choosing<'a>,
    choices: &mut OwnChoices,
) -> Result<(), Memory>
    ensures decided { (parameters : Parameters) (document : Document ℕ) → asked_of choosing.old ≡ asked_in stylesheet.now document
        → AllDecide stylesheet.now (truth_in stylesheet.now parameters document) (owns_of choices.old)
        → OnOk result (AllDecide stylesheet.now (truth_in stylesheet.now parameters document) (owns_of choices.new)) }
    ensures same { asked_of choosing.new ≡ asked_of choosing.old }
{
    match event {
        Event::Asked(question, _) => {
            add_if_wanted(alloc, stylesheet, modes, since, question, choosing, choices)
        }
        _ => Ok(()),
    }
}

fn add_if_wanted<'a>(
    alloc: Global,
    stylesheet: &Stylesheet,
    modes: &Modes,
    since: &Since,
    question: &Question,
    choosing: &mut Choosing<'a>,
    choices: &mut OwnChoices,
) -> Result<(), Memory>
    ensures decided { (parameters : Parameters) (document : Document ℕ) → asked_of choosing.old ≡ asked_in stylesheet.now document
        → AllDecide stylesheet.now (truth_in stylesheet.now parameters document) (owns_of choices.old)
        → OnOk result (AllDecide stylesheet.now (truth_in stylesheet.now parameters document) (owns_of choices.new)) }
    ensures same { asked_of choosing.new ≡ asked_of choosing.old }
{
    if !is_wanted(modes, since, question) {
        return Ok(());
    }
    add_once(alloc, stylesheet, question, choosing, choices)
}

// Whether it is a choice that a change marks, in none of these modes.
fn is_wanted(modes: &Modes, since: &Since, question: &Question) -> bool {
    match question {
        Question::Choice(_, mode, _) => !modes.has(mode) && since.marks(question),
        _ => false,
    }
}

// Adds the choice as it is made now, unless it is there already.
fn add_once<'a>(
    alloc: Global,
    stylesheet: &Stylesheet,
    question: &Question,
    choosing: &mut Choosing<'a>,
    choices: &mut OwnChoices,
) -> Result<(), Memory>
    ensures decided { (parameters : Parameters) (document : Document ℕ) → asked_of choosing.old ≡ asked_in stylesheet.now document
        → AllDecide stylesheet.now (truth_in stylesheet.now parameters document) (owns_of choices.old)
        → OnOk result (AllDecide stylesheet.now (truth_in stylesheet.now parameters document) (owns_of choices.new)) }
    ensures same { asked_of choosing.new ≡ asked_of choosing.old }
{
    if choices.find(question).is_some() {
        return Ok(());
    }
    match made(alloc, stylesheet, question, choosing)? {
        None => Ok(()),
        Some(own) => choices.add(own),
    }
}
