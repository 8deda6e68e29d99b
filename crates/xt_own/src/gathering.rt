// What was asked for the choices that the records of a run asked.
ghost use Rattle.std.specs.Prelude.{◌≡◌, ◌++◌, ◌∷◌, [], ℕ, IfOk, IfSome, OnOk};
ghost use Rattle.std.specs.Option.{option_map};
ghost use Rattle.spec_document.specs.Forest.{Document};
ghost use Rattle.spec_run.specs.Documents.{Parameters};
ghost use Rattle.xt_spared.specs.View.{own_of, owns_of};
ghost use Rattle.xt_world.specs.View.{truth_in};
ghost use Rattle.xt_own.specs.Asking.{asked_in, asked_of};
ghost use Rattle.xt_own.specs.View.{AllDecide, CarriesChoices, IsDecided};

use crate::choices::own_choice;
use crate::choosing::Choosing;
use std::alloc::Global;
use std::rc::Rc;
use xt_engine::Event;
use xt_names::{Expanded, copy_name};
use xt_questions::Question;
use xt_record::Pool;
use xt_spared::{OwnChoice, OwnChoices, Spared};
use xt_text::Memory;
use xt_touch::Modes;
use xt_tree::Doc;
use xt_world::Stylesheet;

/// Adds what was asked for each choice in these modes that the records asked, and notes the names of the keys that they
/// asked. Keys of the source are found once for all of them.
pub(crate) fn gather_choices<'a>(
    alloc: Global,
    document: &Doc,
    stylesheet: &Stylesheet,
    modes: &Modes,
    spared: &Spared<'a>,
    kept: &Pool,
    choices: &mut OwnChoices,
    names: &mut Vec<Expanded>,
) -> Result<(), Memory>
    ensures { (parameters : Parameters) → CarriesChoices stylesheet.now (truth_in stylesheet.now parameters document.now) spared.now
        → AllDecide stylesheet.now (truth_in stylesheet.now parameters document.now) (owns_of choices.old)
        → OnOk result (AllDecide stylesheet.now (truth_in stylesheet.now parameters document.now) (owns_of choices.new)) }
{
    let mut choosing = Choosing::new(alloc, document, stylesheet);
    let gathered = gather_from(
        alloc,
        stylesheet,
        modes,
        spared,
        kept,
        &mut choosing,
        choices,
        names,
    );
    drop(choosing);
    gathered
}

fn gather_from<'a, 'b>(
    alloc: Global,
    stylesheet: &Stylesheet,
    modes: &Modes,
    spared: &Spared<'a>,
    kept: &Pool,
    choosing: &mut Choosing<'b>,
    choices: &mut OwnChoices,
    names: &mut Vec<Expanded>,
) -> Result<(), Memory>
    ensures { (parameters : Parameters) (document : Document ℕ) → asked_of choosing.old ≡ asked_in stylesheet.now document
        → CarriesChoices stylesheet.now (truth_in stylesheet.now parameters document) spared.now
        → AllDecide stylesheet.now (truth_in stylesheet.now parameters document) (owns_of choices.old)
        → OnOk result (AllDecide stylesheet.now (truth_in stylesheet.now parameters document) (owns_of choices.new)) }
{
    for turn in 0..kept.count() {
        let events = kept.record_at(turn).ran.events.as_slice();
        gather_events(
            alloc, stylesheet, modes, spared, events, choosing, choices, names,
        )?;
    }
    Ok(())
}

fn gather_events<'a, 'b>(
    alloc: Global,
    stylesheet: &Stylesheet,
    modes: &Modes,
    spared: &Spared<'a>,
    events: &[Event],
    choosing: &mut Choosing<'b>,
    choices: &mut OwnChoices,
    names: &mut Vec<Expanded>,
) -> Result<(), Memory>
    ensures decided { (parameters : Parameters) (document : Document ℕ) → asked_of choosing.old ≡ asked_in stylesheet.now document
        → CarriesChoices stylesheet.now (truth_in stylesheet.now parameters document) spared.now
        → AllDecide stylesheet.now (truth_in stylesheet.now parameters document) (owns_of choices.old)
        → OnOk result (AllDecide stylesheet.now (truth_in stylesheet.now parameters document) (owns_of choices.new)) }
    ensures same { asked_of choosing.new ≡ asked_of choosing.old }
{
    for event in events {
        gather_event(
            alloc, stylesheet, modes, spared, event, choosing, choices, names,
        )?;
    }
    Ok(())
}

fn gather_event<'a, 'b>(
    alloc: Global,
    stylesheet: &Stylesheet,
    modes: &Modes,
    spared: &Spared<'a>,
    event: &Event,
    choosing: &mut Choosing<'b>,
    choices: &mut OwnChoices,
    names: &mut Vec<Expanded>,
) -> Result<(), Memory>
    ensures decided { (parameters : Parameters) (document : Document ℕ) → asked_of choosing.old ≡ asked_in stylesheet.now document
        → CarriesChoices stylesheet.now (truth_in stylesheet.now parameters document) spared.now
        → AllDecide stylesheet.now (truth_in stylesheet.now parameters document) (owns_of choices.old)
        → OnOk result (AllDecide stylesheet.now (truth_in stylesheet.now parameters document) (owns_of choices.new)) }
    ensures same { asked_of choosing.new ≡ asked_of choosing.old }
{
    match event {
        Event::Asked(question, _) => gather_question(
            alloc, stylesheet, modes, spared, question, choosing, choices, names,
        ),
        _ => Ok(()),
    }
}

fn gather_question<'a, 'b>(
    alloc: Global,
    stylesheet: &Stylesheet,
    modes: &Modes,
    spared: &Spared<'a>,
    question: &Question,
    choosing: &mut Choosing<'b>,
    choices: &mut OwnChoices,
    names: &mut Vec<Expanded>,
) -> Result<(), Memory>
    ensures decided { (parameters : Parameters) (document : Document ℕ) → asked_of choosing.old ≡ asked_in stylesheet.now document
        → CarriesChoices stylesheet.now (truth_in stylesheet.now parameters document) spared.now
        → AllDecide stylesheet.now (truth_in stylesheet.now parameters document) (owns_of choices.old)
        → OnOk result (AllDecide stylesheet.now (truth_in stylesheet.now parameters document) (owns_of choices.new)) }
    ensures same { asked_of choosing.new ≡ asked_of choosing.old }
{
    note_key(alloc, names, question)?;
    if !is_choice_in(modes, question) {
        return Ok(());
    }
    gather_choice(
        alloc, stylesheet, spared, question, choosing, choices, names,
    )
}

// Whether it is the choice of a rule in one of these modes.
fn is_choice_in(modes: &Modes, question: &Question) -> bool {
    match question {
        Question::Choice(_, mode, _) => modes.has(mode),
        _ => false,
    }
}

// Adds the choice, unless it is there already, and the names of the keys that are asked for it.
fn gather_choice<'a, 'b>(
    alloc: Global,
    stylesheet: &Stylesheet,
    spared: &Spared<'a>,
    question: &Question,
    choosing: &mut Choosing<'b>,
    choices: &mut OwnChoices,
    names: &mut Vec<Expanded>,
) -> Result<(), Memory>
    ensures decided { (parameters : Parameters) (document : Document ℕ) → asked_of choosing.old ≡ asked_in stylesheet.now document
        → CarriesChoices stylesheet.now (truth_in stylesheet.now parameters document) spared.now
        → AllDecide stylesheet.now (truth_in stylesheet.now parameters document) (owns_of choices.old)
        → OnOk result (AllDecide stylesheet.now (truth_in stylesheet.now parameters document) (owns_of choices.new)) }
    ensures same { asked_of choosing.new ≡ asked_of choosing.old }
{
    if choices.find(question).is_some() {
        return Ok(());
    }
    match carried_or_made(alloc, stylesheet, spared, question, choosing)? {
        None => Ok(()),
        Some(own) => add_choice(alloc, own, choices, names),
    }
}

fn add_choice(
    alloc: Global,
    own: Rc<OwnChoice>,
    choices: &mut OwnChoices,
    names: &mut Vec<Expanded>,
) -> Result<(), Memory>
    ensures { OnOk result (owns_of choices.new ≡ owns_of choices.old ++ own_of own.value ∷ []) }
{
    let noted = note_names(alloc, names, own.reads.as_slice());
    choices.add(own)?;
    noted
}

// The choice as it was found before, where each question that was asked for it stays; else it is made once more.
fn carried_or_made<'a, 'b>(
    alloc: Global,
    stylesheet: &Stylesheet,
    spared: &Spared<'a>,
    question: &Question,
    choosing: &mut Choosing<'b>,
) -> Result<Option<Rc<OwnChoice>>, Memory>
    ensures decided { (parameters : Parameters) (document : Document ℕ) → asked_of choosing.old ≡ asked_in stylesheet.now document
        → CarriesChoices stylesheet.now (truth_in stylesheet.now parameters document) spared.now
        → IfOk result (λ o. IfSome o (λ own. IsDecided stylesheet.now (truth_in stylesheet.now parameters document) (own_of own.value))) }
    ensures same { asked_of choosing.new ≡ asked_of choosing.old }
{
    match spared.own_choice(question) {
        Some(own) => carried(own),
        None => made(alloc, stylesheet, question, choosing),
    }
}

fn carried(own: &Rc<OwnChoice>) -> Result<Option<Rc<OwnChoice>>, Memory>
    ensures { IfOk result (λ o. IfSome o (λ shared. shared.value ≡ own.now.value)) }
{
    Ok(Some(own.clone()?))
}

/// The choice, made once more in this source, with what is asked for it.
pub(crate) fn made<'b>(
    alloc: Global,
    stylesheet: &Stylesheet,
    question: &Question,
    choosing: &mut Choosing<'b>,
) -> Result<Option<Rc<OwnChoice>>, Memory>
    ensures decided { (parameters : Parameters) (document : Document ℕ) → asked_of choosing.old ≡ asked_in stylesheet.now document
        → IfOk result (λ o. IfSome o (λ own. IsDecided stylesheet.now (truth_in stylesheet.now parameters document) (own_of own.value))) }
    ensures same { asked_of choosing.new ≡ asked_of choosing.old }
{
    match question {
        Question::Choice(node, mode, candidates) => {
            shared(
                alloc,
                own_choice(alloc, stylesheet, *node, mode, *candidates, choosing)?,
            )
        }
        _ => Ok(None),
    }
}

fn shared(alloc: Global, own: Option<OwnChoice>) -> Result<Option<Rc<OwnChoice>>, Memory>
    ensures { IfOk result (λ o. option_map (λ shared. shared.value) o ≡ own) }
{
    match own {
        None => Ok(None),
        Some(own) => Ok(Some(Rc::new(alloc, own)?)),
    }
}

fn note_names(
    alloc: Global,
    names: &mut Vec<Expanded>,
    questions: &[Question],
) -> Result<(), Memory> {
    for question in questions {
        note_key(alloc, names, question)?;
    }
    Ok(())
}

// Adds the name, where it is asked of keys.
fn note_key(alloc: Global, names: &mut Vec<Expanded>, question: &Question) -> Result<(), Memory> {
    match question {
        Question::Key(name, _) => note_name(alloc, names, name),
        _ => Ok(()),
    }
}

// Adds the name, unless it is there already.
fn note_name(alloc: Global, names: &mut Vec<Expanded>, name: &Expanded) -> Result<(), Memory> {
    if is_named(names.as_slice(), name) {
        return Ok(());
    }
    names.push(copy_name(alloc, name)?)?;
    Ok(())
}

fn is_named(names: &[Expanded], name: &Expanded) -> bool {
    for other in names {
        if other.same(name) {
            return true;
        }
    }
    false
}
