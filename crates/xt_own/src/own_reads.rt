// What was asked for choices and keys: what of it is spared before a run, and what is kept after it.
ghost use Rattle.std.specs.Prelude.{◌≡◌, true, false, [], Ok, IfOk, OnOk};
ghost use Rattle.spec_run.specs.Documents.{Parameters};
ghost use Rattle.xt_touch.specs.View.{keep_sheet, since_of};
ghost use Rattle.xt_spared.specs.View.{Agrees, Ask, Spares, owns_in, owns_of};
ghost use Rattle.xt_world.specs.SourceView.{AreFound};
ghost use Rattle.xt_world.specs.View.{truth_in};
ghost use Rattle.xt_own.specs.Keys.{AllKeys, AreAfter};
ghost use Rattle.xt_own.specs.View.{AllDecide, Carries, CarriesChoices, OwnDecides};

use crate::gathering::gather_choices;
use crate::moved::choices_made_now;
use crate::own_key::{OwnKey, own_key};
use crate::stay::{KeysAfter, keys_that_stay, no_keys};
use std::alloc::Global;
use xt_names::Expanded;
use xt_record::Pool;
use xt_spared::{OwnChoices, Spared};
use xt_syntax::Declared;
use xt_text::Memory;
use xt_touch::{Modes, Since};
use xt_tree::Doc;
use xt_world::{FoundKeys, Stylesheet};

/// What was asked, after a run, for each choice and each key that it asked.
#[derive(Drop)]
pub struct OwnReads {
    pub(crate) choices: OwnChoices,
    pub(crate) keys: Vec<OwnKey>,
    // Whether they are those of a run, whose questions a world answered.
    pub(crate) gathered: bool,
}

/// What need not be asked again by the next run, and what is known of the keys that stay.
#[derive(Drop)]
pub struct Prepared<'a> {
    pub spared: Spared<'a>,
    pub(crate) keys: Vec<OwnKey>,
}

impl OwnReads {
    ghost use Rattle.spec_run.specs.Documents.{Parameters};
    ghost use Rattle.xt_spared.specs.View.{Agrees, Ask, Spares};
    ghost use Rattle.xt_world.specs.declared.stylesheet.Stylesheet.{Stylesheet};

    /// Nothing. Takes no memory.
    pub fn none(alloc: Global) -> OwnReads
        ensures { (s : Stylesheet) (was : Ask) → OwnDecides s was result }
    {
        OwnReads {
            choices: OwnChoices::new(alloc),
            keys: Vec::new(alloc),
            gathered: false,
        }
    }

    /// What need not be asked again after these changes since the run that kept these records: nothing but what they do not
    /// mark, where one of them is no change of the source and gives no parameter. After a move choices of which nothing is
    /// known are made once more. Beside it stand the indexes of keys of which some values may be others: the world of the run
    /// need not find these nodes by patterns.
    pub fn prepare<'a>(
        &'a self,
        alloc: Global,
        since: &'a Since,
        document: &Doc,
        stylesheet: &Stylesheet,
        last: &Pool,
    ) -> Result<(Prepared<'a>, Vec<FoundKeys>), Memory>
        ensures spares { (was : Ask) (parameters : Parameters) → (keep_sheet (since_of since.now) ≡ true → OwnDecides stylesheet.now was self.now)
            → Agrees was (truth_in stylesheet.now parameters document.now) (since_of since.now)
            → IfOk result (λ p. Spares was (truth_in stylesheet.now parameters document.now) p.0.spared × Carries stylesheet.now (truth_in stylesheet.now parameters document.now) p.0) }
        ensures found { (was : Ask) (parameters : Parameters) → (keep_sheet (since_of since.now) ≡ true → OwnDecides stylesheet.now was self.now)
            → Agrees was (truth_in stylesheet.now parameters document.now) (since_of since.now) → IfOk result (λ p. AreFound stylesheet.now document.now p.1.items) }
        ensures since { IfOk result (λ p. p.0.spared.since.now ≡ since.now) }
    {
        if !since.keeps_stylesheet() {
            return Ok((nothing_kept(alloc, since), Vec::new(alloc)));
        }
        let made_now = made_after(alloc, self.gathered, since, document, stylesheet, last)?;
        let Ok(after) = keys_after(alloc, self.keys.as_slice(), since, document, stylesheet) else {
            drop(made_now);
            return Err(Memory);
        };
        Ok(with_keys(since, &self.choices, after, made_now))
    }
}

// Nothing is spared but what need not be asked after the changes.
fn nothing_kept<'a>(alloc: Global, since: &'a Since) -> Prepared<'a>
    ensures since { result.spared.since.now ≡ since.now }
    ensures names { result.spared.keys.items ≡ [] }
    ensures choices { owns_in result.spared.choices ≡ [] }
    ensures made_now { owns_of result.spared.made_now ≡ [] }
    ensures keys { result.keys.items ≡ [] }
{
    Prepared {
        spared: Spared::new(since, Vec::new(alloc), None, OwnChoices::new(alloc)),
        keys: Vec::new(alloc),
    }
}

// The keys that stay. None does where a node was moved.
fn keys_after(
    alloc: Global,
    keys: &[OwnKey],
    since: &Since,
    document: &Doc,
    stylesheet: &Stylesheet,
) -> Result<KeysAfter, Memory>
    ensures { (was : Ask) (parameters : Parameters) → AllKeys stylesheet.now was keys.now → Agrees was (truth_in stylesheet.now parameters document.now) (since_of since.now)
        → IfOk result (AreAfter stylesheet.now was parameters document.now) }
{
    if keys.is_empty() || since.moves() {
        return Ok(no_keys(alloc));
    }
    keys_that_stay(alloc, keys, since, document, stylesheet)
}

// The choices that are made once more, as far as these changes mark them: none but where a node was moved. Where nothing was
// gathered, it is not known that a world answered what these records asked.
fn made_after(
    alloc: Global,
    gathered: bool,
    since: &Since,
    document: &Doc,
    stylesheet: &Stylesheet,
    last: &Pool,
) -> Result<OwnChoices, Memory>
    ensures decided { (parameters : Parameters) → IfOk result (λ choices. AllDecide stylesheet.now (truth_in stylesheet.now parameters document.now) (owns_of choices)) }
    ensures none { gathered ≡ false → IfOk result (λ choices. owns_of choices ≡ []) }
{
    if !gathered {
        return Ok(OwnChoices::new(alloc));
    }
    if !since.moves() {
        return Ok(OwnChoices::new(alloc));
    }
    choices_made_now(alloc, document, stylesheet, since, last)
}

// With these keys that stay, and all choices.
fn with_keys<'a>(
    since: &'a Since,
    choices: &'a OwnChoices,
    after: KeysAfter,
    made_now: OwnChoices,
) -> (Prepared<'a>, Vec<FoundKeys>)
    ensures since { result.0.spared.since.now ≡ since.now }
    ensures stay { result.0.spared.keys.items ≡ after.stay.items }
    ensures choices { owns_in result.0.spared.choices ≡ owns_of choices.now }
    ensures made_now { owns_of result.0.spared.made_now ≡ owns_of made_now }
    ensures keys { result.0.keys.items ≡ after.keys.items }
    ensures found { result.1.items ≡ after.found.items }
{
    let KeysAfter { stay, keys, found } = after;
    let spared = Spared::new(since, stay, Some(choices), made_now);
    (Prepared { spared, keys }, found)
}

impl<'a> Prepared<'a> {
    ghost use Rattle.spec_run.specs.Documents.{Parameters};

    /// What was asked for each choice and each key that a run asked, by what it kept. Choices of which each question that was
    /// asked for them is spared are taken over, and so are keys that stay; all others are asked once more.
    pub fn gather(
        self,
        alloc: Global,
        document: &Doc,
        stylesheet: &Stylesheet,
        kept: &Pool,
    ) -> Result<OwnReads, Memory>
        ensures { (parameters : Parameters) → Carries stylesheet.now (truth_in stylesheet.now parameters document.now) self.entry
            → IfOk result (OwnDecides stylesheet.now (truth_in stylesheet.now parameters document.now)) }
    {
        let Prepared { spared, keys } = self;
        let mut names = Vec::new(alloc);
        let gathered = choices_asked(alloc, document, stylesheet, &spared, kept, &mut names);
        drop(spared);
        let keys = with_named(alloc, document, stylesheet, names.as_slice(), keys);
        drop(names);
        joined(gathered, keys)
    }
}

// Both, where memory held out for both.
fn joined(
    choices: Result<OwnChoices, Memory>,
    keys: Result<Vec<OwnKey>, Memory>,
) -> Result<OwnReads, Memory>
    ensures choices { IfOk result (λ own. choices ≡ Ok own.choices) }
    ensures keys { IfOk result (λ own. keys ≡ Ok own.keys) }
{
    match keys {
        Err(_) => {
            drop(choices);
            Err(Memory)
        }
        Ok(keys) => match choices {
            Err(_) => {
                drop(keys);
                Err(Memory)
            }
            Ok(choices) => Ok(OwnReads {
                choices,
                keys,
                gathered: true,
            }),
        },
    }
}

// The choices in modes that ask more than names, each with what was asked for it. The names of the keys that were asked are
// noted. Where there are no such modes and no keys, no record is looked at.
fn choices_asked<'a>(
    alloc: Global,
    document: &Doc,
    stylesheet: &Stylesheet,
    spared: &Spared<'a>,
    kept: &Pool,
    names: &mut Vec<Expanded>,
) -> Result<OwnChoices, Memory>
    ensures { (parameters : Parameters) → CarriesChoices stylesheet.now (truth_in stylesheet.now parameters document.now) spared.now
        → IfOk result (λ choices. AllDecide stylesheet.now (truth_in stylesheet.now parameters document.now) (owns_of choices)) }
{
    let modes = Modes::asking(alloc, stylesheet.rules.rules.as_slice())?;
    let mut choices = OwnChoices::new(alloc);
    if modes.is_empty() && !has_keys(stylesheet) {
        drop(modes);
        return Ok(choices);
    }
    let gathered = gather_choices(
        alloc,
        document,
        stylesheet,
        &modes,
        spared,
        kept,
        &mut choices,
        names,
    );
    drop(modes);
    match gathered {
        Ok(()) => Ok(choices),
        Err(_) => {
            drop(choices);
            Err(Memory)
        }
    }
}

fn has_keys(stylesheet: &Stylesheet) -> bool {
    for resolved in &stylesheet.units {
        if let Declared::Key(_) = &resolved.unit.declared {
            return true;
        }
    }
    false
}

// These keys, and those of the other names, as far as they can be told by what they ask.
fn with_named(
    alloc: Global,
    document: &Doc,
    stylesheet: &Stylesheet,
    names: &[Expanded],
    keys: Vec<OwnKey>,
) -> Result<Vec<OwnKey>, Memory>
    ensures { (parameters : Parameters) → AllKeys stylesheet.now (truth_in stylesheet.now parameters document.now) keys.items
        → IfOk result (λ ks. AllKeys stylesheet.now (truth_in stylesheet.now parameters document.now) ks.items) }
{
    let mut keys = keys;
    match add_named(alloc, document, stylesheet, names, &mut keys) {
        Ok(()) => Ok(keys),
        Err(_) => {
            drop(keys);
            Err(Memory)
        }
    }
}

fn add_named(
    alloc: Global,
    document: &Doc,
    stylesheet: &Stylesheet,
    names: &[Expanded],
    keys: &mut Vec<OwnKey>,
) -> Result<(), Memory>
    ensures { (parameters : Parameters) → AllKeys stylesheet.now (truth_in stylesheet.now parameters document.now) keys.old.items
        → OnOk result (AllKeys stylesheet.now (truth_in stylesheet.now parameters document.now) keys.new.items) }
{
    for name in names {
        add_key(alloc, document, stylesheet, name, keys)?;
    }
    Ok(())
}

// Adds the key of this name, unless it is there already.
fn add_key(
    alloc: Global,
    document: &Doc,
    stylesheet: &Stylesheet,
    name: &Expanded,
    keys: &mut Vec<OwnKey>,
) -> Result<(), Memory>
    ensures { (parameters : Parameters) → AllKeys stylesheet.now (truth_in stylesheet.now parameters document.now) keys.old.items
        → OnOk result (AllKeys stylesheet.now (truth_in stylesheet.now parameters document.now) keys.new.items) }
{
    if is_kept(keys.as_slice(), name) {
        return Ok(());
    }
    match own_key(alloc, document, stylesheet, name)? {
        None => Ok(()),
        Some(key) => {
            keys.push(key)?;
            Ok(())
        }
    }
}

fn is_kept(keys: &[OwnKey], name: &Expanded) -> bool {
    for key in keys {
        if key.name.same(name) {
            return true;
        }
    }
    false
}
