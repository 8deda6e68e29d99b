// What globals came to before their turns.
ghost use Rattle.std.specs.Prelude.{◌≡◌, ◌++◌, ◌&&◌, ◌∷◌, ◌≤◌, [], IfOk, IfSome, OnOk, Some, map, nat_le, true};
ghost use Rattle.std.specs.List.{list_any};
ghost use Rattle.spec_document.specs.Name.{same_name};
ghost use Rattle.xt_tree.specs.StreamView.{stream_of};
ghost use Rattle.xt_engine.specs.View.{named_of};
ghost use Rattle.xt_driver.specs.Remembered.{Forgets, IsAside};
ghost use Rattle.xt_driver.specs.Referring.{entry_of, entries_of, no_global, remembered_as, has_name, IsRecalled, Recalls};
ghost use Rattle.xt_driver.specs.Turning.{IsTurnedAs, RecallsTurn};
ghost use Rattle.xt_driver.specs.Counted.{IsFrom, IsOfTurn};

use crate::outcome::Held;
use std::alloc::Global;
use std::mem;
use std::rc::Rc;
use xt_engine::{Entered, NamedGlobal};
use xt_names::{Expanded, copy_name};
use xt_questions::copy_value;
use xt_text::{Memory, Text};
use xt_tree::{Items, NodeRef, Value};

/// A global that was evaluated before its turn.
#[derive(Drop)]
pub struct Remembered {
    pub name: Expanded,
    /// Its element, where there is a global of this name.
    pub element: Option<NodeRef>,
    /// With how many levels left it comes to its value.
    pub levels: u64,
    pub value: Value,
    /// What its content writes, with its messages.
    pub content: Rc<Items>,
}

/// What is remembered of globals.
#[derive(Drop)]
pub struct Memo {
    pub entries: Vec<Remembered>,
}

/// What a reference to a global gives.
#[derive(Drop)]
pub struct Referred {
    pub entered: Entered,
    /// It gives the same with so many levels fewer, where it gives a value.
    pub spare: u64,
}

/// What a global comes to at its turn: what it holds, and what its content writes.
#[derive(Drop)]
pub struct Turned {
    pub held: Held,
    pub content: Rc<Items>,
}

/// A memory of nothing.
pub fn nothing_remembered(alloc: Global) -> Memo
    ensures { entries_of result ≡ [] }
{
    Memo {
        entries: Vec::new(alloc),
    }
}

// Whether it is the global of this name, and comes to its value with so many levels.
fn is_known(entry: &Remembered, name: &Expanded, levels: u64) -> bool
    ensures { result ≡ (nat_le entry.now.levels levels && same_name entry.now.name name.now) }
{
    entry.levels <= levels && entry.name.same(name)
}

// The value that is remembered, on the heap.
fn recalled(alloc: Global, entry: &Remembered, levels: u64) -> Result<Box<Referred>, Memory>
    ensures { IfOk result (λ r. IsRecalled r.value (entry_of entry.now) levels) }
{
    let value = copy_value(alloc, &entry.value)?;
    let spare = levels.saturating_sub(entry.levels);
    let entered = Entered::Value(value);
    Ok(Box::new(alloc, Referred { entered, spare })?)
}

/// What a reference to the global of this name gives, where that is remembered and takes no more than so many levels.
pub fn recall(
    alloc: Global,
    entries: &[Remembered],
    name: &Expanded,
    levels: u64,
) -> Result<Option<Box<Referred>>, Memory>
    ensures recalls { IfOk result (λ r. Recalls r name.now levels (map entry_of entries.now)) }
    ensures found { IfOk result (λ r. IfSome r (λ x. IsFrom x.value name.now (map entry_of entries.now))) }
{
    for entry in entries {
        if is_known(entry, name, levels) {
            let referred = recalled(alloc, entry, levels)?;
            return Ok(Some(referred));
        }
    }
    Ok(None)
}

// Whether it is the global of this element.
fn is_of(entry: &Remembered, element: NodeRef) -> bool
    ensures { result ≡ true → entry.now.element ≡ Some element }
{
    match entry.element {
        Some(other) => other == element,
        None => false,
    }
}

// What is remembered, as it is at its turn.
fn as_at_turn(alloc: Global, entry: &Remembered) -> Result<Turned, Memory>
    ensures { IfOk result (λ t. IsTurnedAs t (entry_of entry.now)) }
{
    let content = entry.content.clone()?;
    let held = Held::Value(copy_value(alloc, &entry.value)?);
    Ok(Turned { held, content })
}

/// What the global comes to at its turn with so many levels, where that is remembered.
pub fn recall_turn(
    alloc: Global,
    entries: &[Remembered],
    global: &NamedGlobal,
    levels: u64,
) -> Result<Option<Turned>, Memory>
    ensures recalls { IfOk result (λ t. RecallsTurn t (named_of global.now) levels (map entry_of entries.now)) }
    ensures found { IfOk result (λ t. IfSome t (λ x. IsOfTurn x global.now.element (map entry_of entries.now))) }
{
    for entry in entries {
        if is_known(entry, &global.name, levels) {
            if is_of(entry, global.element) {
                let turned = as_at_turn(alloc, entry)?;
                return Ok(Some(turned));
            }
        }
    }
    Ok(None)
}

// Whether a global of this name is remembered.
fn is_remembered(entries: &[Remembered], name: &Expanded) -> bool
    ensures { result ≡ list_any (has_name name.now) entries.now }
{
    for entry in entries {
        if entry.name.same(name) {
            return true;
        }
    }
    false
}

/// Takes out all that is remembered, where a global of this name is among it. It is evaluated anew then, and what was
/// remembered before that comes back behind what is remembered then.
pub fn set_aside(alloc: Global, memo: &mut Memo, name: &Expanded) -> Vec<Remembered>
    ensures { IsAside name.now (map entry_of result.items) (entries_of memo.old) (entries_of memo.new) }
{
    if is_remembered(memo.entries.as_slice(), name) {
        return mem::replace(&mut memo.entries, Vec::new(alloc));
    }
    Vec::new(alloc)
}

/// Forgets all, where a global of this name is among it.
pub fn forget(alloc: Global, memo: &mut Memo, name: &Expanded)
    ensures { Forgets name.now (entries_of memo.old) (entries_of memo.new) }
{
    let _ = set_aside(alloc, memo, name);
}

/// Puts back what was set aside.
pub fn put_back(memo: &mut Memo, mut aside: Vec<Remembered>) -> Result<(), Memory>
    ensures { OnOk result (entries_of memo.new ≡ entries_of memo.old ++ map entry_of aside.items) }
{
    memo.entries.append(&mut aside)?;
    Ok(())
}

/// Remembers what is given for a global, if it is a value.
pub fn remember(
    alloc: Global,
    memo: &mut Memo,
    name: Expanded,
    element: NodeRef,
    levels: u64,
    content: Rc<Items>,
    given: &Entered,
) -> Result<(), Memory>
    ensures { OnOk result (entries_of memo.new ≡ entries_of memo.old ++ remembered_as name element levels (stream_of content.value) given.now) }
{
    match given {
        Entered::Value(value) => {
            let value = copy_value(alloc, value)?;
            let entry = Remembered {
                name,
                element: Some(element),
                levels,
                value,
                content,
            };
            memo.entries.push(entry)?;
            Ok(())
        }
        _ => Ok(()),
    }
}

/// Remembers that there is no global of this name: it is the empty text.
pub fn remember_none(alloc: Global, memo: &mut Memo, name: &Expanded) -> Result<(), Memory>
    ensures { OnOk result (entries_of memo.new ≡ entries_of memo.old ++ no_global name.now ∷ []) }
{
    let content = Rc::new(alloc, Items::new(alloc))?;
    let name = copy_name(alloc, name)?;
    let entry = Remembered {
        name,
        element: None,
        levels: 0,
        value: Value::Text(Text::new(alloc)),
        content,
    };
    memo.entries.push(entry)?;
    Ok(())
}
