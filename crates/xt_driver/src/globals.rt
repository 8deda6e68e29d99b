// Globals, and what a reference to one gives.
ghost use Rattle.std.specs.Prelude.{◌≡◌, ◌∷◌, ◌++◌, [], IfOk, OnOk, map};
ghost use Rattle.std.specs.List.{list_any};
ghost use Rattle.std.specs.Option.{option_map};
ghost use Rattle.spec_document.specs.Name.{same_name};
ghost use Rattle.spec_run.specs.Meaning.{element_named, global_call};
ghost use Rattle.xt_syntax.specs.PartView.{place_of};
ghost use Rattle.xt_tree.specs.ValueView.{value_of};
ghost use Rattle.xt_engine.specs.View.{call_of, named_of};
ghost use Rattle.xt_driver.specs.View.{held_of};
ghost use Rattle.xt_driver.specs.Remembered.{first_named, IsAside};
ghost use Rattle.xt_driver.specs.Referring.{entry_of, entries_of, no_global, IsGivenAs, IsGivenAt, Refers};
ghost use Rattle.xt_driver.specs.Counted.{CountsLooked};

use crate::calls::global_call;
use crate::level::Needed;
use crate::memo::{Memo, Referred, Remembered, recall, remember_none, set_aside};
use std::alloc::Global;
use xt_engine::{Call, Entered, NamedGlobal};
use xt_names::{Expanded, copy_name};
use xt_questions::{copy_place, copy_value};
use xt_text::{Memory, Text};
use xt_tree::{NodeRef, Value};

/// A global whose turn is past, with its value.
#[derive(Drop)]
pub struct HeldGlobal {
    pub name: Expanded,
    pub value: Value,
}

/// What references to globals look at.
#[derive(Clone, Copy)]
pub struct Globals<'a> {
    /// The root of the source, which is the only context of a global.
    pub root: NodeRef,
    /// All that count, in stylesheet order.
    pub named: &'a [NamedGlobal],
    /// Those whose turn is past.
    pub held: &'a [HeldGlobal],
    /// The names of those that are being evaluated.
    pub under_way: &'a [Expanded],
}

/// What a reference to a global needs.
#[derive(Drop)]
pub enum Reference {
    /// Nothing: this is what it gives.
    Given(Box<Referred>),
    /// The global of this element is to be evaluated.
    Evaluated(NodeRef),
}

/// The evaluation of a global that a reference needs.
#[derive(Drop)]
pub struct Evaluation {
    pub name: Expanded,
    pub element: NodeRef,
    /// The names of all that are being evaluated then.
    pub under_way: Vec<Expanded>,
    pub call: Call,
    /// What is remembered and does not hold there.
    pub aside: Vec<Remembered>,
}

// The value of a global whose turn is past.
fn value_of_past(
    alloc: Global,
    held: &[HeldGlobal],
    name: &Expanded,
) -> Result<Option<Value>, Memory>
    ensures { IfOk result (λ v. option_map value_of v ≡ first_named name.now (map held_of held.now)) }
{
    for global in held {
        if global.name.same(name) {
            return Ok(Some(copy_value(alloc, &global.value)?));
        }
    }
    Ok(None)
}

// Whether a global of this name is being evaluated.
fn is_under_way(names: &[Expanded], name: &Expanded) -> bool
    ensures { result ≡ list_any (same_name name.now) names.now }
{
    for other in names {
        if name.same(other) {
            return true;
        }
    }
    false
}

// The element of the global of this name.
fn element_of(named: &[NamedGlobal], name: &Expanded) -> Option<NodeRef>
    ensures { result ≡ element_named name.now (map named_of named.now) }
{
    for global in named {
        if global.name.same(name) {
            return Some(global.element);
        }
    }
    None
}

// What a reference gives whatever levels are left, on the heap.
fn given(alloc: Global, entered: Entered, levels: u64) -> Result<Reference, Memory>
    ensures { IfOk result (λ r. IsGivenAt r entered levels) }
{
    let referred = Referred {
        entered,
        spare: levels,
    };
    Ok(Reference::Given(Box::new(alloc, referred)?))
}

// The empty text, which is what a reference to a global gives that there is not. It is remembered, so that it is the
// same wherever what is remembered holds.
fn no_global(
    alloc: Global,
    memo: &mut Memo,
    name: &Expanded,
    levels: u64,
) -> Result<Reference, Memory>
    ensures given { IfOk result (λ r. IsGivenAs r (no_global name.now) levels) }
    ensures remembered { OnOk result (entries_of memo.new ≡ entries_of memo.old ++ no_global name.now ∷ []) }
{
    remember_none(alloc, memo, name)?;
    given(alloc, Entered::Value(Value::Text(Text::new(alloc))), levels)
}

/// What a reference to the global of this name needs, with so many levels left. Where there is no such global, it is
/// the empty text.
pub fn look_up(
    alloc: Global,
    globals: &Globals,
    memo: &mut Memo,
    name: &Expanded,
    levels: u64,
) -> Result<Reference, Memory>
    ensures refers { IfOk result (λ r. Refers r globals.now name.now levels (entries_of memo.old) (entries_of memo.new)) }
    ensures counts { IfOk result (λ r. CountsLooked r globals.now name.now levels (entries_of memo.old) (entries_of memo.new)) }
{
    let known = value_of_past(alloc, globals.held, name)?;
    if let Some(value) = known {
        return given(alloc, Entered::Value(value), levels);
    }
    if is_under_way(globals.under_way, name) {
        return given(alloc, Entered::UnderWay, levels);
    }
    let recalled = recall(alloc, memo.entries.as_slice(), name, levels)?;
    if let Some(recalled) = recalled {
        return Ok(Reference::Given(recalled));
    }
    match element_of(globals.named, name) {
        Some(element) => Ok(Reference::Evaluated(element)),
        None => no_global(alloc, memo, name, levels),
    }
}

/// The name before the others.
pub fn with_name(alloc: Global, name: Expanded, names: &[Expanded]) -> Result<Vec<Expanded>, Memory>
    ensures { IfOk result (λ all. all.items ≡ name ∷ names.now) }
{
    let mut all = Vec::new(alloc);
    all.push(name)?;
    for other in names {
        let copied = copy_name(alloc, other)?;
        all.push(copied)?;
    }
    Ok(all)
}

/// The evaluation of the global of this element, where it is needed. What is remembered and does not hold there is
/// taken along.
pub fn evaluation_of(
    alloc: Global,
    globals: &Globals,
    memo: &mut Memo,
    needed: &Needed,
    element: NodeRef,
) -> Result<Box<Evaluation>, Memory>
    ensures name { IfOk result (λ e. e.value.name ≡ needed.now.name) }
    ensures element { IfOk result (λ e. e.value.element ≡ element) }
    ensures under_way { IfOk result (λ e. e.value.under_way.items ≡ needed.now.name ∷ globals.now.under_way.now) }
    ensures call { IfOk result (λ e. call_of e.value.call ≡ global_call globals.now.root element (place_of needed.now.place)) }
    ensures aside { IfOk result (λ e. IsAside needed.now.name (map entry_of e.value.aside.items) (entries_of memo.old) (entries_of memo.new)) }
{
    let copied = copy_name(alloc, &needed.name)?;
    let under_way = with_name(alloc, copied, globals.under_way)?;
    let place = copy_place(alloc, &needed.place)?;
    let call = global_call(globals.root, element, place);
    let name = copy_name(alloc, &needed.name)?;
    let aside = set_aside(alloc, memo, &name);
    Ok(Box::new(
        alloc,
        Evaluation {
            name,
            element,
            under_way,
            call,
            aside,
        },
    )?)
}
