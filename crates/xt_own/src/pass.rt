// The nodes of a key of before and those of now, passed side by side.
ghost use Rattle.std.specs.Prelude.{◌≡◌, ◌≤◌, ◌++◌, ◌∷◌, [], ℕ, true, false, drop, length, IfOk, IfSome, List};
ghost use Rattle.std.specs.Global.{Global as Heap};
ghost use Rattle.std.specs.List.{list_any};
ghost use Rattle.std.specs.declared.rc.Rc.{Rc as RcSpec};
ghost use Rattle.spec_meaning.specs.Question as question;
ghost use Rattle.spec_run.specs.Documents.{Parameters};
ghost use Rattle.spec_touch.specs.Marks.{any_asks};
ghost use Rattle.xt_touch.specs.View.{since_of};
ghost use Rattle.xt_spared.specs.View.{Agrees, Ask, questions_of};
ghost use Rattle.xt_world.specs.View.{truth_in};
ghost use Rattle.xt_own.specs.Keys.{Covers, Goes, IsNodeOf, Skips, nodes_of};
ghost use Rattle.xt_own.specs.declared.own_node.OwnNode.{OwnNode};

use crate::own_node::{OwnNode, own_node};
use crate::own_questions::same_ref;
use std::alloc::Global;
use std::rc::Rc;
use xt_names::Expanded;
use xt_questions::Question;
use xt_spared::is_text_among;
use xt_text::{Memory, Text};
use xt_touch::Since;
use xt_tree::{Doc, NodeRef};
use xt_world::Stylesheet;

// A key of which more values than these may be others is made anew.
const MOST_VALUES: usize = 64;

/// The changes since nodes were asked for the keys of a name, and the source and the stylesheet of now.
#[derive(Clone, Copy)]
pub(crate) struct Scene<'a> {
    pub(crate) since: &'a Since,
    pub(crate) document: &'a Doc,
    pub(crate) stylesheet: &'a Stylesheet,
    pub(crate) name: &'a Expanded,
}

/// The nodes of now, each with its values and what is asked for them. Added to the values are those of nodes that are gone,
/// that came, or of which a question must be asked again; which nodes have any other value is as it was. None where a node
/// cannot be told, or there are too many such values.
pub(crate) fn nodes_that_stay(
    alloc: Global,
    before: &[Rc<OwnNode>],
    now: &[NodeRef],
    scene: &Scene,
    but: &mut Vec<Text>,
) -> Result<Option<Vec<Rc<OwnNode>>>, Memory>
    ensures nodes { IfOk result (λ o. IfSome o (λ found. nodes_of found.items ≡ now.now)) }
    ensures goes { IfOk result (λ o. IfSome o (λ found. Goes scene.now.stylesheet.now scene.now.document.now scene.now.since.now scene.now.name.now but.old.items before.now [] but.new.items [] found.items)) }
{
    let mut found = Vec::new(alloc);
    let mut passed = 0;
    for node in now {
        match pass(alloc, before, passed, *node, scene, &mut found, but)? {
            None => return Ok(None),
            Some(next) => passed = next,
        }
    }
    if !add_rest(alloc, before, passed, but)? {
        return Ok(None);
    }
    Ok(Some(found))
}

// Passes one node of now, and those of before it that are gone. How many of before are passed then; none where the key is
// to be made anew.
fn pass(
    alloc: Global,
    before: &[Rc<OwnNode>],
    passed: usize,
    node: NodeRef,
    scene: &Scene,
    found: &mut Vec<Rc<OwnNode>>,
    but: &mut Vec<Text>,
) -> Result<Option<usize>, Memory>
    requires { passed ≤ length before.now }
    ensures bound { IfOk result (λ o. IfSome o (λ next. next ≤ length before.now)) }
    ensures nodes { IfOk result (λ o. IfSome o (λ next. nodes_of found.new.items ≡ nodes_of found.old.items ++ node ∷ [])) }
    ensures goes { IfOk result (λ o. IfSome o (λ next. Goes scene.now.stylesheet.now scene.now.document.now scene.now.since.now scene.now.name.now but.old.items (drop passed before.now) found.old.items but.new.items (drop next before.now) found.new.items)) }
{
    match past_gone(alloc, before, passed, node, scene, but)? {
        None => Ok(None),
        Some(next) => pass_here(alloc, before, next, node, scene, found, but),
    }
}

// The same, where the next of before is not gone.
fn pass_here(
    alloc: Global,
    before: &[Rc<OwnNode>],
    next: usize,
    node: NodeRef,
    scene: &Scene,
    found: &mut Vec<Rc<OwnNode>>,
    but: &mut Vec<Text>,
) -> Result<Option<usize>, Memory>
    requires { next ≤ length before.now }
    ensures bound { IfOk result (λ o. IfSome o (λ after. after ≤ length before.now)) }
    ensures nodes { IfOk result (λ o. IfSome o (λ after. nodes_of found.new.items ≡ nodes_of found.old.items ++ node ∷ [])) }
    ensures goes { IfOk result (λ o. IfSome o (λ after. Goes scene.now.stylesheet.now scene.now.document.now scene.now.since.now scene.now.name.now but.old.items (drop next before.now) found.old.items but.new.items (drop after before.now) found.new.items)) }
{
    if next < before.len() {
        let old = &before[next];
        if same_ref(old.node, node) {
            if pass_same(alloc, old, scene, found, but)? {
                return Ok(Some(next + 1));
            }
            return Ok(None);
        }
    }
    if pass_new(alloc, node, scene, found, but)? {
        return Ok(Some(next));
    }
    Ok(None)
}

// Passes a node that is in both. Whether the key may stay.
fn pass_same(
    alloc: Global,
    old: &Rc<OwnNode>,
    scene: &Scene,
    found: &mut Vec<Rc<OwnNode>>,
    but: &mut Vec<Text>,
) -> Result<bool, Memory>
    ensures nodes { IfOk result (λ stays. stays ≡ true → nodes_of found.new.items ≡ nodes_of found.old.items ++ old.now.value.node ∷ []) }
    ensures goes { IfOk result (λ stays. stays ≡ true → (rest : List (RcSpec OwnNode Heap)) → Goes scene.now.stylesheet.now scene.now.document.now scene.now.since.now scene.now.name.now but.old.items (old.now ∷ rest) found.old.items but.new.items rest found.new.items) }
{
    if is_as_it_was(scene.since, old) {
        let shared = old.clone()?;
        found.push(shared)?;
        return Ok(true);
    }
    if !add_asked(alloc, but, old, scene.since)? {
        return Ok(false);
    }
    pass_new(alloc, old.node, scene, found, but)
}

// Adds the values of a node that is asked again. Where it had none, and something that was asked for them must be asked
// again, the empty one is added: the key is not to be among those that stay for each value.
fn add_asked(
    alloc: Global,
    but: &mut Vec<Text>,
    old: &Rc<OwnNode>,
    since: &Since,
) -> Result<bool, Memory>
    ensures before { IfOk result (λ fits. Covers but.old.items but.new.items) }
    ensures values { IfOk result (λ fits. Covers old.now.value.texts.items but.new.items) }
{
    if old.texts.is_empty() && must_ask_some(since, old.reads.as_slice()) {
        return add_empty(alloc, but);
    }
    add_values(alloc, but, old.texts.as_slice())
}

fn add_empty(alloc: Global, but: &mut Vec<Text>) -> Result<bool, Memory>
    ensures { IfOk result (λ fits. Covers but.old.items but.new.items) }
{
    let mut values = Vec::new(alloc);
    values.push(Text::new(alloc))?;
    let fits = add_values(alloc, but, values.as_slice());
    drop(values);
    fits
}

// Whether no question that was asked for the values of a node must be asked again, nor what it is called.
fn is_as_it_was(since: &Since, old: &Rc<OwnNode>) -> bool
    ensures name { result ≡ true → any_asks (since_of since.now) (question.Name old.now.value.node) ≡ false }
    ensures reads { result ≡ true → list_any (any_asks (since_of since.now)) (questions_of old.now.value.reads.items) ≡ false }
{
    !must_ask_name(since, old.node) && !must_ask_some(since, old.reads.as_slice())
}

// Passes a node that is asked now, since it came or is to be asked again: its values are added. Whether the key may stay.
fn pass_new(
    alloc: Global,
    node: NodeRef,
    scene: &Scene,
    found: &mut Vec<Rc<OwnNode>>,
    but: &mut Vec<Text>,
) -> Result<bool, Memory>
    ensures nodes { IfOk result (λ stays. stays ≡ true → nodes_of found.new.items ≡ nodes_of found.old.items ++ node ∷ []) }
    ensures goes { IfOk result (λ stays. stays ≡ true → (left : List (RcSpec OwnNode Heap)) → Goes scene.now.stylesheet.now scene.now.document.now scene.now.since.now scene.now.name.now but.old.items left found.old.items but.new.items left found.new.items) }
{
    match own_node(alloc, scene.document, scene.stylesheet, scene.name, node)? {
        None => Ok(false),
        Some(new) => {
            let Ok(fits) = add_values(alloc, but, new.texts.as_slice()) else {
                drop(new);
                return Err(Memory);
            };
            found.push(new)?;
            Ok(fits)
        }
    }
}

// Whether after a change it must be asked what the node is called: it is gone, or it came.
fn must_ask_name(since: &Since, node: NodeRef) -> bool
    ensures { result ≡ any_asks (since_of since.now) (question.Name node) }
{
    let question = Question::Name(node);
    let must_ask = since.asks(&question);
    drop(question);
    must_ask
}

// Whether after a change one of these must be asked.
fn must_ask_some(since: &Since, questions: &[Question]) -> bool
    ensures { result ≡ list_any (any_asks (since_of since.now)) (questions_of questions.now) }
{
    for question in questions {
        if since.asks(question) {
            return true;
        }
    }
    false
}

// Adds these values, each that is not there yet. False where there are too many then.
fn add_values(alloc: Global, but: &mut Vec<Text>, values: &[Text]) -> Result<bool, Memory>
    ensures before { IfOk result (λ fits. Covers but.old.items but.new.items) }
    ensures values { IfOk result (λ fits. Covers values.now but.new.items) }
{
    for value in values {
        if !is_text_among(but.as_slice(), value) {
            but.push(value.copy(alloc)?)?;
        }
    }
    Ok(but.len() <= MOST_VALUES)
}

// Passes those of before that are gone, up to this node or one that is still there: their values are added. How many are
// passed then; none where there are too many values.
fn past_gone(
    alloc: Global,
    before: &[Rc<OwnNode>],
    passed: usize,
    node: NodeRef,
    scene: &Scene,
    but: &mut Vec<Text>,
) -> Result<Option<usize>, Memory>
    requires { passed ≤ length before.now }
    ensures bound { IfOk result (λ o. IfSome o (λ next. next ≤ length before.now)) }
    ensures skips { IfOk result (λ o. IfSome o (λ next. Skips but.old.items (drop passed before.now) but.new.items (drop next before.now))) }
{
    for next in passed..before.len() {
        let old = &before[next];
        if is_still_there(alloc, old.node, node, scene)? {
            return Ok(Some(next));
        }
        if !add_values(alloc, but, old.texts.as_slice())? {
            return Ok(None);
        }
    }
    Ok(Some(before.len()))
}

fn is_still_there(
    alloc: Global,
    old: NodeRef,
    node: NodeRef,
    scene: &Scene,
) -> Result<bool, Memory> {
    if same_ref(old, node) {
        return Ok(true);
    }
    scene.document.has(alloc, &old)
}

// Adds the values of those of before that are not passed. False where there are too many then.
fn add_rest(
    alloc: Global,
    before: &[Rc<OwnNode>],
    passed: usize,
    but: &mut Vec<Text>,
) -> Result<bool, Memory>
    requires { passed ≤ length before.now }
    ensures { IfOk result (λ fits. fits ≡ true → Skips but.old.items (drop passed before.now) but.new.items []) }
{
    for next in passed..before.len() {
        let old = &before[next];
        if !add_values(alloc, but, old.texts.as_slice())? {
            return Ok(false);
        }
    }
    Ok(true)
}
