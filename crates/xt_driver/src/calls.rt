// Calls that a driver makes.
ghost use Rattle.std.specs.Prelude.{◌≡◌, [], true, IfOk, None, OnOk};
ghost use Rattle.std.specs.Option.{option_map, option_or};
ghost use Rattle.spec_meaning.specs.Question.{AllRules};
ghost use Rattle.spec_meaning.specs.Question as asked;
ghost use Rattle.spec_node.specs.declared.node_ref.NodeRef.{NodeRef};
ghost use Rattle.spec_run.specs.Plan as plan;
ghost use Rattle.spec_run.specs.Plan.{nowhere};
ghost use Rattle.spec_run.specs.Content.{rule_call, target_by, ruling_by};
ghost use Rattle.spec_run.specs.Meaning.{global_call, ruling_in, settled};
ghost use Rattle.xt_syntax.specs.PartView.{place_of};
ghost use Rattle.xt_questions.specs.View.{chosen_of};
ghost use Rattle.xt_engine.specs.View.{call_of, ruling_of, target_of};

use std::alloc::Global;
use std::rc::Rc;
use xt_base::Place;
use xt_engine::{Call, Ruling, Target};
use xt_questions::{Bindings, Candidates, ChosenRule, CurrentRule, Question, World};
use xt_text::{Memory, Path};
use xt_tree::NodeRef;

// One of them, the first where it is there.
fn or_outer(inner: Option<u64>, outer: Option<u64>) -> Option<u64>
    ensures { result ≡ option_or inner outer }
{
    match inner {
        Some(number) => Some(number),
        None => outer,
    }
}

// Gives what is entered this current rule, where it has said none.
fn settle_ruling(alloc: Global, outer: &Ruling, inner: &mut Ruling) -> Result<(), Memory>
    ensures { OnOk result (ruling_of inner.new ≡ ruling_in (ruling_of outer.now) (ruling_of inner.old)) }
{
    match inner {
        Ruling::Same => {
            *inner = outer.copy(alloc)?;
            Ok(())
        }
        Ruling::Is(_) => Ok(()),
    }
}

// Gives a call that is entered from another one the position, the size and the current rule of that where it has
// said none.
fn settle(alloc: Global, outer: &Call, inner: &mut Call) -> Result<(), Memory>
    ensures { OnOk result (call_of inner.new ≡ settled (call_of outer.now) (call_of inner.old)) }
{
    inner.position = or_outer(inner.position, outer.position);
    inner.size = or_outer(inner.size, outer.size);
    settle_ruling(alloc, &outer.ruling, &mut inner.ruling)
}

/// A call that is entered from another one, which has from that one what it has not said itself. Most say all, and are shared
/// as they are.
pub fn settled(alloc: Global, outer: &Call, wanted: Rc<Call>) -> Result<Rc<Call>, Memory>
    ensures { IfOk result (λ c. call_of c.value ≡ settled (call_of outer.now) (call_of wanted.value)) }
{
    if says_all(&wanted) {
        return Ok(wanted);
    }
    let whole = completed(alloc, outer, &wanted);
    drop(wanted);
    whole
}

// A copy of a call that is entered from another one, with what it has from that one.
fn completed(alloc: Global, outer: &Call, inner: &Call) -> Result<Rc<Call>, Memory>
    ensures { IfOk result (λ c. call_of c.value ≡ settled (call_of outer.now) (call_of inner.now)) }
{
    let mut call = inner.copy(alloc)?;
    settle(alloc, outer, &mut call)?;
    Ok(Rc::new(alloc, call)?)
}

// Whether the call has a position, a size and a current rule of its own, so that it is the same whatever enters it.
fn says_all(call: &Call) -> bool
    ensures { result ≡ true → (outer : plan.Call NodeRef) → settled outer (call_of call.now) ≡ call_of call.now }
{
    match (&call.position, &call.size, &call.ruling) {
        (Some(_), Some(_), Ruling::Is(_)) => true,
        _ => false,
    }
}

/// The call of a global, from this element. No template rule is the current one there (XSLT 1.0, section 5.6).
pub fn global_call(root: NodeRef, element: NodeRef, by: Place) -> Call
    ensures { call_of result ≡ global_call root element (place_of by) }
{
    Call {
        target: Target::Unit(element),
        node: root,
        parameters: Bindings::Empty,
        position: Some(1),
        size: Some(1),
        ruling: Ruling::Is(None),
        by,
    }
}

/// The place of no element.
pub fn nowhere(alloc: Global) -> Place
    ensures { place_of result ≡ nowhere }
{
    Place {
        module: None,
        path: Path::new(alloc),
    }
}

// What a template rule enters: its template, or the built-in rule.
fn target(rule: &Option<ChosenRule>) -> Target
    ensures { target_of result ≡ target_by None (option_map chosen_of rule.now) }
{
    match rule {
        Some(rule) => Target::Unit(rule.element),
        None => Target::BuiltIn(None),
    }
}

// The current rule there, which has no mode.
fn ruling(rule: &Option<ChosenRule>) -> Ruling
    ensures { ruling_of result ≡ ruling_by None (option_map chosen_of rule.now) }
{
    match rule {
        Some(rule) => Ruling::Is(Some(CurrentRule {
            mode: None,
            first: rule.first,
            last: rule.last,
        })),
        None => Ruling::Is(None),
    }
}

/// The call of the template rule of the root (XSLT 1.0, section 5.1).
pub fn root_call<W: World>(alloc: Global, world: &mut W, root: NodeRef) -> Result<Call, Memory>
    ensures call { IfOk result (λ c. call_of c ≡ rule_call nowhere None [] 1 root 1 ((W.state world.old).truth (asked.Choice root None AllRules))) }
    ensures truth { (W.state world.new).truth ≡ (W.state world.old).truth }
    ensures name { W.name world.new ≡ W.name world.old }
{
    let question = Question::Choice(root, None, Candidates::AllRules);
    let answer = world.ask(&question);
    drop(question);
    let rule = answer?.into_rule();
    Ok(Call {
        target: target(&rule),
        node: root,
        parameters: Bindings::Empty,
        position: Some(1),
        size: Some(1),
        ruling: ruling(&rule),
        by: nowhere(alloc),
    })
}
