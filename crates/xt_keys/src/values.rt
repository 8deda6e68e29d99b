// The values of one node in one key (XSLT 1.0, section 12.2).
ghost use Rattle.std.specs.Prelude.{◌≡◌, ℕ, [], ◌∷◌, List, IfOk};
ghost use Rattle.spec_meaning.specs.Convert as convert;
ghost use Rattle.spec_meaning.specs.Meaning.{meaning};
ghost use Rattle.spec_meaning.specs.Program.{Give, Program, State, Supply, then as and_then};
ghost use Rattle.spec_meaning.specs.Supplies.{at_hand};
ghost use Rattle.spec_transform.specs.Key as definition;
ghost use Rattle.spec_node.specs.Naming.{same_ref};
ghost use Rattle.xt_syntax.specs.PartView.{place_of};
ghost use Rattle.xt_syntax.specs.View.{expr_of};
ghost use Rattle.xt_questions.specs.Runs.{Runs, items, itself};
ghost use Rattle.xt_questions.specs.View.{context_of, supplies_of};
ghost use Rattle.xt_keys.specs.View.{IsContextOf, alone, key_at};
ghost use Rattle.xt_tree.specs.ValueView.{value_of};
ghost use Rattle.spec_node.specs.declared.node_ref.NodeRef.{NodeRef};

use std::alloc::Global;
use xp_values::to_text;
use xt_base::Place;
use xt_match::matches;
use xt_questions::{
    Bindings, Context, EvalFault, Evaluate, Focus, Refusal, Supplies, World, ask_text, copy_place,
};
use xt_syntax::{Key, Site};
use xt_text::{Memory, Text};
use xt_tree::{NodeRef, Value};

// The string-values of nodes.
fn texts_of<W: World>(
    alloc: Global,
    nodes: &[NodeRef],
    world: &mut W,
) -> Result<Vec<Text>, EvalFault>
    ensures runs { (supply : Supply NodeRef) → (depth : ℕ) → Runs items supply depth (definition.texts_of [] nodes.now) (W.state world.old) (W.state world.new) result }
    ensures name { W.name world.new ≡ W.name world.old }
{
    let mut texts = Vec::new(alloc);
    for node in nodes {
        let text = ask_text(alloc, world, *node)?;
        texts.push(text)?;
    }
    Ok(texts)
}

// The string of a value, as the only one.
fn one_text<W: World>(alloc: Global, value: Value, world: &mut W) -> Result<Vec<Text>, EvalFault>
    ensures runs { (supply : Supply NodeRef) → (depth : ℕ) → Runs items supply depth (and_then (convert.to_text (value_of value)) (λ t. Give (t ∷ []))) (W.state world.old) (W.state world.new) result }
    ensures name { W.name world.new ≡ W.name world.old }
{
    let text = to_text(alloc, value, world)?;
    let mut texts = Vec::new(alloc);
    texts.push(text)?;
    Ok(texts)
}

// The values that the value of a use gives.
fn values_of<W: World>(alloc: Global, value: Value, world: &mut W) -> Result<Vec<Text>, EvalFault>
    ensures runs { (supply : Supply NodeRef) → (depth : ℕ) → Runs items supply depth (definition.values_of (value_of value)) (W.state world.old) (W.state world.new) result }
    ensures name { W.name world.new ≡ W.name world.old }
{
    match value {
        Value::Nodes(nodes) => texts_of(alloc, nodes.as_slice(), world),
        other => one_text(alloc, other, world),
    }
}

// The values that the use of a key gives at a node, which is the only one of its list.
fn used<W: Evaluate>(
    alloc: Global,
    key: &Key,
    node: NodeRef,
    context: &Context,
    supplies: &Supplies,
    world: &mut W,
) -> Result<Vec<Text>, EvalFault>
    ensures runs { Runs items (at_hand (supplies_of supplies.now) context.now.depth) context.now.depth (and_then (meaning (expr_of key.now.value) (context_of (alone node) context.now)) (λ v. definition.values_of v)) (W.state world.old) (W.state world.new) result }
    ensures name { W.name world.new ≡ W.name world.old }
{
    let focus = Focus {
        node,
        position: Some(1),
        size: Some(1),
    };
    let value = world.value(alloc, &key.value, focus, context, supplies)?;
    values_of(alloc, value, world)
}

// What ended so, where what is refused is refused at this element.
fn refused_there(
    alloc: Global,
    place: &Place,
    ended: Result<Vec<Text>, EvalFault>,
) -> Result<Vec<Text>, EvalFault>
    ensures { (supply : Supply NodeRef) → (depth : ℕ) → (p : Program NodeRef (List (List ℕ))) → (s t : State NodeRef) → Runs items supply depth p s t ended → Runs items supply depth (definition.refused_there (place_of place.now) p) s t result }
{
    match ended {
        Ok(texts) => Ok(texts),
        Err(EvalFault::Refused(Refusal::Here(code))) => {
            let place = copy_place(alloc, place)?;
            Err(EvalFault::Refused(Refusal::At(code, place)))
        }
        Err(EvalFault::Refused(Refusal::At(code, other))) => {
            Err(EvalFault::Refused(Refusal::At(code, other)))
        }
        Err(EvalFault::Wants(name)) => Err(EvalFault::Wants(name)),
        Err(EvalFault::Memory) => Err(EvalFault::Memory),
    }
}

// Where the pattern and the use of a key at this site stand for a node: there are no variables.
fn context_at(site: &Site, node: NodeRef) -> Result<Context, Memory>
    ensures { IfOk result (IsContextOf site.now node) }
{
    let scope = site.scope.copy()?;
    Ok(Context {
        current: node,
        bindings: Bindings::Empty,
        scope,
        depth: 0,
    })
}

/// The values of a node in a key whose element is this site: none where it does not match.
pub(crate) fn values_at<W: Evaluate>(
    alloc: Global,
    site: &Site,
    key: &Key,
    node: NodeRef,
    supplies: &Supplies,
    world: &mut W,
) -> Result<Vec<Text>, EvalFault>
    ensures runs { Runs items (at_hand (supplies_of supplies.now) 0) 0 (definition.values_at same_ref (key_at site.now key.now) node) (W.state world.old) (W.state world.new) result }
    ensures name { W.name world.new ≡ W.name world.old }
{
    let context = context_at(site, node)?;
    let matches = matches(alloc, &key.pattern, node, &context, supplies, world)?;
    if matches {
        let ended = used(alloc, key, node, &context, supplies, world);
        refused_there(alloc, &site.place, ended)
    } else {
        Ok(Vec::new(alloc))
    }
}
