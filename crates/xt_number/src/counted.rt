// Whether a node is counted.
ghost use Rattle.std.specs.Prelude.{◌≡◌, ℕ, IfOk, OnErr, OnOk};
ghost use Rattle.std.specs.Option.{option_map};
ghost use Rattle.spec_meaning.specs.Program.{Ask, Give, Supply, asked};
ghost use Rattle.spec_meaning.specs.Question as question;
ghost use Rattle.spec_meaning.specs.Supplies.{at_hand};
ghost use Rattle.spec_transform.specs.Numbering as definition;
ghost use Rattle.spec_node.specs.Naming.{same_ref};
ghost use Rattle.xt_syntax.specs.PartView.{pattern_of};
ghost use Rattle.spec_node.specs.declared.node_ref.NodeRef.{NodeRef};
ghost use Rattle.xt_questions.specs.View.{answer_of, context_of, supplies_of};
ghost use Rattle.xt_questions.specs.Runs.{Runs, itself};
ghost use Rattle.xt_number.specs.View.{counted_of};
ghost use Rattle.xt_questions.specs.declared.context.Context as around;
ghost use Rattle.xt_questions.specs.declared.context.Focus as code;

use spec_document::Kind;
use std::alloc::Global;
use xt_match::matches;
use xt_names::Expanded;
use xt_questions::{Answer, Context, EvalFault, Evaluate, Focus, Question, Supplies, World};
use xt_syntax::Pattern;
use xt_text::Memory;
use xt_tree::NodeRef;

/// What is counted.
#[derive(Drop)]
pub enum Counted<'a> {
    /// The nodes that match this pattern.
    Matching(&'a Pattern),
    /// The nodes that are called so.
    CalledAs(Answer),
}

// Whether both have no name, or the same.
fn same_if_named(one: &Option<Expanded>, other: &Option<Expanded>) -> bool
    ensures { result ≡ definition.same_if_named one.now other.now }
{
    match (one, other) {
        (None, None) => true,
        (Some(one), Some(other)) => one.same(other),
        _ => false,
    }
}

fn same_kind(one: Kind, other: Kind) -> bool
    ensures { result ≡ definition.same_kind one other }
{
    one == other
}

// Whether nodes that are called so are of one kind, and of one name where they have any.
fn called_alike(one: &Answer, other: &Answer) -> bool
    ensures { result ≡ definition.called_alike (answer_of one.now) (answer_of other.now) }
{
    match (one, other) {
        (Answer::Named(kind, name, _), Answer::Named(other_kind, other, _)) => {
            same_kind(*kind, *other_kind) && same_if_named(name, other)
        }
        _ => false,
    }
}

// What a node is called.
fn ask_name<W: World>(node: NodeRef, world: &mut W) -> Result<Answer, Memory>
    ensures answer { IfOk result (λ a. answer_of a ≡ (W.state world.old).truth (question.Name node)) }
    ensures asked { OnOk result (W.state world.new ≡ asked (question.Name node) (W.state world.old)) }
    ensures err { OnErr result ((W.state world.new).truth ≡ (W.state world.old).truth) }
    ensures name { W.name world.new ≡ W.name world.old }
{
    let question = Question::Name(node);
    let answer = world.ask(&question);
    drop(question);
    answer
}

// Whether the node is called so.
fn is_called<W: World>(called: &Answer, node: NodeRef, world: &mut W) -> Result<bool, EvalFault>
    ensures runs { (supply : Supply NodeRef) → (depth : ℕ) → Runs itself supply depth (Ask (question.Name node) (λ a. Give (definition.called_alike (answer_of called.now) a))) (W.state world.old) (W.state world.new) result }
    ensures name { W.name world.new ≡ W.name world.old }
{
    let answer = ask_name(node, world)?;
    let alike = called_alike(called, &answer);
    drop(answer);
    Ok(alike)
}

/// Whether the node is counted.
pub(crate) fn is_counted<W: Evaluate>(
    alloc: Global,
    counted: &Counted<'_>,
    node: NodeRef,
    context: &Context,
    supplies: &Supplies,
    world: &mut W,
) -> Result<bool, EvalFault>
    ensures runs { (focus : code.Focus) → Runs itself (at_hand (supplies_of supplies.now) context.now.depth) context.now.depth (definition.is_counted same_ref (context_of focus context.now) (counted_of counted.now) node) (W.state world.old) (W.state world.new) result }
    ensures name { W.name world.new ≡ W.name world.old }
{
    match counted {
        Counted::Matching(pattern) => matches(alloc, pattern, node, context, supplies, world),
        Counted::CalledAs(called) => is_called(called, node, world),
    }
}

/// What an xsl:number counts for the node at the focus: what matches `count`, or without it the nodes that are called as
/// that node is.
pub(crate) fn counted_by<'a, W: World>(
    count: &'a Option<Pattern>,
    focus: Focus,
    world: &mut W,
) -> Result<Counted<'a>, EvalFault>
    ensures runs { (supply : Supply NodeRef) → (depth : ℕ) → (context : around.Context) → Runs counted_of supply depth (definition.counted_by (option_map pattern_of count.now) (context_of focus context)) (W.state world.old) (W.state world.new) result }
    ensures name { W.name world.new ≡ W.name world.old }
{
    match count {
        Some(pattern) => Ok(Counted::Matching(pattern)),
        None => {
            let answer = ask_name(focus.node, world)?;
            Ok(Counted::CalledAs(answer))
        }
    }
}
