// The start of an instantiation: a template with its parameters, a global, or what a built-in rule does.
ghost use Rattle.std.specs.Prelude.{◌≡◌, List, [], suc, length, IfOk};
ghost use Rattle.spec_stylesheet.specs.Sheet.{AGlobal, ASet};
ghost use Rattle.spec_meaning.specs.Context.{Bound};
ghost use Rattle.spec_meaning.specs.Question as question;
ghost use Rattle.spec_run.specs.Plan as plan;
ghost use Rattle.spec_run.specs.Content.{built_in, children_applied, text_put, planned, with_parameters, declared_planned, unit_planned, global_planned, may_be_given, is_no_uri, unless_given, held, here_in};
ghost use Rattle.xt_syntax.specs.PartView.{place_of};
ghost use Rattle.xt_syntax.specs.SheetView.{attribute_set_of, template_of, global_of, declared_of};
ghost use Rattle.spec_node.specs.Naming.{same_ref};
ghost use Rattle.spec_node.specs.declared.node_ref.NodeRef.{NodeRef};
ghost use Rattle.xt_questions.specs.View.{answer_of, bindings_of, resolved_of};
ghost use Rattle.xt_frames.specs.declared.frame.Frame.TheVariants as Frame;
ghost use Rattle.xt_frames.specs.View.{here_of, global_left};
ghost use Rattle.xt_frames.specs.Left.{Does, StepsFrom};
ghost use Rattle.xt_runner.specs.Start.{Begun, declared_in, unless_text};

use spec_document::{Axis, Kind};
use spec_expression::NodeType;
use std::alloc::Global;
use std::rc::Rc;
use xt_base::Place;
use xt_engine::Target;
use xt_frames::{
    Application, Body, Frame, Next, Parameters, Run, Standing, push, share_bindings, share_content,
};
use xt_instructions::{kind_in, used_sets};
use xt_names::Expanded;
use xt_questions::{Answer, Bindings, Focus, Question, ResolvedUnit, World};
use xt_syntax::{AttributeSet, Declared, GlobalBinding, Template, Test, Unit};
use xt_text::{Memory, Path, Text};
use xt_tree::{Item, NodeRef, Value};

/// Begins an instantiation, whose frame was taken off.
pub(crate) fn go_on_start<W: World>(
    alloc: Global,
    run: &mut Run,
    target: Target,
    node: NodeRef,
    parameters: Bindings,
    world: &mut W,
) -> Result<Next, Memory>
    ensures does { IfOk result (StepsFrom (W.state world.old).truth (Frame.Start target node parameters) run.old run.new) }
    ensures truth { (W.state world.new).truth ≡ (W.state world.old).truth }
    ensures name { W.name world.new ≡ W.name world.old }
{
    match target {
        Target::Unit(element) => begin_unit(alloc, run, element, node, parameters, world),
        Target::BuiltIn(mode) => begin_built_in(alloc, run, mode, node, world),
    }
}

/// Begins the unit of an element of the stylesheet.
fn begin_unit<W: World>(
    alloc: Global,
    run: &mut Run,
    element: NodeRef,
    node: NodeRef,
    parameters: Bindings,
    world: &mut W,
) -> Result<Next, Memory>
    ensures does { IfOk result (Does (W.state world.old).truth (plan.Inquire (question.Unit element) (λ a. unit_planned same_ref node (bindings_of parameters) a)) (suc (length run.old.frames.items)) run.old run.new) }
    ensures truth { (W.state world.new).truth ≡ (W.state world.old).truth }
    ensures name { W.name world.new ≡ W.name world.old }
{
    let answer = run.going.ask(alloc, world, Question::Unit(element))?;
    leave_nothing(run);
    begin_answered(alloc, run, answer, node, parameters, world)
}

/// Begins the unit that was answered.
fn begin_answered<W: World>(
    alloc: Global,
    run: &mut Run,
    answer: Answer,
    node: NodeRef,
    parameters: Bindings,
    world: &mut W,
) -> Result<Next, Memory>
    requires { run.old.frames.items ≡ [] }
    ensures does { IfOk result (Does (W.state world.old).truth (unit_planned same_ref node (bindings_of parameters) (answer_of answer)) 3 run.old run.new) }
    ensures truth { (W.state world.new).truth ≡ (W.state world.old).truth }
    ensures name { W.name world.new ≡ W.name world.old }
{
    match answer {
        Answer::Resolved(unit) => {
            let here = first_of(share_unit(&unit)?, node);
            begin_declared(alloc, run, &unit.unit, here, parameters, world)
        }
        other => {
            drop(other);
            Ok(Next::Went)
        }
    }
}

/// The same unit, shared.
fn share_unit(unit: &Rc<ResolvedUnit>) -> Result<Rc<ResolvedUnit>, Memory>
    ensures { IfOk result (λ u. u.value ≡ unit.now.value) }
{
    Ok(unit.clone()?)
}

/// Where a unit stands at the level of its instantiation for this node: there its template rule is the current one.
/// Takes no memory.
fn first_of(unit: Rc<ResolvedUnit>, node: NodeRef) -> Standing
    ensures here { here_of result ≡ here_in same_ref node (resolved_of unit.value) }
    ensures unit { result.unit ≡ unit }
{
    Standing {
        focus: Focus {
            node,
            position: None,
            size: None,
        },
        bindings: Bindings::Empty,
        depth: 0,
        ruled: true,
        unit,
    }
}

/// Begins what a unit declares, which stands here.
fn begin_declared<W: World>(
    alloc: Global,
    run: &mut Run,
    unit: &Unit,
    here: Standing,
    parameters: Bindings,
    world: &mut W,
) -> Result<Next, Memory>
    requires none { run.old.frames.items ≡ [] }
    requires stands { declared_in here ≡ declared_of unit.now.declared }
    ensures does { IfOk result (Does (W.state world.old).truth (declared_planned (place_of unit.now.site.place) (declared_of unit.now.declared) (bindings_of parameters) (here_of here)) 3 run.old run.new) }
    ensures truth { (W.state world.new).truth ≡ (W.state world.old).truth }
    ensures name { W.name world.new ≡ W.name world.old }
{
    match &unit.declared {
        Declared::Template(template) => begin_template(run, template, here, parameters),
        Declared::Global(global) => begin_global(alloc, run, global, here, world),
        Declared::AttributeSet(set) => begin_set(alloc, run, &unit.site.place, set, here),
        Declared::Key(_) => Ok(Next::Went),
    }
}

/// Begins an attribute set: those that it uses come before its own attributes (XSLT 1.0, section 7.1.4).
fn begin_set(
    alloc: Global,
    run: &mut Run,
    place: &Place,
    set: &AttributeSet,
    here: Standing,
) -> Result<Next, Memory>
    requires { run.old.frames.items ≡ [] }
    ensures { IfOk result (λ next. (given : List (Bound NodeRef)) → (ask : question.Question NodeRef → question.Answer NodeRef) → Does ask (declared_planned (place_of place.now) (ASet (attribute_set_of set.now)) given (here_of here)) 3 run.old run.new next) }
{
    let content = share_content(&set.attributes)?;
    let used = used_sets(alloc, place, set.sets.as_slice(), &here)?;
    let body = Body {
        content,
        next: 0,
        here,
    };
    push(run, Frame::Body(body))?;
    push(run, Frame::Sets(used))?;
    Ok(Next::Went)
}

/// Begins a template, by its parameters.
fn begin_template(
    run: &mut Run,
    template: &Template,
    here: Standing,
    parameters: Bindings,
) -> Result<Next, Memory>
    requires { run.old.frames.items ≡ [] }
    ensures { IfOk result (λ next. (ask : question.Question NodeRef → question.Answer NodeRef) → Does ask (with_parameters (template_of template.now).parameters (bindings_of parameters) (here_of here) (λ inner. planned (template_of template.now).content inner plan.End)) 3 run.old run.new next) }
{
    let left = Parameters {
        bindings: share_bindings(&template.parameters)?,
        next: 0,
        given: parameters,
        content: share_content(&template.content)?,
        here,
    };
    push(run, Frame::Parameters(left))?;
    Ok(Next::Went)
}

/// Begins a global: a parameter may be given from outside (XSLT 1.0, section 11.4).
fn begin_global<W: World>(
    alloc: Global,
    run: &mut Run,
    global: &GlobalBinding,
    here: Standing,
    world: &mut W,
) -> Result<Next, Memory>
    requires none { run.old.frames.items ≡ [] }
    requires stands { declared_in here ≡ AGlobal (global_of global.now) }
    ensures does { IfOk result (Does (W.state world.old).truth (global_planned (global_of global.now) (here_of here)) 3 run.old run.new) }
    ensures truth { (W.state world.new).truth ≡ (W.state world.old).truth }
    ensures name { W.name world.new ≡ W.name world.old }
{
    if may_be_given(global) {
        return begin_parameter(alloc, run, global, here, world);
    }
    begin_own(run, here)
}

/// Whether a global may be given from outside: it is a parameter whose name has no URI. Takes no memory.
fn may_be_given(global: &GlobalBinding) -> bool
    ensures { result ≡ may_be_given (global_of global.now) }
{
    global.is_parameter && has_no_uri(&global.binding.name)
}

/// Whether a name has no URI. Takes no memory.
fn has_no_uri(name: &Expanded) -> bool
    ensures { result ≡ is_no_uri name.now.uri }
{
    name.uri().is_empty()
}

/// Begins a global that may be given from outside.
fn begin_parameter<W: World>(
    alloc: Global,
    run: &mut Run,
    global: &GlobalBinding,
    here: Standing,
    world: &mut W,
) -> Result<Next, Memory>
    requires none { run.old.frames.items ≡ [] }
    requires stands { declared_in here ≡ AGlobal (global_of global.now) }
    ensures does { IfOk result (Does (W.state world.old).truth (plan.Inquire (question.External (global_of global.now).binding.name.local) (λ a. unless_given a (held (global_of global.now).binding (here_of here)))) 3 run.old run.new) }
    ensures truth { (W.state world.new).truth ≡ (W.state world.old).truth }
    ensures name { W.name world.new ≡ W.name world.old }
{
    let name = global.binding.name.local().copy(alloc)?;
    let answer = run.going.ask(alloc, world, Question::External(name))?;
    match text_given(answer) {
        Some(text) => Ok(Next::Gave(Value::Text(text))),
        None => begin_own(run, here),
    }
}

/// The text that is given from outside.
fn text_given(answer: Answer) -> Option<Text>
    ensures { (own : plan.Plan NodeRef) → unless_given (answer_of answer) own ≡ unless_text result own }
{
    match answer {
        Answer::Passed(text) => text,
        other => {
            drop(other);
            None
        }
    }
}

/// Begins what a global says itself that it holds, in a frame of its own: what is asked before is not asked again
/// where it lacks another global.
fn begin_own(run: &mut Run, here: Standing) -> Result<Next, Memory>
    requires { run.old.frames.items ≡ [] }
    ensures { IfOk result (λ next. (ask : question.Question NodeRef → question.Answer NodeRef) → Does ask (global_left (declared_in here) (here_of here)) 3 run.old run.new next) }
{
    push(run, Frame::Global(here))?;
    Ok(Next::Went)
}

/// Leaves nothing of a run. The memory of its frames stays for those that come.
pub(crate) fn leave_nothing(run: &mut Run)
    ensures begun { Begun plan.End run.old run.new }
    ensures none { run.new.frames.items ≡ [] }
{
    run.frames.clear();
}

/// Begins a built-in rule (XSLT 1.0, section 5.8).
fn begin_built_in<W: World>(
    alloc: Global,
    run: &mut Run,
    mode: Option<Expanded>,
    node: NodeRef,
    world: &mut W,
) -> Result<Next, Memory>
    ensures does { IfOk result (Does (W.state world.old).truth (built_in mode node) (suc (length run.old.frames.items)) run.old run.new) }
    ensures truth { (W.state world.new).truth ≡ (W.state world.old).truth }
    ensures name { W.name world.new ≡ W.name world.old }
{
    let answer = run.going.ask(alloc, world, Question::Name(node))?;
    let kind = kind_in(&answer);
    drop(answer);
    leave_nothing(run);
    match kind {
        Kind::Root => apply_to_children(alloc, run, mode, node, world),
        Kind::Element => apply_to_children(alloc, run, mode, node, world),
        Kind::Attribute => put_text(alloc, run, node, world),
        Kind::Text => put_text(alloc, run, node, world),
        Kind::Namespace => Ok(Next::Went),
        Kind::Comment => Ok(Next::Went),
        Kind::Instruction => Ok(Next::Went),
    }
}

/// Applies templates to the children.
fn apply_to_children<W: World>(
    alloc: Global,
    run: &mut Run,
    mode: Option<Expanded>,
    node: NodeRef,
    world: &mut W,
) -> Result<Next, Memory>
    requires { run.old.frames.items ≡ [] }
    ensures does { IfOk result (Does (W.state world.old).truth (children_applied mode node) 1 run.old run.new) }
    ensures truth { (W.state world.new).truth ≡ (W.state world.old).truth }
    ensures name { W.name world.new ≡ W.name world.old }
{
    let test = Test::OfType(NodeType::Node);
    let answer = run
        .going
        .ask(alloc, world, Question::Step(node, Axis::Child, test))?;
    let left = Application {
        place: nowhere(alloc),
        mode,
        parameters: Bindings::Empty,
        nodes: answer.into_nodes(alloc),
        next: 0,
        depth: 0,
    };
    push(run, Frame::Application(left))?;
    Ok(Next::Went)
}

/// The place of what stands at no element.
fn nowhere(alloc: Global) -> Place
    ensures { place_of result ≡ plan.nowhere }
{
    Place {
        module: None,
        path: Path::new(alloc),
    }
}

/// Puts the string-value.
fn put_text<W: World>(
    alloc: Global,
    run: &mut Run,
    node: NodeRef,
    world: &mut W,
) -> Result<Next, Memory>
    requires { run.old.frames.items ≡ [] }
    ensures does { IfOk result (Does (W.state world.old).truth (text_put node) 1 run.old run.new) }
    ensures truth { (W.state world.new).truth ≡ (W.state world.old).truth }
    ensures name { W.name world.new ≡ W.name world.old }
{
    let answer = run.going.ask(alloc, world, Question::Text(node))?;
    let text = answer.into_text(alloc);
    run.going.put(Item::Text(text))?;
    Ok(Next::Went)
}
