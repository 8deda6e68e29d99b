// Copies (XSLT 1.0, sections 7.5 and 11.3).
ghost use Rattle.std.specs.Prelude.{◌≡◌, ◌<◌, ◌+◌, suc, length, map, IfOk, OnOk};
ghost use Rattle.spec_stylesheet.specs.Instruction as made;
ghost use Rattle.spec_stylesheet.specs.Instruction.{instrs};
ghost use Rattle.spec_meaning.specs.Question as question;
ghost use Rattle.spec_expression.specs.Number.{text_of};
ghost use Rattle.spec_meaning.specs.Stream.{Ended};
ghost use Rattle.spec_meaning.specs.Convert as convert;
ghost use Rattle.spec_run.specs.Plan as plan;
ghost use Rattle.spec_run.specs.Going as goings;
ghost use Rattle.spec_run.specs.Copy.{stream_in, without_attributes};
ghost use Rattle.spec_run.specs.Content.{value_copied, nodes_copied, copied_as, planned_with, kind_in, text_item};
ghost use Rattle.xt_names.specs.View.{entry_of};
ghost use Rattle.xt_syntax.specs.PartView.{site_of};
ghost use Rattle.xt_syntax.specs.InstrView.{instr_of};
ghost use Rattle.spec_node.specs.declared.node_ref.NodeRef.{NodeRef};
ghost use Rattle.xt_tree.specs.ValueView.{value_of};
ghost use Rattle.xt_questions.specs.View.{answer_of};
ghost use Rattle.xt_engine.specs.View.{wrapping_of};
ghost use Rattle.xt_progress.specs.View.{going_of};
ghost use Rattle.xt_instructions.specs.Copied.{element_copied};
ghost use Rattle.xt_frames.specs.declared.frame.Frame.TheVariants as Frame;
ghost use Rattle.xt_frames.specs.View.{here_of, inside, after_body};
ghost use Rattle.xt_frames.specs.Left.{left_in, Does, Performs};

use crate::namespaces::read_namespaces;
use crate::sets::collect_with_sets;
use crate::simple::{advanced, into_content};
use spec_document::{Axis, Kind};
use spec_expression::NodeType;
use std::alloc::Global;
use std::rc::Rc;
use xt_base::Num;
use xt_engine::Wrapping;
use xt_frames::{Body, Copies, Frame, Next, Run, push, write_fragment, write_text};
use xt_names::{Expanded, Namespace};
use xt_progress::Going;
use xt_questions::{Answer, Question, World};
use xt_streams::without_attributes;
use xt_syntax::{Instr, Site, Test};
use xt_text::{Memory, Text};
use xt_tree::{Fragment, NodeRef, Value};

/// Writes a value, before the rest of the body: a number or a boolean as its text.
pub(crate) fn write_value(
    alloc: Global,
    run: &mut Run,
    value: Value,
    body: Body,
) -> Result<Next, Memory>
    requires { body.next < usize.MAX }
    ensures { IfOk result (λ next. (ask : question.Question NodeRef → question.Answer NodeRef) → Does ask (value_copied (value_of value) (after_body body (left_in run.old))) (suc (length run.old.frames.items)) run.old run.new next) }
{
    match value {
        Value::Nodes(nodes) => write_nodes(run, nodes, body),
        Value::Fragment(fragment) => write_plain(alloc, run, fragment, body),
        Value::Text(text) => write_text(run, text, Frame::Body(advanced(body))),
        Value::Number(number) => write_number(alloc, run, number, body),
        Value::Boolean(boolean) => write_boolean(alloc, run, boolean, body),
    }
}

/// Leaves the copies of these nodes, before the rest of the body.
fn write_nodes(run: &mut Run, nodes: Vec<NodeRef>, body: Body) -> Result<Next, Memory>
    requires { body.next < usize.MAX }
    ensures { IfOk result (λ next. (ask : question.Question NodeRef → question.Answer NodeRef) → Does ask (plan.Put Ended (nodes_copied nodes.items (after_body body (left_in run.old)))) (suc (length run.old.frames.items)) run.old run.new next) }
{
    push(run, Frame::Body(advanced(body)))?;
    push(run, Frame::Copies(Copies { nodes, next: 0 }))?;
    Ok(Next::Went)
}

/// Writes a fragment without the attributes beside its nodes, before the rest of the body.
fn write_plain(alloc: Global, run: &mut Run, fragment: Fragment, body: Body) -> Result<Next, Memory>
    requires { body.next < usize.MAX }
    ensures { IfOk result (λ next. (ask : question.Question NodeRef → question.Answer NodeRef) → Does ask (plan.Put (without_attributes fragment) (after_body body (left_in run.old))) (suc (length run.old.frames.items)) run.old run.new next) }
{
    let kept = without_attributes(alloc, &fragment)?;
    write_fragment(run, &kept, Frame::Body(advanced(body)))
}

/// Writes a number as its text, before the rest of the body.
fn write_number(alloc: Global, run: &mut Run, number: Num, body: Body) -> Result<Next, Memory>
    requires { body.next < usize.MAX }
    ensures { IfOk result (λ next. (ask : question.Question NodeRef → question.Answer NodeRef) → Does ask (plan.Put (text_item (text_of number)) (after_body body (left_in run.old))) (suc (length run.old.frames.items)) run.old run.new next) }
{
    let text = number.text(alloc)?;
    write_text(run, text, Frame::Body(advanced(body)))
}

/// Writes a boolean as its text, before the rest of the body.
fn write_boolean(alloc: Global, run: &mut Run, boolean: bool, body: Body) -> Result<Next, Memory>
    requires { body.next < usize.MAX }
    ensures { IfOk result (λ next. (ask : question.Question NodeRef → question.Answer NodeRef) → Does ask (plan.Put (text_item (convert.text_of_boolean boolean)) (after_body body (left_in run.old))) (suc (length run.old.frames.items)) run.old run.new next) }
{
    let text = text_of_boolean(alloc, boolean)?;
    write_text(run, text, Frame::Body(advanced(body)))
}

fn text_of_boolean(alloc: Global, boolean: bool) -> Result<Text, Memory>
    ensures { IfOk result (λ text. text ≡ convert.text_of_boolean boolean) }
{
    if boolean {
        Text::from_str(alloc, "true")
    } else {
        Text::from_str(alloc, "false")
    }
}

/// xsl:copy (XSLT 1.0, section 7.5).
pub(crate) fn copy<W: World>(
    alloc: Global,
    run: &mut Run,
    site: &Site,
    sets: &Vec<Expanded>,
    content: &Rc<Vec<Instr>>,
    body: Body,
    world: &mut W,
) -> Result<Next, Memory>
    requires { body.next < usize.MAX }
    ensures does { IfOk result (Does (W.state world.old).truth (plan.Inquire (question.Name body.here.focus.node) (λ a. copied_as (site_of site.now).place (here_of body.here) sets.now.items a (inside (site_of site.now).place (instrs (map instr_of content.now.value.items)) (here_of body.here)) (after_body body (left_in run.old)))) (suc (length run.old.frames.items)) run.old run.new) }
    ensures truth { (W.state world.new).truth ≡ (W.state world.old).truth }
    ensures name { W.name world.new ≡ W.name world.old }
{
    let answer = run
        .going
        .ask(alloc, world, Question::Name(body.here.focus.node))?;
    let next = copy_as(alloc, run, site, sets, content, body, &answer, world);
    drop(answer);
    next
}

/// The copy of the current node, whose kind and names are these.
fn copy_as<W: World>(
    alloc: Global,
    run: &mut Run,
    site: &Site,
    sets: &Vec<Expanded>,
    content: &Rc<Vec<Instr>>,
    body: Body,
    called: &Answer,
    world: &mut W,
) -> Result<Next, Memory>
    requires { body.next < usize.MAX }
    ensures does { IfOk result (Does (W.state world.old).truth (copied_as (site_of site.now).place (here_of body.here) sets.now.items (answer_of called.now) (inside (site_of site.now).place (instrs (map instr_of content.now.value.items)) (here_of body.here)) (after_body body (left_in run.old))) (suc (length run.old.frames.items)) run.old run.new) }
    ensures truth { (W.state world.new).truth ≡ (W.state world.old).truth }
    ensures name { W.name world.new ≡ W.name world.old }
{
    match kind_in(called) {
        Kind::Root => into_content(alloc, run, site, content, body),
        Kind::Element => copy_element(alloc, run, site, sets, content, body, called, world),
        Kind::Attribute => copy_node(alloc, run, body, world),
        Kind::Namespace => copy_node(alloc, run, body, world),
        Kind::Text => copy_node(alloc, run, body, world),
        Kind::Comment => copy_node(alloc, run, body, world),
        Kind::Instruction => copy_node(alloc, run, body, world),
    }
}

/// The kind in an answer.
pub fn kind_in(answer: &Answer) -> Kind
    ensures { result ≡ kind_in (answer_of answer.now) }
{
    match answer {
        Answer::Named(kind, _, _) => *kind,
        _ => Kind::Comment,
    }
}

/// The copy of an element, with its namespace nodes and the content.
fn copy_element<W: World>(
    alloc: Global,
    run: &mut Run,
    site: &Site,
    sets: &Vec<Expanded>,
    content: &Rc<Vec<Instr>>,
    body: Body,
    called: &Answer,
    world: &mut W,
) -> Result<Next, Memory>
    requires { body.next < usize.MAX }
    ensures does { IfOk result (Does (W.state world.old).truth (element_copied (site_of site.now).place (here_of body.here) sets.now.items (answer_of called.now) (inside (site_of site.now).place (instrs (map instr_of content.now.value.items)) (here_of body.here)) (after_body body (left_in run.old))) (suc (length run.old.frames.items)) run.old run.new) }
    ensures truth { (W.state world.new).truth ≡ (W.state world.old).truth }
    ensures name { W.name world.new ≡ W.name world.old }
{
    let test = Test::OfType(NodeType::Node);
    let question = Question::Step(body.here.focus.node, Axis::Namespace, test);
    let answer = run.going.ask(alloc, world, question)?;
    let nodes = answer.into_nodes(alloc);
    let namespaces = read_namespaces(alloc, &mut run.going, nodes.as_slice(), world)?;
    let end = element_called(alloc, called, namespaces)?;
    collect_with_sets(alloc, run, site, sets, end, content, body)
}

/// The element of this name, with these namespace nodes.
fn element_called(
    alloc: Global,
    called: &Answer,
    namespaces: Vec<Namespace>,
) -> Result<Wrapping, Memory>
    ensures { IfOk result (λ w. wrapping_of w ≡ plan.AsElement (question.written_in (answer_of called.now)) (question.uri_in (answer_of called.now)) (map entry_of namespaces.items)) }
{
    match called {
        Answer::Named(_, name, written) => {
            let uri = uri_of(alloc, name)?;
            let name = written.copy(alloc)?;
            Ok(Wrapping::Element {
                name,
                uri,
                namespaces,
            })
        }
        _ => Ok(Wrapping::Element {
            name: Text::new(alloc),
            uri: Text::new(alloc),
            namespaces,
        }),
    }
}

/// The URI of a name, empty without one.
fn uri_of(alloc: Global, name: &Option<Expanded>) -> Result<Text, Memory>
    ensures { IfOk result (λ t. t ≡ question.uri_of name.now) }
{
    match name {
        None => Ok(Text::new(alloc)),
        Some(name) => name.uri().copy(alloc),
    }
}

/// The copy of any other node: that of the whole node.
fn copy_node<W: World>(
    alloc: Global,
    run: &mut Run,
    body: Body,
    world: &mut W,
) -> Result<Next, Memory>
    requires { body.next < usize.MAX }
    ensures does { IfOk result (Does (W.state world.old).truth (plan.Inquire (question.Copy body.here.focus.node) (λ c. plan.Put (stream_in c) (after_body body (left_in run.old)))) (suc (length run.old.frames.items)) run.old run.new) }
    ensures truth { (W.state world.new).truth ≡ (W.state world.old).truth }
    ensures name { W.name world.new ≡ W.name world.old }
{
    let node = body.here.focus.node;
    push(run, Frame::Body(advanced(body)))?;
    ask_copy(alloc, &mut run.going, node, world)?;
    Ok(Next::Went)
}

/// Asks for the copy of a node, and puts it.
fn ask_copy<W: World>(
    alloc: Global,
    going: &mut Going,
    node: NodeRef,
    world: &mut W,
) -> Result<(), Memory>
    ensures put { OnOk result (let copy = (W.state world.old).truth (question.Copy node) in going_of going.new ≡ goings.put (stream_in copy) (goings.noted (goings.Asked (question.Copy node) copy) (going_of going.old))) }
    ensures truth { (W.state world.new).truth ≡ (W.state world.old).truth }
    ensures name { W.name world.new ≡ W.name world.old }
{
    let answer = going.ask(alloc, world, Question::Copy(node))?;
    let put = put_copy(going, &answer);
    drop(answer);
    put
}

/// Puts the copy of a node.
pub fn put_copy(going: &mut Going, answer: &Answer) -> Result<(), Memory>
    ensures { OnOk result (going_of going.new ≡ goings.put (stream_in (answer_of answer.now)) (going_of going.old)) }
{
    match answer {
        Answer::Copied(copy) => going.put_fragment(copy),
        _ => Ok(()),
    }
}
