// Instructions that say whether, how often or which contents run (XSLT 1.0, sections 5.4, 6, 8, 9 and 10).
ghost use Rattle.std.specs.Prelude.{◌≡◌, ◌<◌, ◌+◌, List, [], suc, length, map, IfOk, if◌then◌else◌};
ghost use Rattle.spec_stylesheet.specs.Instruction as made;
ghost use Rattle.spec_stylesheet.specs.Instruction.{instrs};
ghost use Rattle.spec_meaning.specs.Question as question;
ghost use Rattle.spec_meaning.specs.Stream.{Ended};
ghost use Rattle.spec_meaning.specs.Context.{Bound};
ghost use Rattle.spec_run.specs.Plan.{Plan, Put, SameRule, RuleIs};
ghost use Rattle.spec_run.specs.Content as contents;
ghost use Rattle.spec_run.specs.Content.{each};
ghost use Rattle.xt_syntax.specs.View.{expr_of};
ghost use Rattle.xt_syntax.specs.PartView.{place_of, site_of, sort_key_of};
ghost use Rattle.xt_syntax.specs.InstrView.{instr_of, control_of, binding_of, branch_of, selection_of};
ghost use Rattle.spec_node.specs.declared.node_ref.NodeRef.{NodeRef};
ghost use Rattle.xt_questions.specs.View.{template_of};
ghost use Rattle.xt_engine.specs.View.{ruling_of};
ghost use Rattle.xt_frames.specs.declared.frame.Frame.TheVariants as Frame;
ghost use Rattle.xt_frames.specs.View.{here_of, inside, inside_at, after_body, passed_to};
ghost use Rattle.xt_frames.specs.Left.{left_in, Does, Performs};

use crate::choose::{choose_from, share_branches};
use crate::simple::{into_content, nothing, put_rest};
use crate::sorting::unsorted;
use crate::variables::pass;
use std::alloc::Global;
use std::rc::Rc;
use xt_engine::{Call, Ruling, Target};
use xt_frames::{
    Application, Body, Branches, Came, Frame, Items, Loop, Next, Ordered, Passing, Run, Standing,
    lack, nodes, push, share_bindings, share_content, share_keys, truth,
};
use xt_names::{Expanded, copy_name_if};
use xt_questions::{Bindings, NamedTemplate, World, copy_place};
use xt_syntax::{Binding, Branch, Control, Expr, Instr, Selection, Site, SortKey};
use xt_text::Memory;
use xt_tree::NodeRef;

/// An instruction that says whether, how often or which contents run.
pub(crate) fn control<W: World>(
    alloc: Global,
    run: &mut Run,
    site: &Site,
    what: &Control,
    body: Body,
    world: &mut W,
) -> Result<Next, Memory>
    requires { body.next < usize.MAX }
    ensures does { IfOk result (Performs (W.state world.old).truth (Frame.Body body) (contents.planned_control (site_of site.now) (control_of what.now) (here_of body.here) (after_body body (left_in run.old))) run.old run.new) }
    ensures truth { (W.state world.new).truth ≡ (W.state world.old).truth }
    ensures name { W.name world.new ≡ W.name world.old }
{
    match what {
        Control::ForEach(select, keys, content) => {
            for_each(alloc, run, site, select, keys, content, body, world)
        }
        Control::ForItems(select, keys, name, bindings) => {
            for_items(alloc, run, site, select, keys, name, bindings, body, world)
        }
        Control::If(test, content) => when(alloc, run, site, test, content, body, world),
        Control::Choose(branches) => choose(alloc, run, branches, body, world),
        Control::ApplyTemplates(selection, bindings) => {
            apply(alloc, run, site, selection, bindings, body, world)
        }
        Control::CallTemplate(name, bindings) => call(alloc, run, site, name, bindings, body),
    }
}

/// xsl:for-each (XSLT 1.0, section 8).
fn for_each<W: World>(
    alloc: Global,
    run: &mut Run,
    site: &Site,
    select: &Expr,
    keys: &Rc<Vec<SortKey>>,
    content: &Rc<Vec<Instr>>,
    body: Body,
    world: &mut W,
) -> Result<Next, Memory>
    requires { body.next < usize.MAX }
    ensures does { IfOk result (Performs (W.state world.old).truth (Frame.Body body) (contents.planned_control (site_of site.now) (made.for_each (expr_of select.now) (map sort_key_of keys.now.value.items) (instrs (map instr_of content.now.value.items))) (here_of body.here) (after_body body (left_in run.old))) run.old run.new) }
    ensures truth { (W.state world.new).truth ≡ (W.state world.old).truth }
    ensures name { W.name world.new ≡ W.name world.old }
{
    let Ok(came) = nodes(alloc, run, select, site, &body.here, world) else {
        drop(body);
        return Err(Memory);
    };
    match came {
        Came::Is(nodes) => for_nodes(alloc, run, site, keys, content, nodes, body),
        Came::Halts(why) => {
            drop(body);
            Ok(Next::Halt(why))
        }
        Came::Lacks(name) => {
            let depth = body.here.depth;
            lack(alloc, run, Frame::Body(body), name, depth, &site.place)
        }
    }
}

/// Goes into the content for each of these nodes, once they are sorted.
fn for_nodes(
    alloc: Global,
    run: &mut Run,
    site: &Site,
    keys: &Rc<Vec<SortKey>>,
    content: &Rc<Vec<Instr>>,
    nodes: Vec<NodeRef>,
    body: Body,
) -> Result<Next, Memory>
    requires { body.next < usize.MAX }
    ensures { IfOk result (λ next. (ask : question.Question NodeRef → question.Answer NodeRef) → Does ask (Put Ended (contents.sorted (map sort_key_of keys.now.value.items) (here_of body.here) nodes.items (λ ns. each (inside_at (site_of site.now).place (instrs (map instr_of content.now.value.items)) (length ns) (here_of body.here)) 1 ns (after_body body (left_in run.old))))) (suc (length run.old.frames.items)) run.old run.new next) }
{
    let here = put_rest(run, body)?;
    loop_over(alloc, run, site, keys, content, nodes, here)
}

/// Leaves the content for each of these nodes, once they are sorted where there are keys.
fn loop_over(
    alloc: Global,
    run: &mut Run,
    site: &Site,
    keys: &Rc<Vec<SortKey>>,
    content: &Rc<Vec<Instr>>,
    nodes: Vec<NodeRef>,
    here: Standing,
) -> Result<Next, Memory>
    ensures { IfOk result (λ next. (ask : question.Question NodeRef → question.Answer NodeRef) → Does ask (Put Ended (contents.sorted (map sort_key_of keys.now.value.items) (here_of here) nodes.items (λ ns. each (inside_at (site_of site.now).place (instrs (map instr_of content.now.value.items)) (length ns) (here_of here)) 1 ns (left_in run.old)))) (length run.old.frames.items) run.old run.new next) }
{
    if keys.is_empty() {
        let left = loop_of(alloc, site, content, nodes, here)?;
        push(run, Frame::Loop(left))?;
        return Ok(Next::Went);
    }
    let Ok(keys) = share_keys(keys) else {
        drop(here);
        return Err(Memory);
    };
    let Ok(inner) = here.share() else {
        drop(here);
        return Err(Memory);
    };
    let Ok(left) = loop_of(alloc, site, content, Vec::new(alloc), inner) else {
        drop(here);
        return Err(Memory);
    };
    let sorting = unsorted(alloc, keys, here, nodes, Ordered::Loop(left));
    push(run, Frame::Sorting(sorting))?;
    Ok(Next::Went)
}

/// The content for each of these nodes, all of which are left.
fn loop_of(
    alloc: Global,
    site: &Site,
    content: &Rc<Vec<Instr>>,
    nodes: Vec<NodeRef>,
    here: Standing,
) -> Result<Loop, Memory>
    ensures place { IfOk result (λ l. place_of l.place ≡ (site_of site.now).place) }
    ensures content { IfOk result (λ l. l.content.value ≡ content.now.value) }
    ensures nodes { IfOk result (λ l. l.nodes ≡ nodes) }
    ensures next { IfOk result (λ l. l.next ≡ 0) }
    ensures here { IfOk result (λ l. l.here ≡ here) }
{
    let Ok(content) = share_content(content) else {
        drop(here);
        return Err(Memory);
    };
    let Ok(place) = copy_place(alloc, &site.place) else {
        drop(here);
        return Err(Memory);
    };
    Ok(Loop {
        place,
        content,
        nodes,
        next: 0,
        here,
    })
}

/// An xsl:for-each whose content stands in a template of its own, of this name (XSLT 1.0, section 8).
fn for_items<W: World>(
    alloc: Global,
    run: &mut Run,
    site: &Site,
    select: &Expr,
    keys: &Rc<Vec<SortKey>>,
    name: &Expanded,
    bindings: &Rc<Vec<Binding>>,
    body: Body,
    world: &mut W,
) -> Result<Next, Memory>
    requires { body.next < usize.MAX }
    ensures does { IfOk result (Performs (W.state world.old).truth (Frame.Body body) (contents.planned_control (site_of site.now) (made.for_items (expr_of select.now) (map sort_key_of keys.now.value.items) name.now (made.bindings (map binding_of bindings.now.value.items))) (here_of body.here) (after_body body (left_in run.old))) run.old run.new) }
    ensures truth { (W.state world.new).truth ≡ (W.state world.old).truth }
    ensures name { W.name world.new ≡ W.name world.old }
{
    let Ok(came) = nodes(alloc, run, select, site, &body.here, world) else {
        drop(body);
        return Err(Memory);
    };
    match came {
        Came::Is(nodes) => { items_of(alloc, run, site, keys, name, bindings, nodes, body) }
        Came::Halts(why) => {
            drop(body);
            Ok(Next::Halt(why))
        }
        Came::Lacks(name) => {
            let depth = body.here.depth;
            lack(alloc, run, Frame::Body(body), name, depth, &site.place)
        }
    }
}

/// Enters the template of this name for these nodes, with what is passed, once they are sorted.
fn items_of(
    alloc: Global,
    run: &mut Run,
    site: &Site,
    keys: &Rc<Vec<SortKey>>,
    name: &Expanded,
    bindings: &Rc<Vec<Binding>>,
    nodes: Vec<NodeRef>,
    body: Body,
) -> Result<Next, Memory>
    requires { body.next < usize.MAX }
    ensures { IfOk result (λ next. (ask : question.Question NodeRef → question.Answer NodeRef) → let h = here_of body.here in Does ask (Put Ended (contents.passed (made.bindings (map binding_of bindings.now.value.items)) h [] (λ parameters. contents.sorted (map sort_key_of keys.now.value.items) h nodes.items (λ ns. contents.items_entered (site_of site.now).place (contents.template_called name.now h.templates) parameters h.depth ns (after_body body (left_in run.old)))))) (suc (length run.old.frames.items)) run.old run.new next) }
{
    let here = put_rest(run, body)?;
    let bindings = share_bindings(bindings)?;
    let to = to_items(alloc, site, keys, name, nodes, &here)?;
    pass(run, bindings, here, to)
}

/// What is passed to the template of this name for these nodes, once they are sorted.
fn to_items(
    alloc: Global,
    site: &Site,
    keys: &Rc<Vec<SortKey>>,
    name: &Expanded,
    nodes: Vec<NodeRef>,
    here: &Standing,
) -> Result<Passing, Memory>
    ensures { IfOk result (λ to. (parameters : List (Bound NodeRef)) → (after : Plan NodeRef) → passed_to to parameters after ≡ contents.sorted (map sort_key_of keys.now.value.items) (here_of here.now) nodes.items (λ ns. contents.items_entered (site_of site.now).place (contents.template_called name.now (here_of here.now).templates) parameters here.now.depth ns after)) }
{
    let place = copy_place(alloc, &site.place)?;
    let keys = share_keys(keys)?;
    let standing = here.share()?;
    let to = Items {
        place,
        element: template_called(name, here.unit.templates.as_slice()),
        parameters: Bindings::Empty,
        nodes,
        next: 0,
        depth: here.depth,
    };
    Ok(Passing::Items(keys, standing, to))
}

/// xsl:if (XSLT 1.0, section 9.1).
fn when<W: World>(
    alloc: Global,
    run: &mut Run,
    site: &Site,
    test: &Expr,
    content: &Rc<Vec<Instr>>,
    body: Body,
    world: &mut W,
) -> Result<Next, Memory>
    requires { body.next < usize.MAX }
    ensures does { IfOk result (Performs (W.state world.old).truth (Frame.Body body) (contents.planned_control (site_of site.now) (made.conditional (expr_of test.now) (instrs (map instr_of content.now.value.items))) (here_of body.here) (after_body body (left_in run.old))) run.old run.new) }
    ensures truth { (W.state world.new).truth ≡ (W.state world.old).truth }
    ensures name { W.name world.new ≡ W.name world.old }
{
    let Ok(came) = truth(alloc, run, test, site, &body.here, world) else {
        drop(body);
        return Err(Memory);
    };
    match came {
        Came::Is(is_true) => {
            if is_true {
                into_content(alloc, run, site, content, body)
            } else {
                nothing(run, body)
            }
        }
        Came::Halts(why) => {
            drop(body);
            Ok(Next::Halt(why))
        }
        Came::Lacks(name) => {
            let depth = body.here.depth;
            lack(alloc, run, Frame::Body(body), name, depth, &site.place)
        }
    }
}

/// xsl:choose (XSLT 1.0, section 9.2).
fn choose<W: World>(
    alloc: Global,
    run: &mut Run,
    branches: &Rc<Vec<Branch>>,
    body: Body,
    world: &mut W,
) -> Result<Next, Memory>
    requires { body.next < usize.MAX }
    ensures does { IfOk result (Performs (W.state world.old).truth (Frame.Body body) (contents.planned_branches (made.branches (map branch_of branches.now.value.items)) (here_of body.here) (after_body body (left_in run.old))) run.old run.new) }
    ensures truth { (W.state world.new).truth ≡ (W.state world.old).truth }
    ensures name { W.name world.new ≡ W.name world.old }
{
    let here = put_rest(run, body)?;
    let left = Branches {
        branches: share_branches(branches)?,
        next: 0,
        here,
    };
    choose_from(alloc, run, left, world)
}

/// xsl:apply-templates (XSLT 1.0, section 5.4).
fn apply<W: World>(
    alloc: Global,
    run: &mut Run,
    site: &Site,
    selection: &Selection,
    bindings: &Rc<Vec<Binding>>,
    body: Body,
    world: &mut W,
) -> Result<Next, Memory>
    requires { body.next < usize.MAX }
    ensures does { IfOk result (Performs (W.state world.old).truth (Frame.Body body) (contents.planned_control (site_of site.now) (made.apply_templates (selection_of selection.now) (made.bindings (map binding_of bindings.now.value.items))) (here_of body.here) (after_body body (left_in run.old))) run.old run.new) }
    ensures truth { (W.state world.new).truth ≡ (W.state world.old).truth }
    ensures name { W.name world.new ≡ W.name world.old }
{
    let Ok(came) = nodes(alloc, run, &selection.select, site, &body.here, world) else {
        drop(body);
        return Err(Memory);
    };
    match came {
        Came::Is(nodes) => { apply_to(alloc, run, site, selection, bindings, nodes, body) }
        Came::Halts(why) => {
            drop(body);
            Ok(Next::Halt(why))
        }
        Came::Lacks(name) => {
            let depth = body.here.depth;
            lack(alloc, run, Frame::Body(body), name, depth, &site.place)
        }
    }
}

/// Applies template rules to these nodes, with what is passed.
fn apply_to(
    alloc: Global,
    run: &mut Run,
    site: &Site,
    selection: &Selection,
    bindings: &Rc<Vec<Binding>>,
    nodes: Vec<NodeRef>,
    body: Body,
) -> Result<Next, Memory>
    requires { body.next < usize.MAX }
    ensures { IfOk result (λ next. (ask : question.Question NodeRef → question.Answer NodeRef) → let h = here_of body.here in Does ask (Put Ended (contents.passed (made.bindings (map binding_of bindings.now.value.items)) h [] (λ parameters. contents.sorted (map sort_key_of selection.now.keys.value.items) h nodes.items (λ ns. contents.applied_to (site_of site.now).place selection.now.mode parameters h.depth ns (after_body body (left_in run.old)))))) (suc (length run.old.frames.items)) run.old run.new next) }
{
    let here = put_rest(run, body)?;
    let bindings = share_bindings(bindings)?;
    let to = to_rules(alloc, site, selection, nodes, &here)?;
    pass(run, bindings, here, to)
}

/// What is passed to the template rules of these nodes, once they are sorted where there are keys.
fn to_rules(
    alloc: Global,
    site: &Site,
    selection: &Selection,
    nodes: Vec<NodeRef>,
    here: &Standing,
) -> Result<Passing, Memory>
    ensures { IfOk result (λ to. (parameters : List (Bound NodeRef)) → (after : Plan NodeRef) → passed_to to parameters after ≡ contents.sorted (map sort_key_of selection.now.keys.value.items) (here_of here.now) nodes.items (λ ns. contents.applied_to (site_of site.now).place selection.now.mode parameters here.now.depth ns after)) }
{
    if selection.keys.is_empty() {
        let to = application(alloc, site, selection, nodes, here.depth)?;
        return Ok(Passing::Rules(to));
    }
    let keys = share_keys(&selection.keys)?;
    let standing = here.share()?;
    let Ok(to) = application(alloc, site, selection, nodes, here.depth) else {
        drop(standing);
        return Err(Memory);
    };
    Ok(Passing::Sorted(keys, standing, to))
}

/// The template rules of these nodes, all of which are left, and to which nothing is passed yet.
fn application(
    alloc: Global,
    site: &Site,
    selection: &Selection,
    nodes: Vec<NodeRef>,
    depth: u64,
) -> Result<Application, Memory>
    ensures place { IfOk result (λ a. place_of a.place ≡ (site_of site.now).place) }
    ensures mode { IfOk result (λ a. a.mode ≡ selection.now.mode) }
    ensures nodes { IfOk result (λ a. a.nodes ≡ nodes) }
    ensures next { IfOk result (λ a. a.next ≡ 0) }
    ensures depth { IfOk result (λ a. a.depth ≡ depth) }
{
    let place = copy_place(alloc, &site.place)?;
    let mode = copy_name_if(alloc, &selection.mode)?;
    Ok(Application {
        place,
        mode,
        parameters: Bindings::Empty,
        nodes,
        next: 0,
        depth,
    })
}

/// xsl:call-template (XSLT 1.0, section 6). A name that is no template's writes nothing.
fn call(
    alloc: Global,
    run: &mut Run,
    site: &Site,
    name: &Expanded,
    bindings: &Rc<Vec<Binding>>,
    body: Body,
) -> Result<Next, Memory>
    requires { body.next < usize.MAX }
    ensures { IfOk result (λ next. (ask : question.Question NodeRef → question.Answer NodeRef) → Does ask (contents.planned_control (site_of site.now) (made.call_template name.now (made.bindings (map binding_of bindings.now.value.items))) (here_of body.here) (after_body body (left_in run.old))) (suc (length run.old.frames.items)) run.old run.new next) }
{
    match template_called(name, body.here.unit.templates.as_slice()) {
        None => nothing(run, body),
        Some(element) => call_element(alloc, run, site, element, bindings, body),
    }
}

/// The element of the template of this name.
fn template_called(name: &Expanded, templates: &[NamedTemplate]) -> Option<NodeRef>
    ensures { result ≡ contents.template_called name.now (map template_of templates.now) }
{
    for template in templates {
        if template.name.same(name) {
            return Some(template.element);
        }
    }
    None
}

/// Calls the template of this element.
fn call_element(
    alloc: Global,
    run: &mut Run,
    site: &Site,
    element: NodeRef,
    bindings: &Rc<Vec<Binding>>,
    body: Body,
) -> Result<Next, Memory>
    requires { body.next < usize.MAX }
    ensures { IfOk result (λ next. (ask : question.Question NodeRef → question.Answer NodeRef) → Does ask (contents.called (site_of site.now) (here_of body.here) (λ k. contents.passed (made.bindings (map binding_of bindings.now.value.items)) (here_of body.here) [] k) (Some element) (after_body body (left_in run.old))) (suc (length run.old.frames.items)) run.old run.new next) }
{
    let here = put_rest(run, body)?;
    let bindings = share_bindings(bindings)?;
    let by = copy_place(alloc, &site.place)?;
    let focus = here.focus;
    let depth = here.depth;
    let call = Call {
        target: Target::Unit(element),
        node: focus.node,
        parameters: Bindings::Empty,
        position: focus.position,
        size: focus.size,
        ruling: ruling_at(&here),
        by,
    };
    pass(run, bindings, here, Passing::Template(call, depth))
}

/// The current rule of a template that is called here: that of the instantiation where it is the current one.
pub(crate) fn ruling_at(here: &Standing) -> Ruling
    ensures { ruling_of result ≡ (if here.now.ruled then SameRule else RuleIs None) }
{
    if here.ruled {
        Ruling::Same
    } else {
        Ruling::Is(None)
    }
}
