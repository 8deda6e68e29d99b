// Instructions, by their attributes and their children.
ghost use Rattle.std.specs.Prelude.{◌≡◌, ◌∷◌, [], IfOk};
ghost use Rattle.spec_compile.specs.Content as spec;
ghost use Rattle.xt_syntax.specs.InstrView as trees;
ghost use Rattle.xt_syntax.specs.PartView.{made_name_of, site_of, with_content_of, without_content_of};
ghost use Rattle.xt_attributes.specs.View.{entries_in};
ghost use Rattle.xt_content.specs.Kind as kinds;
ghost use Rattle.xt_content.specs.View.{child_in, child_if, children_in, parts_in};
ghost use Rattle.xt_tree.specs.View.{forest_of};

use crate::binding::{binding_of, branch_of, sort_key_of};
use crate::child::{Child, Parts, content_in, parted};
use crate::kind::{Container, Director, Kind, Simple, kind_of};
use crate::numbering::numbering;
use crate::text::text_among;
use crate::value::{
    avt_at, expr_at, is_text_at, name_at, names_at, or_children, take_avt, take_expr, take_name,
};
use spec_structure::XsltElement;
use std::alloc::Global;
use std::rc::Rc;
use xt_attributes::Entries;
use xt_syntax::{Control, Form, Instr, MadeName, Selection, Site, WithContent, WithoutContent};
use xt_text::Memory;
use xt_tree::Node;

// ---- Instructions without a content

fn simple(
    alloc: Global,
    kind: Simple,
    entries: &mut Entries,
    nodes: &[Rc<Node>],
) -> Result<WithoutContent, Memory>
    ensures { IfOk result (λ w. without_content_of w ≡ kinds.simple_of kind (entries_in entries.old) (spec.text_among (forest_of nodes.now))) }
{
    match kind {
        Simple::ValueOf => Ok(WithoutContent::ValueOf(expr_at(alloc, entries, "select")?)),
        Simple::CopyOf => Ok(WithoutContent::CopyOf(expr_at(alloc, entries, "select")?)),
        Simple::Number => Ok(WithoutContent::Number(numbering(alloc, entries)?)),
        Simple::ApplyImports => Ok(WithoutContent::ApplyImports),
        Simple::Fallback => Ok(WithoutContent::Fallback),
        Simple::Text => Ok(WithoutContent::Text(text_among(alloc, nodes)?, true)),
    }
}

// ---- Instructions that make something of their content

fn made_name(alloc: Global, entries: &mut Entries) -> Result<MadeName, Memory>
    ensures { IfOk result (λ n. made_name_of n ≡ spec.made_name (entries_in entries.old)) }
{
    let name = avt_at(alloc, entries, "name", "")?;
    let namespace = take_avt(entries, "namespace");
    Ok(MadeName { name, namespace })
}

fn element(alloc: Global, entries: &mut Entries) -> Result<WithContent, Memory>
    ensures { IfOk result (λ w. with_content_of w ≡ kinds.container_of kinds.an_element (entries_in entries.old)) }
{
    let sets = names_at(alloc, entries, "use-attribute-sets");
    let name = made_name(alloc, entries)?;
    Ok(WithContent::Element(name, sets))
}

fn variable(alloc: Global, entries: &mut Entries) -> WithContent
    ensures { with_content_of result ≡ kinds.container_of kinds.a_variable (entries_in entries.old) }
{
    let name = name_at(alloc, entries, "name");
    let select = take_expr(entries, "select");
    WithContent::Variable(name, select)
}

fn container(alloc: Global, kind: Container, entries: &mut Entries) -> Result<WithContent, Memory>
    ensures { IfOk result (λ w. with_content_of w ≡ kinds.container_of kind (entries_in entries.old)) }
{
    match kind {
        Container::Element => element(alloc, entries),
        Container::Attribute => Ok(WithContent::Attribute(made_name(alloc, entries)?)),
        Container::Comment => Ok(WithContent::Comment),
        Container::ProcessingInstruction => {
            let target = avt_at(alloc, entries, "name", "")?;
            Ok(WithContent::ProcessingInstruction(target))
        }
        Container::Copy => Ok(WithContent::Copy(names_at(alloc, entries, "use-attribute-sets"))),
        Container::Variable => Ok(variable(alloc, entries)),
        Container::Message => Ok(WithContent::Message(is_text_at(entries, "terminate", "yes"))),
    }
}

// ---- Instructions that say whether, how often or which contents run

fn for_each(alloc: Global, entries: &mut Entries, parts: Parts) -> Result<Control, Memory>
    ensures { IfOk result (λ c. trees.control_of c ≡ kinds.director_of kinds.a_for_each (entries_in entries.old) (parts_in parts)) }
{
    let Parts {
        content,
        parameters,
        sort_keys,
        branches,
    } = parts;
    drop(parameters);
    drop(branches);
    let keys = Rc::new(alloc, sort_keys)?;
    let content = Rc::new(alloc, content)?;
    let select = expr_at(alloc, entries, "select")?;
    Ok(Control::ForEach(select, keys, content))
}

fn conditional(alloc: Global, entries: &mut Entries, parts: Parts) -> Result<Control, Memory>
    ensures { IfOk result (λ c. trees.control_of c ≡ kinds.director_of kinds.an_if (entries_in entries.old) (parts_in parts)) }
{
    let content = Rc::new(alloc, parts.content)?;
    let test = expr_at(alloc, entries, "test")?;
    Ok(Control::If(test, content))
}

fn choose(alloc: Global, parts: Parts) -> Result<Control, Memory>
    ensures { IfOk result (λ c. trees.control_of c ≡ kinds.director_of kinds.a_choose [] (parts_in parts)) }
{
    let branches = Rc::new(alloc, parts.branches)?;
    Ok(Control::Choose(branches))
}

fn apply_templates(alloc: Global, entries: &mut Entries, parts: Parts) -> Result<Control, Memory>
    ensures { IfOk result (λ c. trees.control_of c ≡ kinds.director_of kinds.an_apply_templates (entries_in entries.old) (parts_in parts)) }
{
    let Parts {
        content,
        parameters,
        sort_keys,
        branches,
    } = parts;
    drop(content);
    drop(branches);
    let keys = Rc::new(alloc, sort_keys)?;
    let parameters = Rc::new(alloc, parameters)?;
    let select = or_children(alloc, take_expr(entries, "select"))?;
    let mode = take_name(entries, "mode");
    let selection = Selection { select, mode, keys };
    Ok(Control::ApplyTemplates(selection, parameters))
}

fn call_template(alloc: Global, entries: &mut Entries, parts: Parts) -> Result<Control, Memory>
    ensures { IfOk result (λ c. trees.control_of c ≡ kinds.director_of kinds.a_call_template (entries_in entries.old) (parts_in parts)) }
{
    let parameters = Rc::new(alloc, parts.parameters)?;
    let name = name_at(alloc, entries, "name");
    Ok(Control::CallTemplate(name, parameters))
}

fn director(
    alloc: Global,
    kind: Director,
    entries: &mut Entries,
    parts: Parts,
) -> Result<Control, Memory>
    ensures { IfOk result (λ c. trees.control_of c ≡ kinds.director_of kind (entries_in entries.old) (parts_in parts)) }
{
    match kind {
        Director::ForEach => for_each(alloc, entries, parts),
        Director::If => conditional(alloc, entries, parts),
        Director::Choose => choose(alloc, parts),
        Director::ApplyTemplates => apply_templates(alloc, entries, parts),
        Director::CallTemplate => call_template(alloc, entries, parts),
    }
}

// ---- What an element is to the element that holds it

pub(crate) fn instruction(site: Site, form: Form) -> Child
    ensures { child_in result ≡ spec.AnInstruction (record { site = site_of site; form = trees.form_of form }) }
{
    Child::Instruction(Instr { site, form })
}

fn simple_child(
    alloc: Global,
    kind: Simple,
    site: Site,
    entries: &mut Entries,
    nodes: &[Rc<Node>],
) -> Result<Option<Child>, Memory>
    ensures { IfOk result (λ c. child_if c ≡ kinds.simple_child kind (site_of site) (entries_in entries.old) (spec.text_among (forest_of nodes.now)) ∷ []) }
{
    let Ok(what) = simple(alloc, kind, entries, nodes) else {
        drop(site);
        return Err(Memory);
    };
    Ok(Some(instruction(site, Form::WithoutContent(what))))
}

fn container_child(
    alloc: Global,
    kind: Container,
    site: Site,
    entries: &mut Entries,
    children: Vec<Child>,
) -> Result<Option<Child>, Memory>
    ensures { IfOk result (λ c. child_if c ≡ kinds.container_child kind (site_of site) (entries_in entries.old) (children_in children.items) ∷ []) }
{
    let Ok(content) = content_in(alloc, children) else {
        drop(site);
        return Err(Memory);
    };
    let Ok(what) = container(alloc, kind, entries) else {
        drop(site);
        return Err(Memory);
    };
    Ok(Some(instruction(site, Form::WithContent(what, content))))
}

fn director_child(
    alloc: Global,
    kind: Director,
    site: Site,
    entries: &mut Entries,
    children: Vec<Child>,
) -> Result<Option<Child>, Memory>
    ensures { IfOk result (λ c. child_if c ≡ kinds.director_child kind (site_of site) (entries_in entries.old) (children_in children.items) ∷ []) }
{
    let Ok(parts) = parted(alloc, children) else {
        drop(site);
        return Err(Memory);
    };
    let Ok(control) = director(alloc, kind, entries, parts) else {
        drop(site);
        return Err(Memory);
    };
    Ok(Some(instruction(site, Form::Control(control))))
}

// What an element of this kind is, around these nodes.
fn child_by(
    alloc: Global,
    kind: Kind,
    site: Site,
    entries: &mut Entries,
    nodes: &[Rc<Node>],
    children: Vec<Child>,
) -> Result<Option<Child>, Memory>
    ensures { IfOk result (λ c. child_if c ≡ kinds.child_by kind (site_of site) (entries_in entries.old) (spec.text_among (forest_of nodes.now)) (children_in children.items)) }
{
    match kind {
        Kind::Parameter => Ok(Some(Child::Parameter(binding_of(alloc, site, entries, children)?))),
        Kind::SortKey => {
            drop(children);
            sort_key_of(alloc, site, entries)
        }
        Kind::When => {
            let test = take_expr(entries, "test");
            branch_of(alloc, site, test, children)
        }
        Kind::Otherwise => branch_of(alloc, site, None, children),
        Kind::Simple(kind) => {
            drop(children);
            simple_child(alloc, kind, site, entries, nodes)
        }
        Kind::Container(kind) => container_child(alloc, kind, site, entries, children),
        Kind::Director(kind) => director_child(alloc, kind, site, entries, children),
        Kind::Nothing => {
            drop(site);
            drop(children);
            Ok(None)
        }
    }
}

/// What an element of XSLT is, around these nodes.
pub(crate) fn child_of(
    alloc: Global,
    element: XsltElement,
    site: Site,
    entries: &mut Entries,
    nodes: &[Rc<Node>],
    children: Vec<Child>,
) -> Result<Option<Child>, Memory>
    ensures { IfOk result (λ c. child_if c ≡ spec.child_of element (site_of site) (entries_in entries.old) (spec.text_among (forest_of nodes.now)) (children_in children.items)) }
{
    child_by(alloc, kind_of(element), site, entries, nodes, children)
}
