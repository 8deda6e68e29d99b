// What is left of contents whose xsl:for-each elements are lifted, and the templates of these.
ghost use Rattle.std.specs.Prelude.{◌≡◌, ◌++◌, IfOk, OnOk, map};
ghost use Rattle.spec_stylesheet.specs.Instruction.{instrs, branches, bindings};
ghost use Rattle.spec_items.specs.Lifted as lifted;
ghost use Rattle.xt_lift.specs.Left as spec;
ghost use Rattle.xt_syntax.specs.InstrView.{instr_of, form_of, control_of, branch_of, binding_of};
ghost use Rattle.xt_syntax.specs.PartView.{site_of, sort_key_of};
ghost use Rattle.xt_syntax.specs.SheetView.{unit_of};
ghost use Rattle.xt_syntax.specs.View.{expr_of};

use crate::bindings::passed_for;
use crate::copies::{
    copy_expr, copy_if, copy_names, copy_selection, copy_site, copy_sort_keys, copy_with_content,
    copy_without_content,
};
use crate::item::{item_unit, share_content};
use crate::item_name::item_name;
use crate::loops::has_loop;
use crate::scope::{bring, free_in};
use std::alloc::Global;
use std::rc::Rc;
use xt_names::{Expanded, copy_name};
use xt_syntax::{Binding, Branch, Control, Expr, Form, Instr, Site, SortKey, Unit};
use xt_text::Memory;

/// What is left of a content where these local variables are in scope. It is the content itself, shared, where no
/// xsl:for-each stands in it. The templates of those in it are added at the end of the units, each before those of the
/// contents inside it.
#[cycle(left)]
pub(crate) fn left_content(
    alloc: Global,
    precedence: u64,
    scope: &[Expanded],
    content: &Rc<Vec<Instr>>,
    units: &mut Vec<Unit>,
) -> Result<Rc<Vec<Instr>>, Memory>
    ensures left { IfOk result (λ c. instrs (map instr_of c.value.items) ≡ lifted.left_in scope.now (instrs (map instr_of content.now.value.items))) }
    ensures units { OnOk result (map unit_of units.new.items ≡ map unit_of units.old.items ++ lifted.items_in precedence scope.now (instrs (map instr_of content.now.value.items))) }
{
    if !has_loop(content.as_slice()) {
        return share_content(content);
    }
    let left = left_instrs(alloc, precedence, scope, content.as_slice(), units)?;
    Ok(Rc::new(alloc, left)?)
}

#[cycle(left)]
fn left_instrs(
    alloc: Global,
    precedence: u64,
    scope: &[Expanded],
    content: &[Instr],
    units: &mut Vec<Unit>,
) -> Result<Vec<Instr>, Memory>
    ensures left { IfOk result (λ c. instrs (map instr_of c.items) ≡ lifted.left_in scope.now (instrs (map instr_of content.now))) }
    ensures units { OnOk result (map unit_of units.new.items ≡ map unit_of units.old.items ++ lifted.items_in precedence scope.now (instrs (map instr_of content.now))) }
{
    let mut known = copy_names(alloc, scope)?;
    let mut left = Vec::new(alloc);
    for instr in content {
        left.push(left_instr(alloc, precedence, known.as_slice(), instr, units)?)?;
        bring(alloc, &instr.form, &mut known)?;
    }
    Ok(left)
}

#[cycle(left)]
fn left_instr(
    alloc: Global,
    precedence: u64,
    scope: &[Expanded],
    instr: &Instr,
    units: &mut Vec<Unit>,
) -> Result<Instr, Memory>
    ensures left { IfOk result (λ i. instr_of i ≡ spec.left_instr scope.now (instr_of instr.now)) }
    ensures units { OnOk result (map unit_of units.new.items ≡ map unit_of units.old.items ++ spec.items_in_instr precedence scope.now (instr_of instr.now)) }
{
    let site = copy_site(alloc, &instr.site)?;
    let form = left_form(alloc, precedence, scope, &instr.site, &instr.form, units)?;
    Ok(Instr { site, form })
}

#[cycle(left)]
fn left_form(
    alloc: Global,
    precedence: u64,
    scope: &[Expanded],
    site: &Site,
    form: &Form,
    units: &mut Vec<Unit>,
) -> Result<Form, Memory>
    ensures left { IfOk result (λ f. form_of f ≡ lifted.left_by scope.now (site_of site.now) (form_of form.now)) }
    ensures units { OnOk result (map unit_of units.new.items ≡ map unit_of units.old.items ++ lifted.items_by precedence scope.now (site_of site.now) (form_of form.now)) }
{
    match form {
        Form::WithoutContent(what) => Ok(Form::WithoutContent(copy_without_content(alloc, what)?)),
        Form::WithContent(what, content) => {
            let left = left_content(alloc, precedence, scope, content, units)?;
            let what = copy_with_content(alloc, what)?;
            Ok(Form::WithContent(what, left))
        }
        Form::Control(control) => {
            let left = left_control(alloc, precedence, scope, site, control, units)?;
            Ok(Form::Control(left))
        }
    }
}

#[cycle(left)]
fn left_control(
    alloc: Global,
    precedence: u64,
    scope: &[Expanded],
    site: &Site,
    control: &Control,
    units: &mut Vec<Unit>,
) -> Result<Control, Memory>
    ensures left { IfOk result (λ c. control_of c ≡ lifted.left_under scope.now (site_of site.now) (control_of control.now)) }
    ensures units { OnOk result (map unit_of units.new.items ≡ map unit_of units.old.items ++ lifted.items_under precedence scope.now (site_of site.now) (control_of control.now)) }
{
    match control {
        Control::ForEach(select, keys, content) => {
            let free = free_in(alloc, scope, content.as_slice())?;
            lift(alloc, precedence, site, free.as_slice(), content, units)?;
            items_left(alloc, site, select, keys, free.as_slice())
        }
        Control::ForItems(select, keys, name, bindings) => {
            let bindings = left_bindings(alloc, precedence, scope, bindings, units)?;
            let keys = copy_sort_keys(keys)?;
            let name = copy_name(alloc, name)?;
            let select = copy_expr(alloc, select)?;
            Ok(Control::ForItems(select, keys, name, bindings))
        }
        Control::If(test, content) => {
            let left = left_content(alloc, precedence, scope, content, units)?;
            let test = copy_expr(alloc, test)?;
            Ok(Control::If(test, left))
        }
        Control::Choose(branches) => {
            let left = left_branches(alloc, precedence, scope, branches.as_slice(), units)?;
            Ok(Control::Choose(Rc::new(alloc, left)?))
        }
        Control::ApplyTemplates(selection, bindings) => {
            let bindings = left_bindings(alloc, precedence, scope, bindings, units)?;
            let selection = copy_selection(alloc, selection)?;
            Ok(Control::ApplyTemplates(selection, bindings))
        }
        Control::CallTemplate(name, bindings) => {
            let bindings = left_bindings(alloc, precedence, scope, bindings, units)?;
            let name = copy_name(alloc, name)?;
            Ok(Control::CallTemplate(name, bindings))
        }
    }
}

// Adds the template of the content of an xsl:for-each, which mentions these variables, and those of the contents in it.
#[cycle(left)]
fn lift(
    alloc: Global,
    precedence: u64,
    site: &Site,
    free: &[Expanded],
    content: &Rc<Vec<Instr>>,
    units: &mut Vec<Unit>,
) -> Result<(), Memory>
    ensures { OnOk result (map unit_of units.new.items ≡ map unit_of units.old.items ++ spec.lifted_items precedence (site_of site.now) free.now (instrs (map instr_of content.now.value.items))) }
{
    let mut inside = Vec::new(alloc);
    let left = left_content(alloc, precedence, free, content, &mut inside)?;
    let unit = item_unit(alloc, precedence, site, free, left)?;
    units.push(unit)?;
    units.append(&mut inside)?;
    Ok(())
}

// What is left of an xsl:for-each whose content mentions these variables.
fn items_left(
    alloc: Global,
    site: &Site,
    select: &Expr,
    keys: &Rc<Vec<SortKey>>,
    free: &[Expanded],
) -> Result<Control, Memory>
    ensures { IfOk result (λ c. control_of c ≡ spec.items_left (site_of site.now) (expr_of select.now) (map sort_key_of keys.now.value.items) free.now) }
{
    let passed = passed_for(alloc, site, free)?;
    let keys = copy_sort_keys(keys)?;
    let name = item_name(alloc, &site.place)?;
    let select = copy_expr(alloc, select)?;
    Ok(Control::ForItems(select, keys, name, passed))
}

#[cycle(left)]
fn left_branches(
    alloc: Global,
    precedence: u64,
    scope: &[Expanded],
    list: &[Branch],
    units: &mut Vec<Unit>,
) -> Result<Vec<Branch>, Memory>
    ensures left { IfOk result (λ c. branches (map branch_of c.items) ≡ lifted.left_in_branches scope.now (branches (map branch_of list.now))) }
    ensures units { OnOk result (map unit_of units.new.items ≡ map unit_of units.old.items ++ lifted.items_in_branches precedence scope.now (branches (map branch_of list.now))) }
{
    let mut left = Vec::new(alloc);
    for branch in list {
        left.push(left_branch(alloc, precedence, scope, branch, units)?)?;
    }
    Ok(left)
}

#[cycle(left)]
fn left_branch(
    alloc: Global,
    precedence: u64,
    scope: &[Expanded],
    branch: &Branch,
    units: &mut Vec<Unit>,
) -> Result<Branch, Memory>
    ensures left { IfOk result (λ b. branch_of b ≡ spec.left_branch scope.now (branch_of branch.now)) }
    ensures units { OnOk result (map unit_of units.new.items ≡ map unit_of units.old.items ++ lifted.items_in precedence scope.now (branch_of branch.now).content) }
{
    let content = left_content(alloc, precedence, scope, &branch.content, units)?;
    let site = copy_site(alloc, &branch.site)?;
    let test = copy_if(alloc, &branch.test)?;
    Ok(Branch {
        site,
        test,
        content,
    })
}

#[cycle(left)]
fn left_bindings(
    alloc: Global,
    precedence: u64,
    scope: &[Expanded],
    list: &Rc<Vec<Binding>>,
    units: &mut Vec<Unit>,
) -> Result<Rc<Vec<Binding>>, Memory>
    ensures left { IfOk result (λ c. bindings (map binding_of c.value.items) ≡ lifted.left_passed scope.now (bindings (map binding_of list.now.value.items))) }
    ensures units { OnOk result (map unit_of units.new.items ≡ map unit_of units.old.items ++ lifted.items_in_passed precedence scope.now (bindings (map binding_of list.now.value.items))) }
{
    let left = left_all(alloc, precedence, scope, list.as_slice(), units)?;
    Ok(Rc::new(alloc, left)?)
}

#[cycle(left)]
fn left_all(
    alloc: Global,
    precedence: u64,
    scope: &[Expanded],
    list: &[Binding],
    units: &mut Vec<Unit>,
) -> Result<Vec<Binding>, Memory>
    ensures left { IfOk result (λ c. bindings (map binding_of c.items) ≡ lifted.left_passed scope.now (bindings (map binding_of list.now))) }
    ensures units { OnOk result (map unit_of units.new.items ≡ map unit_of units.old.items ++ lifted.items_in_passed precedence scope.now (bindings (map binding_of list.now))) }
{
    let mut left = Vec::new(alloc);
    for binding in list {
        left.push(left_binding(alloc, precedence, scope, binding, units)?)?;
    }
    Ok(left)
}

/// What is left of a parameter, or of what is passed.
#[cycle(left)]
pub(crate) fn left_binding(
    alloc: Global,
    precedence: u64,
    scope: &[Expanded],
    binding: &Binding,
    units: &mut Vec<Unit>,
) -> Result<Binding, Memory>
    ensures left { IfOk result (λ b. binding_of b ≡ spec.left_binding scope.now (binding_of binding.now)) }
    ensures units { OnOk result (map unit_of units.new.items ≡ map unit_of units.old.items ++ lifted.items_in precedence scope.now (binding_of binding.now).content) }
{
    let content = left_content(alloc, precedence, scope, &binding.content, units)?;
    let site = copy_site(alloc, &binding.site)?;
    let name = copy_name(alloc, &binding.name)?;
    let select = copy_if(alloc, &binding.select)?;
    Ok(Binding {
        site,
        name,
        select,
        content,
    })
}
