// The variables that contents mention: those that their expressions refer to, whether they are bound inside or outside.
ghost use Rattle.std.specs.Prelude.{◌≡◌, ◌++◌, OnOk, map};
ghost use Rattle.spec_stylesheet.specs.Instruction.{instrs, branches, bindings};
ghost use Rattle.spec_items.specs.Mentioned as definition;
ghost use Rattle.xt_lift.specs.Names.{binding_names, branch_names};
ghost use Rattle.xt_syntax.specs.InstrView.{instr_of, form_of, control_of, branch_of, binding_of};

use crate::expressions::{add_if, add_in};
use crate::parts::{add_in_keys, add_with, add_without};
use std::alloc::Global;
use xt_names::Expanded;
use xt_syntax::{Binding, Branch, Control, Form, Instr};
use xt_text::Memory;

/// Adds those of a content.
#[cycle(mention)]
pub(crate) fn add_mentioned(
    alloc: Global,
    content: &[Instr],
    into: &mut Vec<Expanded>,
) -> Result<(), Memory>
    ensures { OnOk result (into.new.items ≡ into.old.items ++ definition.mentioned_in (instrs (map instr_of content.now))) }
{
    for instr in content {
        in_form(alloc, &instr.form, into)?;
    }
    Ok(())
}

#[cycle(mention)]
fn in_form(alloc: Global, form: &Form, into: &mut Vec<Expanded>) -> Result<(), Memory>
    ensures { OnOk result (into.new.items ≡ into.old.items ++ definition.mentioned_by (form_of form.now)) }
{
    match form {
        Form::WithoutContent(what) => add_without(alloc, what, into),
        Form::WithContent(what, content) => {
            add_with(alloc, what, into)?;
            add_mentioned(alloc, content.as_slice(), into)
        }
        Form::Control(control) => in_control(alloc, control, into),
    }
}

#[cycle(mention)]
fn in_control(alloc: Global, control: &Control, into: &mut Vec<Expanded>) -> Result<(), Memory>
    ensures { OnOk result (into.new.items ≡ into.old.items ++ definition.mentioned_under (control_of control.now)) }
{
    match control {
        Control::ForEach(select, keys, content) => {
            add_in(alloc, select, into)?;
            add_in_keys(alloc, keys.as_slice(), into)?;
            add_mentioned(alloc, content.as_slice(), into)
        }
        Control::ForItems(select, keys, _, bindings) => {
            add_in(alloc, select, into)?;
            add_in_keys(alloc, keys.as_slice(), into)?;
            in_bindings(alloc, bindings.as_slice(), into)
        }
        Control::If(test, content) => {
            add_in(alloc, test, into)?;
            add_mentioned(alloc, content.as_slice(), into)
        }
        Control::Choose(branches) => in_branches(alloc, branches.as_slice(), into),
        Control::ApplyTemplates(selection, bindings) => {
            add_in(alloc, &selection.select, into)?;
            in_bindings(alloc, bindings.as_slice(), into)?;
            add_in_keys(alloc, selection.keys.as_slice(), into)
        }
        Control::CallTemplate(_, bindings) => in_bindings(alloc, bindings.as_slice(), into),
    }
}

#[cycle(mention)]
fn in_branches(alloc: Global, list: &[Branch], into: &mut Vec<Expanded>) -> Result<(), Memory>
    ensures { OnOk result (into.new.items ≡ into.old.items ++ definition.mentioned_in_branches (branches (map branch_of list.now))) }
{
    for branch in list {
        in_branch(alloc, branch, into)?;
    }
    Ok(())
}

#[cycle(mention)]
fn in_branch(alloc: Global, branch: &Branch, into: &mut Vec<Expanded>) -> Result<(), Memory>
    ensures { OnOk result (into.new.items ≡ into.old.items ++ branch_names (branch_of branch.now)) }
{
    add_if(alloc, &branch.test, into)?;
    add_mentioned(alloc, branch.content.as_slice(), into)
}

#[cycle(mention)]
fn in_bindings(alloc: Global, list: &[Binding], into: &mut Vec<Expanded>) -> Result<(), Memory>
    ensures { OnOk result (into.new.items ≡ into.old.items ++ definition.mentioned_in_bindings (bindings (map binding_of list.now))) }
{
    for binding in list {
        in_binding(alloc, binding, into)?;
    }
    Ok(())
}

#[cycle(mention)]
fn in_binding(alloc: Global, binding: &Binding, into: &mut Vec<Expanded>) -> Result<(), Memory>
    ensures { OnOk result (into.new.items ≡ into.old.items ++ binding_names (binding_of binding.now)) }
{
    add_if(alloc, &binding.select, into)?;
    add_mentioned(alloc, binding.content.as_slice(), into)
}
