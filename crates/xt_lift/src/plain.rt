// Whether nothing in a content is lifted already, and it calls no template of a content. Nothing takes memory here.
ghost use Rattle.std.specs.Prelude.{◌≡◌, map};
ghost use Rattle.std.specs.List.{list_all};
ghost use Rattle.spec_stylesheet.specs.Instruction.{instrs, branches, bindings};
ghost use Rattle.spec_items.specs.Liftable as definition;
ghost use Rattle.xt_syntax.specs.InstrView.{instr_of, form_of, control_of, branch_of, binding_of};
ghost use Rattle.xt_syntax.specs.SheetView.{declared_of, unit_of};

use xt_names::Expanded;
use xt_syntax::{Binding, Branch, Control, Declared, Form, Instr, Unit};

/// Whether it is so of all these units.
pub(crate) fn are_plain(units: &[Unit]) -> bool
    ensures { result ≡ list_all (λ u. definition.is_plain_declared u.declared) (map unit_of units.now) }
{
    for unit in units {
        if !is_plain_declared(&unit.declared) {
            return false;
        }
    }
    true
}

fn is_plain_declared(declared: &Declared) -> bool
    ensures { result ≡ definition.is_plain_declared (declared_of declared.now) }
{
    match declared {
        Declared::Template(template) => {
            are_plain_bindings(template.parameters.as_slice())
                && is_plain(template.content.as_slice())
        }
        Declared::Global(global) => is_plain(global.binding.content.as_slice()),
        Declared::AttributeSet(set) => is_plain(set.attributes.as_slice()),
        Declared::Key(_) => true,
    }
}

#[cycle(plain)]
fn is_plain(content: &[Instr]) -> bool
    ensures { result ≡ definition.is_plain (instrs (map instr_of content.now)) }
{
    for instr in content {
        if !is_plain_form(&instr.form) {
            return false;
        }
    }
    true
}

#[cycle(plain)]
fn is_plain_form(form: &Form) -> bool
    ensures { result ≡ definition.is_plain_form (form_of form.now) }
{
    match form {
        Form::WithoutContent(_) => true,
        Form::WithContent(_, content) => is_plain(content.as_slice()),
        Form::Control(control) => is_plain_control(control),
    }
}

#[cycle(plain)]
fn is_plain_control(control: &Control) -> bool
    ensures { result ≡ definition.is_plain_control (control_of control.now) }
{
    match control {
        Control::ForEach(_, _, content) => is_plain(content.as_slice()),
        Control::ForItems(_, _, _, _) => false,
        Control::If(_, content) => is_plain(content.as_slice()),
        Control::Choose(branches) => are_plain_branches(branches.as_slice()),
        Control::ApplyTemplates(_, bindings) => are_plain_bindings(bindings.as_slice()),
        Control::CallTemplate(name, bindings) => {
            !is_reserved(name) && are_plain_bindings(bindings.as_slice())
        }
    }
}

#[cycle(plain)]
fn are_plain_branches(list: &[Branch]) -> bool
    ensures { result ≡ definition.are_plain_branches (branches (map branch_of list.now)) }
{
    for branch in list {
        if !is_plain(branch.content.as_slice()) {
            return false;
        }
    }
    true
}

#[cycle(plain)]
fn are_plain_bindings(list: &[Binding]) -> bool
    ensures { result ≡ definition.are_plain_bindings (bindings (map binding_of list.now)) }
{
    for binding in list {
        if !is_plain(binding.content.as_slice()) {
            return false;
        }
    }
    true
}

// Whether it is such a name as templates of contents have.
fn is_reserved(name: &Expanded) -> bool
    ensures { result ≡ definition.is_reserved name.now }
{
    match name.uri().as_str().chars().next() {
        None => false,
        Some(first) => first == '\0',
    }
}
