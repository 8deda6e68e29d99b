// Whether an xsl:for-each stands in a content. Nothing takes memory here.
ghost use Rattle.std.specs.Prelude.{◌≡◌, map};
ghost use Rattle.spec_stylesheet.specs.Instruction.{instrs, branches, bindings};
ghost use Rattle.xt_lift.specs.Loops as definition;
ghost use Rattle.xt_syntax.specs.InstrView.{instr_of, form_of, control_of, branch_of, binding_of};

use xt_syntax::{Binding, Branch, Control, Form, Instr};

/// Whether one stands in this content.
#[cycle(has)]
pub(crate) fn has_loop(content: &[Instr]) -> bool
    ensures { result ≡ definition.has_loop (instrs (map instr_of content.now)) }
{
    for instr in content {
        if in_form(&instr.form) {
            return true;
        }
    }
    false
}

#[cycle(has)]
fn in_form(form: &Form) -> bool
    ensures { result ≡ definition.has_loop_by (form_of form.now) }
{
    match form {
        Form::WithoutContent(_) => false,
        Form::WithContent(_, content) => has_loop(content.as_slice()),
        Form::Control(control) => in_control(control),
    }
}

#[cycle(has)]
fn in_control(control: &Control) -> bool
    ensures { result ≡ definition.has_loop_under (control_of control.now) }
{
    match control {
        Control::ForEach(_, _, _) => true,
        Control::ForItems(_, _, _, bindings) => in_bindings(bindings.as_slice()),
        Control::If(_, content) => has_loop(content.as_slice()),
        Control::Choose(branches) => in_branches(branches.as_slice()),
        Control::ApplyTemplates(_, bindings) => in_bindings(bindings.as_slice()),
        Control::CallTemplate(_, bindings) => in_bindings(bindings.as_slice()),
    }
}

#[cycle(has)]
fn in_branches(list: &[Branch]) -> bool
    ensures { result ≡ definition.has_loop_in_branches (branches (map branch_of list.now)) }
{
    for branch in list {
        if has_loop(branch.content.as_slice()) {
            return true;
        }
    }
    false
}

#[cycle(has)]
fn in_bindings(list: &[Binding]) -> bool
    ensures { result ≡ definition.has_loop_passed (bindings (map binding_of list.now)) }
{
    for binding in list {
        if has_loop(binding.content.as_slice()) {
            return true;
        }
    }
    false
}
