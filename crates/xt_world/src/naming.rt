// The named templates that the contents of a unit call, and the attribute sets that they use by name (XSLT 1.0, section
// 7.1.4), each in their order. Both are gathered in one walk.
ghost use Rattle.std.specs.Prelude.{◌≡◌, ◌++◌, ◌∷◌, [], map, IfOk, OnOk};
ghost use Rattle.spec_stylesheet.specs.Instruction.{instrs, branches, bindings};
ghost use Rattle.spec_run.specs.World as definition;
ghost use Rattle.xt_syntax.specs.InstrView.{instr_of, form_of, control_of, branch_of, binding_of};
ghost use Rattle.xt_syntax.specs.PartView.{with_content_of};
ghost use Rattle.xt_syntax.specs.SheetView.{declared_of};

use std::alloc::Global;
use xt_names::{Expanded, copy_name};
use xt_syntax::{Binding, Branch, Control, Declared, Form, Instr, WithContent};
use xt_text::Memory;

/// Names that stand in a unit.
#[derive(Drop)]
pub struct Names {
    /// Of the templates that it calls.
    pub called: Vec<Expanded>,
    /// Of the attribute sets that it uses.
    pub used: Vec<Expanded>,
}

/// The names of the templates that a unit calls, and of the attribute sets that it uses.
pub fn names_in(alloc: Global, declared: &Declared) -> Result<Names, Memory>
    ensures called { IfOk result (λ names. names.called.items ≡ definition.called_in_unit (declared_of declared.now)) }
    ensures used { IfOk result (λ names. names.used.items ≡ definition.used_in_unit (declared_of declared.now)) }
{
    let mut names = Names {
        called: Vec::new(alloc),
        used: Vec::new(alloc),
    };
    in_unit(alloc, declared, &mut names)?;
    Ok(names)
}

// Adds those of a unit. Of an attribute set those that it names itself come first.
fn in_unit(alloc: Global, declared: &Declared, names: &mut Names) -> Result<(), Memory>
    ensures called { OnOk result (names.new.called.items ≡ names.old.called.items ++ definition.called_in_unit (declared_of declared.now)) }
    ensures used { OnOk result (names.new.used.items ≡ names.old.used.items ++ definition.used_in_unit (declared_of declared.now)) }
{
    match declared {
        Declared::Template(template) => {
            in_bindings(alloc, template.parameters.as_slice(), names)?;
            in_content(alloc, template.content.as_slice(), names)
        }
        Declared::Global(global) => { in_content(alloc, global.binding.content.as_slice(), names) }
        Declared::AttributeSet(set) => {
            add_all(alloc, set.sets.as_slice(), &mut names.used)?;
            in_content(alloc, set.attributes.as_slice(), names)
        }
        Declared::Key(_) => Ok(()),
    }
}

fn add_name(alloc: Global, name: &Expanded, names: &mut Vec<Expanded>) -> Result<(), Memory>
    ensures { OnOk result (names.new.items ≡ names.old.items ++ name.now ∷ []) }
{
    let name = copy_name(alloc, name)?;
    names.push(name)?;
    Ok(())
}

fn add_all(alloc: Global, list: &[Expanded], names: &mut Vec<Expanded>) -> Result<(), Memory>
    ensures { OnOk result (names.new.items ≡ names.old.items ++ list.now) }
{
    for name in list {
        add_name(alloc, name, names)?;
    }
    Ok(())
}

// Adds the attribute sets that an instruction names itself.
fn add_own(alloc: Global, what: &WithContent, names: &mut Vec<Expanded>) -> Result<(), Memory>
    ensures { OnOk result (names.new.items ≡ names.old.items ++ definition.sets_by (with_content_of what.now)) }
{
    match what {
        WithContent::Literal(tag) => add_all(alloc, tag.sets.as_slice(), names),
        WithContent::Element(_, sets) => add_all(alloc, sets.as_slice(), names),
        WithContent::Copy(sets) => add_all(alloc, sets.as_slice(), names),
        _ => Ok(()),
    }
}

#[cycle(naming)]
fn in_content(alloc: Global, content: &[Instr], names: &mut Names) -> Result<(), Memory>
    ensures called { OnOk result (names.new.called.items ≡ names.old.called.items ++ definition.called_in (instrs (map instr_of content.now))) }
    ensures used { OnOk result (names.new.used.items ≡ names.old.used.items ++ definition.used_in (instrs (map instr_of content.now))) }
{
    for instr in content {
        in_form(alloc, &instr.form, names)?;
    }
    Ok(())
}

#[cycle(naming)]
fn in_form(alloc: Global, form: &Form, names: &mut Names) -> Result<(), Memory>
    ensures called { OnOk result (names.new.called.items ≡ names.old.called.items ++ definition.called_by (form_of form.now)) }
    ensures used { OnOk result (names.new.used.items ≡ names.old.used.items ++ definition.used_by (form_of form.now)) }
{
    match form {
        Form::WithoutContent(_) => Ok(()),
        Form::WithContent(what, content) => {
            add_own(alloc, what, &mut names.used)?;
            in_content(alloc, content.as_slice(), names)
        }
        Form::Control(control) => in_control(alloc, control, names),
    }
}

#[cycle(naming)]
fn in_control(alloc: Global, control: &Control, names: &mut Names) -> Result<(), Memory>
    ensures called { OnOk result (names.new.called.items ≡ names.old.called.items ++ definition.called_under (control_of control.now)) }
    ensures used { OnOk result (names.new.used.items ≡ names.old.used.items ++ definition.used_under (control_of control.now)) }
{
    match control {
        Control::ForEach(_, _, content) => in_content(alloc, content.as_slice(), names),
        Control::ForItems(_, _, name, bindings) => {
            add_name(alloc, name, &mut names.called)?;
            in_bindings(alloc, bindings.as_slice(), names)
        }
        Control::If(_, content) => in_content(alloc, content.as_slice(), names),
        Control::Choose(branches) => in_branches(alloc, branches.as_slice(), names),
        Control::ApplyTemplates(_, bindings) => in_bindings(alloc, bindings.as_slice(), names),
        Control::CallTemplate(name, bindings) => {
            add_name(alloc, name, &mut names.called)?;
            in_bindings(alloc, bindings.as_slice(), names)
        }
    }
}

#[cycle(naming)]
fn in_branches(alloc: Global, list: &[Branch], names: &mut Names) -> Result<(), Memory>
    ensures called { OnOk result (names.new.called.items ≡ names.old.called.items ++ definition.called_in_branches (branches (map branch_of list.now))) }
    ensures used { OnOk result (names.new.used.items ≡ names.old.used.items ++ definition.used_in_branches (branches (map branch_of list.now))) }
{
    for branch in list {
        in_content(alloc, branch.content.as_slice(), names)?;
    }
    Ok(())
}

#[cycle(naming)]
fn in_bindings(alloc: Global, list: &[Binding], names: &mut Names) -> Result<(), Memory>
    ensures called { OnOk result (names.new.called.items ≡ names.old.called.items ++ definition.called_in_bindings (bindings (map binding_of list.now))) }
    ensures used { OnOk result (names.new.used.items ≡ names.old.used.items ++ definition.used_in_bindings (bindings (map binding_of list.now))) }
{
    for binding in list {
        in_content(alloc, binding.content.as_slice(), names)?;
    }
    Ok(())
}
