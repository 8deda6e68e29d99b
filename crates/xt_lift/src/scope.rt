// The local variables in scope, innermost first.
ghost use Rattle.std.specs.Prelude.{◌≡◌, ◌++◌, ◌∷◌, [], IfOk, OnOk, map, if◌then◌else◌};
ghost use Rattle.std.specs.List.{filter, list_any};
ghost use Rattle.spec_document.specs.Name.{same_name};
ghost use Rattle.spec_stylesheet.specs.Instruction.{instrs};
ghost use Rattle.spec_items.specs.Lifted as lifted;
ghost use Rattle.spec_items.specs.Mentioned as definition;
ghost use Rattle.xt_lift.specs.Names.{scope_with};
ghost use Rattle.xt_syntax.specs.InstrView.{instr_of, form_of};
ghost use Rattle.xt_syntax.specs.PartView.{with_content_of};

use crate::adding::add_name;
use crate::mentioned::add_mentioned;
use std::alloc::Global;
use xt_names::{Expanded, copy_name};
use xt_syntax::{Form, Instr, WithContent};
use xt_text::Memory;

/// Those in scope that a content mentions.
pub(crate) fn free_in(
    alloc: Global,
    scope: &[Expanded],
    content: &[Instr],
) -> Result<Vec<Expanded>, Memory>
    ensures { IfOk result (λ names. names.items ≡ definition.free_in scope.now (instrs (map instr_of content.now))) }
{
    let mut mentioned = Vec::new(alloc);
    add_mentioned(alloc, content, &mut mentioned)?;
    those_among(alloc, scope, mentioned.as_slice())
}

// Those names of a list that another has.
fn those_among(
    alloc: Global,
    list: &[Expanded],
    others: &[Expanded],
) -> Result<Vec<Expanded>, Memory>
    ensures { IfOk result (λ names. names.items ≡ filter (λ name. list_any (same_name name) others.now) list.now) }
{
    let mut names = Vec::new(alloc);
    for name in list {
        add_if(alloc, is_among(name, others), name, &mut names)?;
    }
    Ok(names)
}

fn is_among(name: &Expanded, list: &[Expanded]) -> bool
    ensures { result ≡ list_any (same_name name.now) list.now }
{
    list.iter().any(|other| name.same(other))
}

fn add_if(
    alloc: Global,
    is_one: bool,
    name: &Expanded,
    names: &mut Vec<Expanded>,
) -> Result<(), Memory>
    ensures { OnOk result (names.new.items ≡ names.old.items ++ (if is_one then name.now ∷ [] else [])) }
{
    if !is_one {
        return Ok(());
    }
    add_name(alloc, name, names)
}

/// Brings the variable that an instruction binds into scope.
pub(crate) fn bring(alloc: Global, form: &Form, scope: &mut Vec<Expanded>) -> Result<(), Memory>
    ensures { OnOk result (scope.new.items ≡ lifted.scope_after scope.old.items (form_of form.now)) }
{
    match form {
        Form::WithoutContent(_) => Ok(()),
        Form::WithContent(what, _) => bring_bound(alloc, what, scope),
        Form::Control(_) => Ok(()),
    }
}

// The same of an instruction that makes something of its content.
fn bring_bound(alloc: Global, what: &WithContent, scope: &mut Vec<Expanded>) -> Result<(), Memory>
    ensures { OnOk result (scope.new.items ≡ scope_with scope.old.items (with_content_of what.now)) }
{
    match what {
        WithContent::Variable(name, _) => bring_name(alloc, name, scope),
        _ => Ok(()),
    }
}

/// Brings a name into scope.
pub(crate) fn bring_name(
    alloc: Global,
    name: &Expanded,
    scope: &mut Vec<Expanded>,
) -> Result<(), Memory>
    ensures { OnOk result (scope.new.items ≡ name.now ∷ scope.old.items) }
{
    let name = copy_name(alloc, name)?;
    scope.insert(0, name)?;
    Ok(())
}
