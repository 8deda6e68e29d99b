// Instructions, each as `(KIND PART.. INSTRUCTION..)`: a text in quotes, a literal result element as
// `(literal PREFIX:NAME +PREFIX=URI use=NAME @PREFIX:NAME=VALUE ..)`. What is selected stands behind `=` where it is the
// value of a binding.
use crate::parts::{
    Places, push_avt, push_bound, push_end, push_expr, push_head, push_literal, push_made_name,
    push_named, push_numbering, push_place_of, push_sets, push_sort_keys,
};
use cases::{part, push_name, push_quoted};
use xt_syntax::{
    Binding, Branch, Control, Form, Instr, Selection, Site, WithContent, WithoutContent,
};
use xt_text::{Memory, Text};

/// Adds instructions.
#[cycle(instructions)]
pub fn push_instrs(out: &mut Text, places: Places, content: &[Instr]) -> Result<(), Memory> {
    for instr in content {
        push_instr(out, places, instr)?;
    }
    Ok(())
}

#[cycle(instructions)]
fn push_instr(out: &mut Text, places: Places, instr: &Instr) -> Result<(), Memory> {
    match &instr.form {
        Form::WithoutContent(what) => push_without_content(out, places, &instr.site, what),
        Form::WithContent(what, content) => {
            push_with_content(out, places, &instr.site, what)?;
            push_instrs(out, places, content.as_slice())?;
            push_end(out)
        }
        Form::Control(control) => {
            push_control(out, places, &instr.site, control)?;
            push_end(out)
        }
    }
}

#[cycle(instructions)]
fn push_control(
    out: &mut Text,
    places: Places,
    site: &Site,
    control: &Control,
) -> Result<(), Memory> {
    match control {
        Control::ForEach(select, keys, content) => {
            push_head(out, places, "for-each", site)?;
            push_expr(out, select)?;
            push_sort_keys(out, places, keys.as_slice())?;
            push_instrs(out, places, content.as_slice())
        }
        Control::ForItems(select, keys, name, parameters) => {
            push_head(out, places, "for-items", site)?;
            push_expr(out, select)?;
            push_sort_keys(out, places, keys.as_slice())?;
            part(out)?;
            push_name(out, name)?;
            push_bindings(out, places, "with-param", parameters.as_slice())
        }
        Control::If(test, content) => {
            push_head(out, places, "if", site)?;
            push_expr(out, test)?;
            push_instrs(out, places, content.as_slice())
        }
        Control::Choose(branches) => {
            push_head(out, places, "choose", site)?;
            push_branches(out, places, branches.as_slice())
        }
        Control::ApplyTemplates(selection, parameters) => {
            push_head(out, places, "apply-templates", site)?;
            push_selection(out, places, selection)?;
            push_bindings(out, places, "with-param", parameters.as_slice())
        }
        Control::CallTemplate(name, parameters) => {
            push_head(out, places, "call-template", site)?;
            part(out)?;
            push_name(out, name)?;
            push_bindings(out, places, "with-param", parameters.as_slice())
        }
    }
}

fn push_selection(out: &mut Text, places: Places, selection: &Selection) -> Result<(), Memory> {
    push_expr(out, &selection.select)?;
    push_named(out, "mode", &selection.mode)?;
    push_sort_keys(out, places, selection.keys.as_slice())
}

#[cycle(instructions)]
fn push_branches(out: &mut Text, places: Places, branches: &[Branch]) -> Result<(), Memory> {
    for branch in branches {
        push_branch(out, places, branch)?;
    }
    Ok(())
}

#[cycle(instructions)]
fn push_branch(out: &mut Text, places: Places, branch: &Branch) -> Result<(), Memory> {
    match &branch.test {
        None => push_head(out, places, "otherwise", &branch.site)?,
        Some(test) => {
            push_head(out, places, "when", &branch.site)?;
            push_expr(out, test)?;
        }
    }
    push_instrs(out, places, branch.content.as_slice())?;
    push_end(out)
}

/// Adds bindings of this kind.
#[cycle(instructions)]
pub fn push_bindings(
    out: &mut Text,
    places: Places,
    kind: &str,
    bindings: &[Binding],
) -> Result<(), Memory> {
    for binding in bindings {
        push_binding(out, places, kind, binding)?;
    }
    Ok(())
}

/// Adds a binding of this kind.
#[cycle(instructions)]
pub fn push_binding(
    out: &mut Text,
    places: Places,
    kind: &str,
    binding: &Binding,
) -> Result<(), Memory> {
    push_head(out, places, kind, &binding.site)?;
    push_bound(out, &binding.name, &binding.select)?;
    push_instrs(out, places, binding.content.as_slice())?;
    push_end(out)
}

fn push_without_content(
    out: &mut Text,
    places: Places,
    site: &Site,
    what: &WithoutContent,
) -> Result<(), Memory> {
    match what {
        WithoutContent::Text(text, _) => {
            part(out)?;
            push_quoted(out, text.as_str())?;
            return push_place_of(out, places, site);
        }
        WithoutContent::ValueOf(select) => {
            push_head(out, places, "value-of", site)?;
            push_expr(out, select)?;
        }
        WithoutContent::CopyOf(select) => {
            push_head(out, places, "copy-of", site)?;
            push_expr(out, select)?;
        }
        WithoutContent::Number(numbering) => {
            push_head(out, places, "number", site)?;
            push_numbering(out, numbering)?;
        }
        WithoutContent::ApplyImports => push_head(out, places, "apply-imports", site)?,
        WithoutContent::Fallback => push_head(out, places, "fallback", site)?,
    }
    push_end(out)
}

fn push_with_content(
    out: &mut Text,
    places: Places,
    site: &Site,
    what: &WithContent,
) -> Result<(), Memory> {
    push_head(out, places, kind_of(what), site)?;
    match what {
        WithContent::Literal(tag) => push_literal(out, tag),
        WithContent::Element(name, sets) => {
            push_made_name(out, name)?;
            push_sets(out, sets.as_slice())
        }
        WithContent::Attribute(name) => push_made_name(out, name),
        WithContent::Comment => Ok(()),
        WithContent::ProcessingInstruction(target) => push_avt(out, "name", target),
        WithContent::Copy(sets) => push_sets(out, sets.as_slice()),
        WithContent::Variable(name, select) => push_bound(out, name, select),
        WithContent::Message(_) => Ok(()),
    }
}

fn kind_of(what: &WithContent) -> &'static str {
    match what {
        WithContent::Literal(_) => "literal",
        WithContent::Element(_, _) => "element",
        WithContent::Attribute(_) => "attribute",
        WithContent::Comment => "comment",
        WithContent::ProcessingInstruction(_) => "instruction",
        WithContent::Copy(_) => "copy",
        WithContent::Variable(_, _) => "variable",
        WithContent::Message(false) => "message",
        WithContent::Message(true) => "last-message",
    }
}
