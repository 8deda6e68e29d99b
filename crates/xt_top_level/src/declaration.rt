// What elements at the top declare, by their attributes and their children.
ghost use Rattle.std.specs.Prelude.{◌≡◌, IfOk, Some, [], map, unwrap_or};
ghost use Rattle.std.specs.Option.{option_map};
ghost use Rattle.spec_compile.specs.Content as content;
ghost use Rattle.spec_compile.specs.Unit as spec;
ghost use Rattle.xt_syntax.specs.PartView.{pattern_of};
ghost use Rattle.xt_syntax.specs.SheetView.{template_of};
ghost use Rattle.xt_syntax.specs.View.{test_of};
ghost use Rattle.xt_attributes.specs.View.{entries_in};
ghost use Rattle.xt_content.specs.View.{around_in, children_in, parts_in};
ghost use Rattle.xt_top_level.specs.Declaring.{attribute_set_by, global_by, made_template, output_by, space_rule_by, template_by};
ghost use Rattle.xt_top_level.specs.View.{declaration_in};

use crate::alias::alias;
use crate::top_level::{Declaration, NamedSpace, RuleTemplate};
use spec_structure::XsltElement;
use std::alloc::Global;
use std::rc::Rc;
use xt_attributes::{Entries, into_method, into_priority, into_tests};
use xt_content::{
    Around, Child, Parts, binding_of, content_in, expr_at, name_at, names_at, parted, site_of,
    take_name, take_pattern,
};
use xt_names::Expanded;
use xt_syntax::{AttributeSet, GlobalBinding, Key, Pattern, Template, Test};
use xt_text::{Memory, Path};

/// What this element declares, at this path and where `around` is in force inside it.
pub(crate) fn declaration_of(
    alloc: Global,
    around: &Around,
    path: &Path,
    element: XsltElement,
    entries: Entries,
    children: Vec<Child>,
) -> Result<Option<Declaration>, Memory>
    ensures { IfOk result (λ d. option_map declaration_in d ≡ spec.declaration_of element (content.site_of (around_in around.now) path.now) (entries_in entries) (children_in children.items)) }
{
    match element {
        XsltElement::Template => template(alloc, entries, children),
        XsltElement::Param => global(alloc, around, path, true, entries, children),
        XsltElement::Variable => global(alloc, around, path, false, entries, children),
        XsltElement::AttributeSet => attribute_set(alloc, entries, children),
        XsltElement::Key => key(alloc, entries),
        XsltElement::StripSpace => Ok(Some(space_rule(alloc, true, entries))),
        XsltElement::PreserveSpace => Ok(Some(space_rule(alloc, false, entries))),
        XsltElement::Output => Ok(Some(output(entries))),
        XsltElement::NamespaceAlias => alias(alloc, &around.inside.scope, entries),
        _ => Ok(None),
    }
}

fn template(
    alloc: Global,
    entries: Entries,
    children: Vec<Child>,
) -> Result<Option<Declaration>, Memory>
    ensures { IfOk result (λ d. option_map declaration_in d ≡ Some (template_by (entries_in entries) (children_in children.items))) }
{
    let mut entries = entries;
    let parts = parted(alloc, children)?;
    let name = take_name(&mut entries, "name");
    let template = template_with(alloc, name, parts)?;
    let pattern = take_pattern(&mut entries, "match");
    let mode = take_name(&mut entries, "mode");
    let priority = into_priority(entries.take("priority"));
    Ok(Some(Declaration::Template(RuleTemplate {
        template,
        pattern,
        priority,
        mode,
    })))
}

fn template_with(alloc: Global, name: Option<Expanded>, parts: Parts) -> Result<Template, Memory>
    ensures { IfOk result (λ t. template_of t ≡ made_template name (parts_in parts)) }
{
    let parameters = Rc::new(alloc, parts.parameters)?;
    let content = Rc::new(alloc, parts.content)?;
    Ok(Template {
        name,
        parameters,
        content,
    })
}

fn global(
    alloc: Global,
    around: &Around,
    path: &Path,
    is_parameter: bool,
    entries: Entries,
    children: Vec<Child>,
) -> Result<Option<Declaration>, Memory>
    ensures { IfOk result (λ d. option_map declaration_in d ≡ Some (global_by is_parameter (content.site_of (around_in around.now) path.now) (entries_in entries) (children_in children.items))) }
{
    let mut entries = entries;
    let site = site_of(alloc, around, path)?;
    let binding = binding_of(alloc, site, &mut entries, children)?;
    Ok(Some(Declaration::Global(GlobalBinding {
        is_parameter,
        binding,
    })))
}

fn attribute_set(
    alloc: Global,
    entries: Entries,
    children: Vec<Child>,
) -> Result<Option<Declaration>, Memory>
    ensures { IfOk result (λ d. option_map declaration_in d ≡ Some (attribute_set_by (entries_in entries) (children_in children.items))) }
{
    let mut entries = entries;
    let attributes = content_in(alloc, children)?;
    let name = name_at(alloc, &mut entries, "name");
    let sets = names_at(alloc, &mut entries, "use-attribute-sets");
    Ok(Some(Declaration::Set(AttributeSet {
        name,
        sets,
        attributes,
    })))
}

fn key(alloc: Global, entries: Entries) -> Result<Option<Declaration>, Memory>
    ensures { IfOk result (λ d. option_map declaration_in d ≡ Some (spec.AKey (spec.key_of (entries_in entries)))) }
{
    let mut entries = entries;
    let value = expr_at(alloc, &mut entries, "use")?;
    let name = name_at(alloc, &mut entries, "name");
    let pattern = or_no_pattern(alloc, take_pattern(&mut entries, "match"));
    Ok(Some(Declaration::Key(Key {
        name,
        pattern,
        value,
    })))
}

fn or_no_pattern(alloc: Global, pattern: Option<Pattern>) -> Pattern
    ensures { pattern_of result ≡ unwrap_or (option_map pattern_of pattern) spec.no_pattern }
{
    match pattern {
        None => Pattern {
            alternatives: Vec::new(alloc),
        },
        Some(pattern) => pattern,
    }
}

fn space_rule(alloc: Global, strips: bool, entries: Entries) -> Declaration
    ensures { declaration_in result ≡ space_rule_by strips (entries_in entries) }
{
    let mut entries = entries;
    let tests = or_no_tests(alloc, into_tests(entries.take("elements")));
    Declaration::SpaceRule(NamedSpace { strips, tests })
}

fn or_no_tests(alloc: Global, tests: Option<Vec<Test>>) -> Vec<Test>
    ensures { map test_of result.items ≡ unwrap_or (option_map (λ list. map test_of list.items) tests) [] }
{
    match tests {
        None => Vec::new(alloc),
        Some(tests) => tests,
    }
}

fn output(entries: Entries) -> Declaration
    ensures { declaration_in result ≡ output_by (entries_in entries) }
{
    let mut entries = entries;
    Declaration::Output(into_method(entries.take("method")))
}
