// Violations below the elements at the top.
ghost use Rattle.std.specs.Prelude.{◌≡◌, ◌++◌, OnOk, map};
ghost use Rattle.std.specs.List.{flat_map};
ghost use Rattle.std.specs.Option.{option_copied};
ghost use Rattle.spec_compile.specs.Scoping.{if_so, is_named, in_list};
ghost use Rattle.xt_syntax.specs.PartView.{site_of};
ghost use Rattle.xt_content.specs.View.{outlined_in, outlines, uses_in};
ghost use Rattle.xt_scoping.specs.Distinct.{with_names};
ghost use Rattle.xt_scoping.specs.Steps.{uses_at, outline_at, element_at};
ghost use Rattle.xt_scoping.specs.View.{found_in};

use crate::known::{Known, add_some};
use crate::names::Names;
use crate::report::{report_if, report_missing, report_unbound};
use crate::violation::Violation;
use spec_expression::StaticCode;
use std::alloc::Global;
use xt_content::{Outlined, Uses};
use xt_names::Expanded;
use xt_syntax::Site;
use xt_text::Memory;

/// Adds the violations of elements that are siblings, and of those below them, where these local variables are in
/// scope. After want of memory there may be more in scope.
#[cycle(below)]
pub(crate) fn report_siblings<'a>(
    alloc: Global,
    known: &Known<'a>,
    locals: &mut Names<'a>,
    elements: &'a [Outlined],
    found: &mut Vec<Violation>,
) -> Result<(), Memory>
    ensures locals { OnOk result (locals.new ≡ locals.old) }
    ensures found { OnOk result (found_in found.new.items ≡ found_in found.old.items ++ outline_at known.now locals.old (outlines (map outlined_in elements.now))) }
{
    let outside = locals.len();
    for element in elements {
        report_element(alloc, known, locals, element, found)?;
    }
    locals.truncate(outside);
    Ok(())
}

// Adds the violations of an element and of those below it, and brings the variable that it binds into scope.
#[cycle(below)]
fn report_element<'a>(
    alloc: Global,
    known: &Known<'a>,
    locals: &mut Names<'a>,
    element: &'a Outlined,
    found: &mut Vec<Violation>,
) -> Result<(), Memory>
    ensures locals { OnOk result (locals.new ≡ with_names locals.old (in_list (outlined_in element.now).binds)) }
    ensures found { OnOk result (found_in found.new.items ≡ found_in found.old.items ++ element_at known.now locals.old (outlined_in element.now)) }
{
    report_uses(alloc, known, locals, &element.site, &element.uses, found)?;
    report_shadowed(alloc, locals, element.binds.as_ref(), &element.site, found)?;
    let below = element.below.elements.as_slice();
    report_siblings(alloc, known, locals, below, found)?;
    add_some(locals, element.binds.as_ref())
}

/// Adds the violations of what an element names, where these local variables are in scope.
pub(crate) fn report_uses<'a>(
    alloc: Global,
    known: &Known<'a>,
    locals: &Names<'a>,
    site: &Site,
    uses: &'a Uses,
    found: &mut Vec<Violation>,
) -> Result<(), Memory>
    ensures { OnOk result (found_in found.new.items ≡ found_in found.old.items ++ uses_at known.now locals.now (site_of site.now) (uses_in uses.now)) }
{
    report_unbound(
        alloc,
        uses.variables.as_slice(),
        locals,
        &known.globals,
        site,
        found,
    )?;
    report_missing(
        alloc,
        uses.templates.as_slice(),
        &known.templates,
        StaticCode::NoTemplate,
        site,
        found,
    )?;
    report_missing(
        alloc,
        uses.sets.as_slice(),
        &known.sets,
        StaticCode::BadAttributeSet,
        site,
        found,
    )
}

// Adds a violation where a local variable of this name is in scope.
fn report_shadowed<'a>(
    alloc: Global,
    locals: &Names<'a>,
    name: Option<&'a Expanded>,
    site: &Site,
    found: &mut Vec<Violation>,
) -> Result<(), Memory>
    ensures { OnOk result (found_in found.new.items ≡ found_in found.old.items ++ flat_map (λ n. if_so (is_named locals.now n) StaticCode.ShadowedVariable (site_of site.now)) (in_list (option_copied name.entry))) }
{
    match name {
        None => Ok(()),
        Some(name) => report_if(
            alloc,
            locals.has(name),
            StaticCode::ShadowedVariable,
            site,
            found,
        ),
    }
}
