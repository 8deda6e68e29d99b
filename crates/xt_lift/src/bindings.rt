// The parameters of the templates of contents, and what is passed to them.
ghost use Rattle.std.specs.Prelude.{◌≡◌, IfOk, map};
ghost use Rattle.spec_stylesheet.specs.Instruction.{bindings};
ghost use Rattle.spec_items.specs.Lifted as lifted;
ghost use Rattle.xt_lift.specs.Parameters as spec;
ghost use Rattle.xt_syntax.specs.InstrView.{binding_of};
ghost use Rattle.xt_syntax.specs.PartView.{site_of};

use crate::copies::copy_site;
use std::alloc::Global;
use std::rc::Rc;
use xt_names::{Expanded, copy_name};
use xt_syntax::{Binding, Expr, Site};
use xt_text::Memory;

/// The parameters of a template whose content mentions these variables.
pub(crate) fn parameters_for(
    alloc: Global,
    site: &Site,
    names: &[Expanded],
) -> Result<Rc<Vec<Binding>>, Memory>
    ensures { IfOk result (λ list. bindings (map binding_of list.value.items) ≡ lifted.parameters_for (site_of site.now) names.now) }
{
    let list = parameters(alloc, site, names)?;
    Ok(Rc::new(alloc, list)?)
}

// The same as a list.
fn parameters(alloc: Global, site: &Site, names: &[Expanded]) -> Result<Vec<Binding>, Memory>
    ensures { IfOk result (λ list. map binding_of list.items ≡ map (spec.parameter (site_of site.now)) names.now) }
{
    let mut list = Vec::new(alloc);
    for name in names {
        list.push(parameter(alloc, site, name)?)?;
    }
    Ok(list)
}

fn parameter(alloc: Global, site: &Site, name: &Expanded) -> Result<Binding, Memory>
    ensures { IfOk result (λ one. binding_of one ≡ spec.parameter (site_of site.now) name.now) }
{
    let content = Rc::new(alloc, Vec::new(alloc))?;
    let name = copy_name(alloc, name)?;
    let site = copy_site(alloc, site)?;
    Ok(Binding {
        site,
        name,
        select: None,
        content,
    })
}

/// What is passed to such a template: each variable by its name.
pub(crate) fn passed_for(
    alloc: Global,
    site: &Site,
    names: &[Expanded],
) -> Result<Rc<Vec<Binding>>, Memory>
    ensures { IfOk result (λ list. bindings (map binding_of list.value.items) ≡ lifted.passed_for (site_of site.now) names.now) }
{
    let list = all_passed(alloc, site, names)?;
    Ok(Rc::new(alloc, list)?)
}

// The same as a list.
fn all_passed(alloc: Global, site: &Site, names: &[Expanded]) -> Result<Vec<Binding>, Memory>
    ensures { IfOk result (λ list. map binding_of list.items ≡ map (spec.passed (site_of site.now)) names.now) }
{
    let mut list = Vec::new(alloc);
    for name in names {
        list.push(passed(alloc, site, name)?)?;
    }
    Ok(list)
}

fn passed(alloc: Global, site: &Site, name: &Expanded) -> Result<Binding, Memory>
    ensures { IfOk result (λ one. binding_of one ≡ spec.passed (site_of site.now) name.now) }
{
    let content = Rc::new(alloc, Vec::new(alloc))?;
    let site = copy_site(alloc, site)?;
    let variable = copy_name(alloc, name)?;
    let name = copy_name(alloc, name)?;
    Ok(Binding {
        site,
        name,
        select: Some(Expr::Variable(variable)),
        content,
    })
}
