// The names that lead to no module, or back to their own.
ghost use Rattle.std.specs.Prelude.{◌≡◌, IfOk, IsSome, is_some, map, nat_lt, true};
ghost use Rattle.std.specs.Bool.{Decides};
ghost use Rattle.spec_structure.specs.Modules as spec;
ghost use Rattle.xt_import.specs.Table.{LeadsBack, NoneFallsBack, lists_of, names_of, none_rise, number_in};
ghost use Rattle.xt_import.specs.View.{modules_in};
ghost use Rattle.xt_structure.specs.View.{faults_in, link_in, links_in};

use crate::numbers::numbers_of;
use crate::order::{is_among, link_table, reading_order};
use crate::table::{LinkTable, number_of};
use indexmap::IndexMap;
use spec_expression::StaticCode;
use std::alloc::Global;
use xt_structure::{Fault, Link};
use xt_text::{Memory, Text};
use xt_tree::Doc;

/// The first xsl:import or xsl:include element of the module of this name, in document order, that has a fault: S03
/// where no module has the name that stands there, S04 where the module of that name is this one or leads to it. None
/// where no link has a fault, or where there is no module of this name. What a link leads to is read for it anew only
/// where the two modules have the same number.
pub fn link_fault(
    alloc: Global,
    modules: &IndexMap<String, Doc>,
    name: &Text,
) -> Result<Option<Fault>, Memory>
    ensures { IfOk result (λ fault. spec.FirstFault (modules_in modules.now.entries) name.now (spec.links_in (modules_in modules.now.entries) name.now) (faults_in fault)) }
{
    let table = link_table(alloc, modules, name.as_str())?;
    let numbers = numbers_of(alloc, &table)?;
    fault_by(alloc, modules, &table, numbers.as_slice(), name)
}

// The fault of the module of this name by the table of all that it leads to.
fn fault_by(
    alloc: Global,
    modules: &IndexMap<String, Doc>,
    table: &LinkTable,
    numbers: &[usize],
    name: &Text,
) -> Result<Option<Fault>, Memory>
    ensures { IfOk result (λ fault. spec.AreInReadingOrder (modules_in modules.now.entries) name.now (names_of table.now.entries)
        → lists_of table.now.entries ≡ map (spec.links_in (modules_in modules.now.entries)) (names_of table.now.entries)
        → none_rise (number_in table.now.entries numbers.now) table.now.entries ≡ true
        → spec.FirstFault (modules_in modules.now.entries) name.now (spec.links_in (modules_in modules.now.entries) name.now) (faults_in fault)) }
{
    match table.get(name.as_str()) {
        None => Ok(None),
        Some(links) => first_fault(alloc, modules, table, numbers, name, links.as_slice()),
    }
}

/// The first fault of these links of the module of this name, wherever there is one. None of them that leads to a
/// lesser number may lead back to it.
pub(crate) fn first_fault(
    alloc: Global,
    modules: &IndexMap<String, Doc>,
    table: &LinkTable,
    numbers: &[usize],
    name: &Text,
    links: &[Link],
) -> Result<Option<Fault>, Memory>
    ensures { IfOk result (λ fault. IsSome (modules_in modules.now.entries name.now)
        → NoneFallsBack (modules_in modules.now.entries) (number_in table.now.entries numbers.now) name.now (links_in links.now)
        → spec.FirstFault (modules_in modules.now.entries) name.now (links_in links.now) (faults_in fault)) }
{
    for link in links {
        match link_code(alloc, modules, table, numbers, name, link)? {
            None => {}
            Some(code) => {
                let path = link.path.copy(alloc)?;
                return Ok(Some(Fault { code, path }));
            }
        }
    }
    Ok(None)
}

// The code that stands at a link of the module of this name.
fn link_code(
    alloc: Global,
    modules: &IndexMap<String, Doc>,
    table: &LinkTable,
    numbers: &[usize],
    name: &Text,
    link: &Link,
) -> Result<Option<StaticCode>, Memory>
    ensures { IfOk result (λ code. IsSome (modules_in modules.now.entries name.now)
        → (nat_lt (number_in table.now.entries numbers.now link.now.href) (number_in table.now.entries numbers.now name.now) ≡ true
        → LeadsBack (modules_in modules.now.entries) name.now (link_in link.now) → ⊥)
        → spec.HasCode (modules_in modules.now.entries) name.now (link_in link.now) code) }
{
    if !is_held(modules, &link.href) {
        return Ok(Some(StaticCode::NoSuchModule));
    }
    if falls(table, numbers, &link.href, name) {
        return Ok(None);
    }
    if leads_to(alloc, modules, &link.href, name)? {
        return Ok(Some(StaticCode::ImportCycle));
    }
    Ok(None)
}

// Whether the first module has a lesser number than the second.
fn falls(table: &LinkTable, numbers: &[usize], from: &Text, to: &Text) -> bool
    ensures { result ≡ nat_lt (number_in table.now.entries numbers.now from.now) (number_in table.now.entries numbers.now to.now) }
{
    number_of(table, numbers, from.as_str()) < number_of(table, numbers, to.as_str())
}

// Whether there is a module of this name.
fn is_held(modules: &IndexMap<String, Doc>, name: &Text) -> bool
    ensures { result ≡ is_some (modules_in modules.now.entries name.now) }
{
    modules.get(name.as_str()).is_some()
}

// Whether the first module is the second or leads to it.
fn leads_to(
    alloc: Global,
    modules: &IndexMap<String, Doc>,
    from: &Text,
    to: &Text,
) -> Result<bool, Memory>
    ensures { IfOk result (λ leads. IsSome (modules_in modules.now.entries to.now) → Decides leads (spec.Reaches (modules_in modules.now.entries) from.now to.now)) }
{
    let reached = reading_order(alloc, modules, from.as_str())?;
    Ok(is_among(to, reached.as_slice()))
}
