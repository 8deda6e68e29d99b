// Stylesheets whose xsl:for-each elements are lifted.
ghost use Rattle.std.specs.Prelude.{◌≡◌, ◌++◌, ◌&&◌, [], IfOk, OnOk, map, if◌then◌else◌, not, length, nat_lt};
ghost use Rattle.std.specs.List.{list_all, list_any};
ghost use Rattle.spec_items.specs.Liftable as liftable;
ghost use Rattle.spec_items.specs.Lifted as lifted;
ghost use Rattle.xt_lift.specs.Left as spec;
ghost use Rattle.xt_syntax.specs.PartView.{place_of};
ghost use Rattle.xt_syntax.specs.SheetView.{rule_of, sheet_of, unit_of};

use crate::liftable::{have_own_names, have_units, one_stands_in, stands_in};
use crate::plain::are_plain;
use crate::units::left_unit;
use std::alloc::Global;
use xt_syntax::{Sheet, Unit};
use xt_text::Memory;

// What is left of the units of a stylesheet, and the templates of the contents in them.
#[derive(Drop)]
struct Lifted {
    left: Vec<Unit>,
    items: Vec<Unit>,
}

/// The stylesheet in which the content of each xsl:for-each stands in a template of its own, where `is_liftable` says
/// that this changes no run. Any other stays as it is. Want of memory alone is an error.
pub fn with_items(alloc: Global, sheet: Sheet) -> Result<Sheet, Memory>
    ensures { IfOk result (λ s. sheet_of s ≡ liftable.with_items (sheet_of sheet)) }
{
    if !is_plain(&sheet) {
        return Ok(sheet);
    }
    let Ok(made) = made_of(alloc, &sheet) else {
        drop(sheet);
        return Err(Memory);
    };
    if !are_apart(&made, &sheet) {
        drop(made);
        return Ok(sheet);
    }
    put_in(sheet, made)
}

// Whether nothing in it is lifted already, and each rule has its unit.
fn is_plain(sheet: &Sheet) -> bool
    ensures { result ≡ spec.is_plain_sheet (sheet_of sheet.now) }
{
    let count = sheet.units.len() as u64;
    are_plain(sheet.units.as_slice()) && have_units(sheet.rules.rules.as_slice(), count)
}

// Whether the templates stand where no unit of the stylesheet does, and have names of their own.
fn are_apart(made: &Lifted, sheet: &Sheet) -> bool
    ensures { result ≡ spec.are_apart (map unit_of made.now.items.items) (sheet_of sheet.now).units }
{
    !one_stands_in(made.items.as_slice(), sheet.units.as_slice())
        && have_own_names(made.items.as_slice())
}

fn made_of(alloc: Global, sheet: &Sheet) -> Result<Lifted, Memory>
    ensures left { IfOk result (λ made. map unit_of made.left.items ≡ map lifted.left_unit (sheet_of sheet.now).units) }
    ensures items { IfOk result (λ made. map unit_of made.items.items ≡ lifted.items (sheet_of sheet.now).units) }
{
    lift_units(alloc, sheet.units.as_slice())
}

fn lift_units(alloc: Global, units: &[Unit]) -> Result<Lifted, Memory>
    ensures left { IfOk result (λ made. map unit_of made.left.items ≡ map lifted.left_unit (map unit_of units.now)) }
    ensures items { IfOk result (λ made. map unit_of made.items.items ≡ lifted.items (map unit_of units.now)) }
{
    let mut left = Vec::new(alloc);
    let mut items = Vec::new(alloc);
    for (index, unit) in units.iter().enumerate() {
        left.push(lift_unit(alloc, &units[..index], unit, &mut items)?)?;
    }
    Ok(Lifted { left, items })
}

// What is left of a unit that stands behind these. Of two at one place only the first is ever found, so the items of
// others are not added.
fn lift_unit(
    alloc: Global,
    before: &[Unit],
    unit: &Unit,
    items: &mut Vec<Unit>,
) -> Result<Unit, Memory>
    ensures left { IfOk result (λ u. unit_of u ≡ lifted.left_unit (unit_of unit.now)) }
    ensures items { OnOk result (map unit_of items.new.items ≡ map unit_of items.old.items ++ spec.items_at (map unit_of before.now) (unit_of unit.now)) }
{
    let mut own = Vec::new(alloc);
    let left = left_unit(alloc, unit, &mut own)?;
    // A unit without items has none wherever it stands, so those before it are not looked at.
    let is_later = !own.is_empty() && stands_in(&unit.site.place, before);
    add_first(is_later, own, items)?;
    Ok(left)
}

// Adds the items of a unit at whose place no earlier one stands.
fn add_first(is_later: bool, own: Vec<Unit>, items: &mut Vec<Unit>) -> Result<(), Memory>
    ensures { OnOk result (map unit_of items.new.items ≡ map unit_of items.old.items ++ (if is_later then [] else map unit_of own.items)) }
{
    let mut own = own;
    if is_later {
        drop(own);
        return Ok(());
    }
    items.append(&mut own)?;
    Ok(())
}

// The stylesheet with these units in place of its own.
fn put_in(sheet: Sheet, made: Lifted) -> Result<Sheet, Memory>
    ensures { IfOk result (λ s. sheet_of s ≡ spec.with_units (map unit_of made.left.items ++ map unit_of made.items.items) (sheet_of sheet)) }
{
    let Lifted { left, items } = made;
    let Ok(units) = joined(left, items) else {
        drop(sheet);
        return Err(Memory);
    };
    Ok(with_units(sheet, units))
}

fn joined(first: Vec<Unit>, last: Vec<Unit>) -> Result<Vec<Unit>, Memory>
    ensures { IfOk result (λ units. map unit_of units.items ≡ map unit_of first.items ++ map unit_of last.items) }
{
    let mut units = first;
    let mut last = last;
    units.append(&mut last)?;
    Ok(units)
}

fn with_units(sheet: Sheet, units: Vec<Unit>) -> Sheet
    ensures { sheet_of result ≡ spec.with_units (map unit_of units.items) (sheet_of sheet) }
{
    let Sheet {
        units: own,
        rules,
        space_rules,
        method,
        aliases,
    } = sheet;
    drop(own);
    Sheet {
        units,
        rules,
        space_rules,
        method,
        aliases,
    }
}
