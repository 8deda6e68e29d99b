// Whether the templates of contents stand where no unit stands, and have names of their own. Nothing takes memory here.
ghost use Rattle.std.specs.Prelude.{◌≡◌, map, length, nat_lt};
ghost use Rattle.std.specs.List.{list_all, list_any};
ghost use Rattle.spec_run.specs.World.{is_template, same_element};
ghost use Rattle.spec_items.specs.Liftable as definition;
ghost use Rattle.spec_items.specs.Lifted as lifted;
ghost use Rattle.xt_syntax.specs.PartView.{place_of};
ghost use Rattle.xt_syntax.specs.SheetView.{declared_of, rule_of, unit_of};

use xt_base::Place;
use xt_names::Expanded;
use xt_syntax::{Declared, Rule, Unit};

/// Whether each rule has its unit, of so many.
pub(crate) fn have_units(rules: &[Rule], count: u64) -> bool
    ensures { result ≡ list_all (λ rule. nat_lt rule.unit count) (map rule_of rules.now) }
{
    for rule in rules {
        if !has_unit(rule, count) {
            return false;
        }
    }
    true
}

fn has_unit(rule: &Rule, count: u64) -> bool
    ensures { result ≡ nat_lt (rule_of rule.now).unit count }
{
    rule.unit < count
}

/// Whether one of these units stands at this place.
pub(crate) fn stands_in(place: &Place, units: &[Unit]) -> bool
    ensures { result ≡ lifted.stands_in (place_of place.now) (map unit_of units.now) }
{
    for unit in units {
        if is_at(place, unit) {
            return true;
        }
    }
    false
}

fn is_at(place: &Place, unit: &Unit) -> bool
    ensures { result ≡ same_element (place_of place.now) (unit_of unit.now).site.place }
{
    place.same(&unit.site.place)
}

/// Whether one of these items stands where a unit does.
pub(crate) fn one_stands_in(items: &[Unit], units: &[Unit]) -> bool
    ensures { result ≡ list_any (λ item. lifted.stands_in item.site.place (map unit_of units.now)) (map unit_of items.now) }
{
    for item in items {
        if stands_in(&item.site.place, units) {
            return true;
        }
    }
    false
}

/// Whether no unit has the name of one after it.
pub(crate) fn have_own_names(units: &[Unit]) -> bool
    ensures { result ≡ definition.have_own_names (map unit_of units.now) }
{
    for (index, unit) in units.iter().enumerate() {
        if one_has_name(&unit.declared, &units[index + 1..]) {
            return false;
        }
    }
    true
}

// Whether one of these is a template of the same name.
fn one_has_name(declared: &Declared, units: &[Unit]) -> bool
    ensures { result ≡ list_any (λ later. definition.have_one_name (declared_of declared.now) later.declared) (map unit_of units.now) }
{
    for unit in units {
        if have_one_name(declared, &unit.declared) {
            return true;
        }
    }
    false
}

fn have_one_name(declared: &Declared, other: &Declared) -> bool
    ensures { result ≡ definition.have_one_name (declared_of declared.now) (declared_of other.now) }
{
    match declared {
        Declared::Template(template) => match &template.name {
            None => false,
            Some(name) => is_template(name, other),
        },
        _ => false,
    }
}

// Whether it is a template of this name.
fn is_template(name: &Expanded, declared: &Declared) -> bool
    ensures { result ≡ is_template name.now (declared_of declared.now) }
{
    match declared {
        Declared::Template(template) => match &template.name {
            None => false,
            Some(other) => other.same(name),
        },
        _ => false,
    }
}
