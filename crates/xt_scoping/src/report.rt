// Violations at an element.
ghost use Rattle.std.specs.Prelude.{◌≡◌, ◌++◌, ◌&&◌, ◌||◌, not, map, IfOk, OnOk};
ghost use Rattle.std.specs.List.{flat_map};
ghost use Rattle.spec_compile.specs.Scoping.{if_so, is_named};
ghost use Rattle.xt_syntax.specs.PartView.{place_of, site_of};
ghost use Rattle.xt_scoping.specs.View.{found_in};

use crate::names::Names;
use crate::violation::Violation;
use spec_expression::StaticCode;
use std::alloc::Global;
use xt_base::Place;
use xt_names::Expanded;
use xt_syntax::Site;
use xt_text::Memory;

/// Adds a violation at the element where it stands.
pub(crate) fn report_if(
    alloc: Global,
    stands: bool,
    code: StaticCode,
    site: &Site,
    found: &mut Vec<Violation>,
) -> Result<(), Memory>
    ensures { OnOk result (found_in found.new.items ≡ found_in found.old.items ++ if_so stands code (site_of site.now)) }
{
    if !stands {
        return Ok(());
    }
    let place = copy_of(alloc, &site.place)?;
    found.push(Violation { code, place })?;
    Ok(())
}

fn copy_of(alloc: Global, place: &Place) -> Result<Place, Memory>
    ensures { IfOk result (λ copy. place_of copy ≡ place_of place.now) }
{
    let path = place.path.copy(alloc)?;
    match &place.module {
        None => Ok(Place { module: None, path }),
        Some(name) => {
            let name = name.copy(alloc)?;
            Ok(Place {
                module: Some(name),
                path,
            })
        }
    }
}

/// Adds a violation for each name that is not there.
pub(crate) fn report_missing<'a>(
    alloc: Global,
    names: &'a [Expanded],
    there: &Names<'a>,
    code: StaticCode,
    site: &Site,
    found: &mut Vec<Violation>,
) -> Result<(), Memory>
    ensures { OnOk result (found_in found.new.items ≡ found_in found.old.items ++ flat_map (λ name. if_so (not (is_named there.now name)) code (site_of site.now)) names.now) }
{
    for name in names {
        report_if(alloc, !there.has(name), code, site, found)?;
    }
    Ok(())
}

/// Adds a violation for each variable that is neither local nor global.
pub(crate) fn report_unbound<'a>(
    alloc: Global,
    names: &'a [Expanded],
    locals: &Names<'a>,
    globals: &Names<'a>,
    site: &Site,
    found: &mut Vec<Violation>,
) -> Result<(), Memory>
    ensures { OnOk result (found_in found.new.items ≡ found_in found.old.items ++ flat_map (λ name. if_so (not (is_named locals.now name || is_named globals.now name)) StaticCode.NoVariable (site_of site.now)) names.now) }
{
    for name in names {
        let is_bound = locals.has(name) || globals.has(name);
        report_if(alloc, !is_bound, StaticCode::NoVariable, site, found)?;
    }
    Ok(())
}
