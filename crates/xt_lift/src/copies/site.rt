// Copies of where elements stand.
ghost use Rattle.std.specs.Prelude.{◌≡◌, IfOk};
ghost use Rattle.xt_syntax.specs.PartView.{place_of, site_of};

use std::alloc::Global;
use xt_syntax::{Place, Site};
use xt_text::{Memory, Text};

/// The same place, with the same namespaces in scope.
pub(crate) fn copy_site(alloc: Global, site: &Site) -> Result<Site, Memory>
    ensures { IfOk result (λ copy. site_of copy ≡ site_of site.now) }
{
    let place = copy_place(alloc, &site.place)?;
    let scope = site.scope.copy()?;
    Ok(Site { place, scope })
}

fn copy_place(alloc: Global, place: &Place) -> Result<Place, Memory>
    ensures { IfOk result (λ copy. place_of copy ≡ place_of place.now) }
{
    let module = copy_text_if(alloc, &place.module)?;
    let path = place.path.copy(alloc)?;
    Ok(Place { module, path })
}

fn copy_text_if(alloc: Global, text: &Option<Text>) -> Result<Option<Text>, Memory>
    ensures { IfOk result (λ copy. copy ≡ text.now) }
{
    match text {
        None => Ok(None),
        Some(text) => Ok(Some(text.copy(alloc)?)),
    }
}
