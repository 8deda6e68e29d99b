// Documents and places in them, as edits name them.
ghost use Rattle.spec_session.specs.Request as spec;
ghost use Rattle.xt_wire.specs.View.{FindsTarget, rest_of};

use crate::document::{DocumentName, read_document};
use crate::fault::WireFault;
use crate::path::read_path;
use crate::word::next_word;
use std::alloc::Global;
use xt_text::Path;

/// A document and a path in it, and what stands behind them.
#[derive(Drop)]
pub(crate) struct Target<'a> {
    pub(crate) document: DocumentName,
    pub(crate) path: Path,
    /// What stands behind the path, where there is a space.
    pub(crate) rest: Option<&'a str>,
}

/// The document and the path that the next two words write. `BadArguments` where one of the words is missing, or
/// the second writes no path.
pub(crate) fn read_target(alloc: Global, rest: Option<&str>) -> Result<Target<'_>, WireFault>
    ensures { FindsTarget result (spec.target_of (rest_of rest.entry)) }
{
    let Some(document) = next_word(rest) else {
        return Err(WireFault::BadArguments);
    };
    let Some(place) = next_word(document.rest) else {
        return Err(WireFault::BadArguments);
    };
    let Some(path) = read_path(alloc, place.first)? else {
        return Err(WireFault::BadArguments);
    };
    Ok(Target {
        document: read_document(alloc, document.first)?,
        path,
        rest: place.rest,
    })
}
