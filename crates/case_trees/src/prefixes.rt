// The scope in which the texts of cases stand.

use std::alloc::Global;
use xt_names::Scope;
use xt_text::Memory;

/// The scope of all texts: the prefixes p and q for urn:p, r for urn:r, and the default namespace urn:d.
pub fn scope(alloc: Global) -> Result<Scope, Memory> {
    let mut scope = Scope::root(alloc)?;
    scope.bind(alloc, "", "urn:d")?;
    scope.bind(alloc, "p", "urn:p")?;
    scope.bind(alloc, "q", "urn:p")?;
    scope.bind(alloc, "r", "urn:r")?;
    Ok(scope)
}
