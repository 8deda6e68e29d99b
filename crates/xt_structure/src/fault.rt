// Where a module has a fault.
ghost use Rattle.std.specs.Prelude.{◌≡◌, ◌++◌, ◌∷◌, [], IfOk};
ghost use Rattle.spec_structure.specs.Structure as spec;
ghost use Rattle.xt_structure.specs.View.{faults_in};

use spec_expression::StaticCode;
use std::alloc::Global;
use xt_text::{Memory, Path};

/// A fault of a module.
#[derive(Drop)]
pub struct Fault {
    /// The least code that stands at the node.
    pub code: StaticCode,
    /// The node, by child positions from the root of the module, each from 1.
    pub path: Path,
}

/// The path of a node at the top.
pub(crate) fn top(alloc: Global, position: u64) -> Result<Path, Memory>
    ensures { IfOk result (λ path. path ≡ position ∷ []) }
{
    let mut path = Path::new(alloc);
    path.push(position)?;
    Ok(path)
}

/// The path of a child at this position. Want of memory alone is an error.
pub fn below(alloc: Global, path: &Path, position: u64) -> Result<Path, Memory>
    ensures { IfOk result (λ child. child ≡ path.now ++ position ∷ []) }
{
    let mut child = path.copy(alloc)?;
    child.push(position)?;
    Ok(child)
}

/// The fault of a document element that is no stylesheet.
pub(crate) fn no_stylesheet(path: Path) -> Option<Fault>
    ensures { faults_in result ≡ spec.no_stylesheet path }
{
    Some(Fault {
        code: StaticCode::NoStylesheet,
        path,
    })
}
