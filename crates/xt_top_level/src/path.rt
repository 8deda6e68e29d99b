// Paths of nodes.
ghost use Rattle.std.specs.Prelude.{◌≡◌, ◌++◌, ◌∷◌, [], IfOk};

use std::alloc::Global;
use xt_text::{Memory, Path};

/// The path of a node at the top.
pub(crate) fn top(alloc: Global, position: u64) -> Result<Path, Memory>
    ensures { IfOk result (λ path. path ≡ position ∷ []) }
{
    let mut path = Path::new(alloc);
    path.push(position)?;
    Ok(path)
}

/// The path of a child at this position.
pub(crate) fn below(alloc: Global, path: &Path, position: u64) -> Result<Path, Memory>
    ensures { IfOk result (λ child. child ≡ path.now ++ position ∷ []) }
{
    let mut child = path.copy(alloc)?;
    child.push(position)?;
    Ok(child)
}
