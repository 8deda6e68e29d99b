// Places in modules.
ghost use Rattle.std.specs.Prelude.{◌≡◌};
ghost use Rattle.std.specs.Bool.{Decides};

use xt_text::{Path, Text};

/// Where something stands: a node of a module, by the positions of raw children from the root, each
/// from 1. Without a module it is no node's, and replies show `-`.
#[derive(Drop)]
pub struct Place {
    /// The module's name.
    pub module: Option<Text>,
    /// The way from the module's root; empty without a module.
    pub path: Path,
}

impl Place {
    /// Whether both are the same place. Takes no memory.
    pub fn same(&self, other: &Place) -> bool
        ensures { Decides result (self.now ≡ other.now) }
    {
        match (&self.module, &other.module) {
            (None, None) => self.path.same(&other.path),
            (Some(module), Some(other_module)) => module.same(other_module)
                && self.path.same(&other.path),
            _ => false,
        }
    }
}
