// Paths as lists of positions.
ghost use Rattle.std.specs.Prelude.{◌≡◌, ◌++◌, [], ◌∷◌, ◌<◌, IfOk, OnOk, OnErr, bytes_eq, length, MatchOption};

use crate::Memory;
use smallvec::SmallVec;
use std::alloc::Global;
use std::marker::Model;

/// The way from a root to a node: child positions, each counted from 1. Most paths are short and
/// stay inside the value.
#[derive(Drop)]
pub struct Path {
    positions: SmallVec<u64, 8>,
}

impl Model for Path {
    ghost use Rattle.std.specs.Prelude.{ℕ, List};

    ghost Value = { List ℕ };

    ghost view = { λ p. p.positions.items };
}

impl Path {
    /// The path of the root, which has no position. Takes no memory.
    pub fn new(alloc: Global) -> Path
        ensures { result ≡ [] }
    {
        Path {
            positions: SmallVec::new(alloc),
        }
    }

    /// The positions, the topmost first.
    pub fn positions(&self) -> &[u64]
        ensures { result.now ≡ self.now }
    {
        self.positions.as_slice()
    }

    /// One step further down. After want of memory the path is as before.
    pub fn push(&mut self, position: u64) -> Result<(), Memory>
        ensures ok { OnOk result (self.new ≡ self.old ++ position ∷ []) }
        ensures err { OnErr result (self.new ≡ self.old) }
    {
        self.positions.push(position)?;
        Ok(())
    }

    /// One step back up: the last position, where there is one.
    pub fn pop(&mut self) -> Option<u64>
        ensures { MatchOption result ((self.old ≡ []) × (self.new ≡ [])) (λ position. self.old ≡ self.new ++ position ∷ []) }
    {
        self.positions.pop()
    }

    /// The same path, in memory of its own.
    pub fn copy(&self, alloc: Global) -> Result<Path, Memory>
        ensures { IfOk result (λ path. path ≡ self.now) }
    {
        Ok(Path {
            positions: SmallVec::from_slice(alloc, self.positions.as_slice())?,
        })
    }

    /// Whether both have the same positions. Takes no memory.
    pub fn same(&self, other: &Path) -> bool
        ensures { result ≡ bytes_eq self.now other.now }
    {
        self.positions.as_slice() == other.positions.as_slice()
    }
}
