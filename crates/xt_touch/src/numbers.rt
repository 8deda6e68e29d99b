// Sets of nodes.
ghost use Rattle.std.specs.Prelude.{◌≡◌, ◌∷◌, ◌++◌, [], OnOk};
ghost use Rattle.spec_change.specs.Change.{is_among};
ghost use Rattle.xt_edit.specs.Telling.{numbers_in};
ghost use Rattle.xt_touch.specs.Sets.{AreSame};

use indexmap::IndexSet;
use std::alloc::Global;
use std::marker::Model;
use xt_text::Memory;
use xt_tree::NodeId;

/// A set of nodes of the tree. Contracts see a list of their numbers, of which it counts alone which are in it.
#[derive(Drop)]
pub(crate) struct Numbers {
    set: IndexSet<u64>,
}

impl Model for Numbers {
    ghost use Rattle.std.specs.Prelude.{ℕ, List};

    ghost Value = { List ℕ };

    ghost view = { λ n. n.set.keys };
}

impl Numbers {
    /// No node. Takes no memory.
    pub(crate) fn new(alloc: Global) -> Numbers
        ensures { result ≡ [] }
    {
        Numbers {
            set: IndexSet::new(alloc),
        }
    }

    /// Whether the node is among them. Takes no memory.
    pub(crate) fn has(&self, node: NodeId) -> bool
        ensures { result ≡ is_among self.now node.number }
    {
        self.set.contains(&node.number)
    }

    /// Adds a node.
    pub(crate) fn add(&mut self, node: NodeId) -> Result<(), Memory>
        ensures { OnOk result (AreSame self.new (self.old ++ node.number ∷ [])) }
    {
        let _ = self.set.insert(node.number)?;
        Ok(())
    }

    /// Adds these nodes.
    pub(crate) fn add_all(&mut self, nodes: &[NodeId]) -> Result<(), Memory>
        ensures { OnOk result (AreSame self.new (self.old ++ numbers_in nodes.now)) }
    {
        for node in nodes {
            self.add(*node)?;
        }
        Ok(())
    }
}
