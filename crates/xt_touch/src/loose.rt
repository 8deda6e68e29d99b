// Children that may be others after an edit of their parent.
ghost use Rattle.std.specs.Prelude.{◌≡◌, false, IfOk};
ghost use Rattle.spec_touch.specs.Touched.{is_one_of};
ghost use Rattle.xt_edit.specs.Telling.{numbers_in};
ghost use Rattle.xt_touch.specs.Named.{LieOutside};

use crate::Bounds;
use crate::numbers::Numbers;
use crate::source::{both, bounds, is_itself};
use std::alloc::Global;
use std::marker::Model;
use xt_text::Memory;
use xt_tree::{NodeId, NodeRef};

/// Children of the node of an edit, ready to be asked which are among them. Contracts see their numbers.
#[derive(Drop)]
pub(crate) struct Loose {
    nodes: Vec<NodeId>,
    set: Numbers,
    bounds: Bounds,
}

impl Model for Loose {
    ghost use Rattle.std.specs.Prelude.{ℕ, List};
    ghost use Rattle.xt_edit.specs.Telling.{numbers_in};
    ghost use Rattle.xt_touch.specs.Sets.{AreSetOf};

    ghost Value = { List ℕ };

    ghost view = { λ l. numbers_in l.nodes.items };

    ghost invariant = { λ l. AreSetOf (numbers_in l.nodes.items) l.set l.bounds };
}

impl Loose {
    /// These children.
    pub(crate) fn new(alloc: Global, nodes: Vec<NodeId>) -> Result<Loose, Memory>
        ensures { IfOk result (λ loose. loose ≡ numbers_in nodes.items) }
    {
        let set = both(alloc, nodes.as_slice(), &[])?;
        let bounds = bounds(nodes.as_slice(), &[]);
        Ok(Loose { nodes, set, bounds })
    }

    /// Whether the node is one of them. Takes no memory.
    pub(crate) fn has(&self, node: NodeRef) -> bool
        ensures { result ≡ is_one_of self.now node }
    {
        is_itself(node.part) && self.set.has(node.node)
    }

    /// Whether one of them may lie within the bounds. Takes no memory.
    pub(crate) fn meets(&self, bounds: Bounds) -> bool
        ensures { result ≡ false → LieOutside self.now bounds }
    {
        self.bounds.meets(bounds)
    }
}
