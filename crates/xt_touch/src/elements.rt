// Sets of elements.
ghost use Rattle.std.specs.Prelude.{◌≡◌, ◌∷◌, ◌++◌, [], IfOk, OnOk};
ghost use Rattle.std.specs.Cmp.{on_equiv, on_per};
ghost use Rattle.std.specs.Hash as fed;
ghost use Rattle.spec_node.specs.Naming.{same_ref};
ghost use Rattle.spec_touch.specs.Marks.{is_unit_among};
ghost use Rattle.xt_touch.specs.Sets.{AreSameElements};
ghost use Rattle.xt_touch.specs.Sameness.{same_fed_number, same_refs, same_refs_partly};

use indexmap::IndexSet;
use std::alloc::Global;
use std::hash::{Hash, Hasher};
use std::marker::Model;
use xt_text::Memory;
use xt_tree::NodeRef;

/// A set of elements of a stylesheet, by what they are called. Contracts see a list of them, of which it counts alone
/// which are in it.
#[derive(Drop)]
pub struct Elements {
    set: IndexSet<ElementKey>,
}

impl Model for Elements {
    ghost use Rattle.std.specs.Prelude.{List, map};
    ghost use Rattle.spec_node.specs.declared.node_ref.NodeRef.{NodeRef};

    ghost Value = { List NodeRef };

    ghost view = { λ e. map (λ key. key.element) e.set.keys };
}

// An element as a key of a set.
#[derive(Clone, Copy)]
struct ElementKey {
    element: NodeRef,
}

impl PartialEq for ElementKey {
    ghost eq = { λ a b. same_ref a.element b.element };

    ghost laws = { on_per (λ k. k.element) same_refs_partly };

    fn eq(&self, other: &ElementKey) -> bool {
        self.element == other.element
    }
}

impl Eq for ElementKey {
    ghost laws = { on_equiv (λ k. k.element) same_refs };
}

impl Hash for ElementKey {
    ghost hash_input = { λ k. fed.u64 k.element.node.number };

    ghost respects_eq = { λ a b e. same_fed_number a.element b.element e };

    fn hash<H: Hasher>(&self, state: &mut H) {
        self.element.node.number.hash(state);
    }
}

impl Elements {
    /// These elements.
    pub fn of(alloc: Global, elements: &[NodeRef]) -> Result<Elements, Memory>
        ensures { IfOk result (λ set. AreSameElements set elements.now) }
    {
        let mut set = Elements {
            set: IndexSet::new(alloc),
        };
        for element in elements {
            set.add(*element)?;
        }
        Ok(set)
    }

    fn add(&mut self, element: NodeRef) -> Result<(), Memory>
        ensures { OnOk result (AreSameElements self.new (self.old ++ element ∷ [])) }
    {
        let _ = self.set.insert(ElementKey { element })?;
        Ok(())
    }

    /// Whether the element is among them. Takes no memory.
    pub(crate) fn has(&self, element: NodeRef) -> bool
        ensures { result ≡ is_unit_among self.now element }
    {
        self.set.contains(&ElementKey { element })
    }
}
