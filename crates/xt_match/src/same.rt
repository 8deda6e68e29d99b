// Whether names are of one node.
ghost use Rattle.std.specs.Prelude.{◌≡◌};
ghost use Rattle.std.specs.List.{list_any};
ghost use Rattle.spec_node.specs.Naming as naming;

use xt_tree::{NodeRef, Part};

fn same_part(one: Part, other: Part) -> bool
    ensures { result ≡ naming.same_part one other }
{
    match (one, other) {
        (Part::Itself, Part::Itself) => true,
        (Part::Attribute(number), Part::Attribute(other)) => number == other,
        (Part::Namespace(number), Part::Namespace(other)) => number == other,
        _ => false,
    }
}

/// Whether both name one node.
pub(crate) fn same_ref(one: NodeRef, other: NodeRef) -> bool
    ensures { result ≡ naming.same_ref one other }
{
    one.node.number == other.node.number && same_part(one.part, other.part)
}

/// Whether the node is one of these.
pub(crate) fn is_one(node: NodeRef, nodes: &[NodeRef]) -> bool
    ensures { result ≡ list_any (naming.same_ref node) nodes.now }
{
    for other in nodes {
        if same_ref(node, *other) {
            return true;
        }
    }
    false
}
