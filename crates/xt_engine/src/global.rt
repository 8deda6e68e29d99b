// Globals.
use xt_names::Expanded;
use xt_tree::NodeRef;

/// A global variable or parameter that counts, by the node of its element.
#[derive(Drop)]
pub struct NamedGlobal {
    pub name: Expanded,
    pub element: NodeRef,
}
