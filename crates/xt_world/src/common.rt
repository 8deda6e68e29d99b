// What two stylesheets have in common.
ghost use Rattle.std.specs.Prelude.{◌≡◌, ◌∷◌, ◌++◌, [], List, IfOk, OnOk};
ghost use Rattle.std.specs.Bool.{Decides};
ghost use Rattle.spec_node.specs.declared.node_ref.NodeRef as node;
ghost use Rattle.xt_syntax.specs.SheetView.{rules_of};
ghost use Rattle.xt_world.specs.Alike.{AreAlike};
ghost use Rattle.xt_world.specs.View.{unit_held};

use crate::Stylesheet;
use std::alloc::Global;
use xt_text::Memory;
use xt_tree::NodeRef;

/// The elements of the second stylesheet for whose units the first one has the same, with the same templates, attribute
/// sets and aliases. Takes time for all trees of both.
pub fn same_units(
    alloc: Global,
    one: &Stylesheet,
    other: &Stylesheet,
) -> Result<Vec<NodeRef>, Memory>
    ensures { IfOk result (λ list. AreAlike one.now other.now other.now.elements.items list.items) }
{
    let mut list = Vec::new(alloc);
    for element in &other.elements {
        push_if_alike(one, other, *element, &mut list)?;
    }
    Ok(list)
}

// Adds the element where both have the same unit for it.
fn push_if_alike(
    one: &Stylesheet,
    other: &Stylesheet,
    element: NodeRef,
    list: &mut Vec<NodeRef>,
) -> Result<(), Memory>
    ensures { OnOk result ((elements : List node.NodeRef) → AreAlike one.now other.now elements list.old.items
        → AreAlike one.now other.now (elements ++ element ∷ []) list.new.items) }
{
    if same_unit(one, other, &element) {
        list.push(element)?;
    }
    Ok(())
}

// Whether both have the same unit for this element, or neither has one.
fn same_unit(one: &Stylesheet, other: &Stylesheet, element: &NodeRef) -> bool
    ensures { Decides result (unit_held one.now element.now ≡ unit_held other.now element.now) }
{
    match (one.unit_at(element), other.unit_at(element)) {
        (None, None) => true,
        (Some(unit), Some(other)) => unit.same(other),
        _ => false,
    }
}

/// Whether both have the same template rules, and their elements are called the same, one by one. Takes no memory.
pub fn same_rules(one: &Stylesheet, other: &Stylesheet) -> bool
    ensures { Decides result ((rules_of one.now.rules ≡ rules_of other.now.rules) × (one.now.elements.items ≡ other.now.elements.items)) }
{
    one.rules.same(&other.rules)
        && same_elements(one.elements.as_slice(), other.elements.as_slice())
}

fn same_elements(elements: &[NodeRef], others: &[NodeRef]) -> bool
    ensures { Decides result (elements.now ≡ others.now) }
{
    elements == others
}
