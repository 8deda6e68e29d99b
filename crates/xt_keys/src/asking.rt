// The index of the keys of one name.
ghost use Rattle.std.specs.Prelude.{◌≡◌, ℕ, List, []};
ghost use Rattle.std.specs.List.{filter};
ghost use Rattle.spec_meaning.specs.Program.{Give, then as and_then};
ghost use Rattle.spec_transform.specs.Key as definition;
ghost use Rattle.spec_transform.specs.Key.{no_globals};
ghost use Rattle.spec_node.specs.Naming.{same_ref};
ghost use Rattle.xt_questions.specs.Runs.{Runs};
ghost use Rattle.xt_keys.specs.View.{AreNodesApart, nodes_found};
ghost use Rattle.xt_match.specs.Context.{units_in};

use crate::filling::all_values;
use crate::groups::{KeyIndex, grouped};
use std::alloc::Global;
use std::rc::Rc;
use xt_names::Expanded;
use xt_questions::{EvalFault, Evaluate, ResolvedUnit, Supplies};
use xt_tree::NodeRef;

/// The index of these nodes by their values in the keys of this name, which stand among the units of a
/// stylesheet (XSLT 1.0, section 12.2). All keys are asked for all nodes, in the order of the stylesheet, and each
/// for all nodes in their order. An error is want of memory, the first refusal of a use, which stands at its
/// xsl:key, or the first global that is needed: none is given.
pub fn index<W: Evaluate>(
    alloc: Global,
    units: &[Rc<ResolvedUnit>],
    name: &Expanded,
    nodes: &[NodeRef],
    world: &mut W,
) -> Result<KeyIndex, EvalFault>
    requires { AreNodesApart nodes.now }
    ensures runs { (text : List ℕ) → Runs (nodes_found text) no_globals 0 (and_then (definition.indexed same_ref (definition.keys_named name.now (units_in units.now)) nodes.now []) (λ entries. Give (filter (definition.has same_ref entries text) nodes.now))) (W.state world.old) (W.state world.new) result }
    ensures name { W.name world.new ≡ W.name world.old }
{
    let supplies = Supplies {
        position: 1,
        size: 1,
        rule: None,
        globals: Vec::new(alloc),
    };
    let found = all_values(alloc, units, name, nodes, &supplies, world)?;
    let index = grouped(alloc, nodes, found.as_slice())?;
    Ok(index)
}
