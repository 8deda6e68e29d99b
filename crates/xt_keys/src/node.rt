// One node in the keys of one name, without an index of all nodes.
ghost use Rattle.std.specs.Prelude.{◌≡◌, [], ◌∷◌};
ghost use Rattle.spec_meaning.specs.Program.{Give, then as and_then};
ghost use Rattle.spec_meaning.specs.Supplies.{at_hand};
ghost use Rattle.spec_transform.specs.Key as definition;
ghost use Rattle.spec_transform.specs.Key.{no_globals};
ghost use Rattle.spec_node.specs.Naming.{same_ref};
ghost use Rattle.xt_questions.specs.Runs.{Runs, items};
ghost use Rattle.xt_questions.specs.View.{supplies_of};
ghost use Rattle.xt_keys.specs.View.{last_list, texts_at, texts_in};
ghost use Rattle.xt_match.specs.Context.{units_in};

use crate::filling::all_values;
use std::alloc::Global;
use std::rc::Rc;
use xt_names::Expanded;
use xt_questions::{EvalFault, Evaluate, ResolvedUnit, Supplies};
use xt_text::Text;
use xt_tree::NodeRef;

// No global is at hand.
fn no_supplies(alloc: Global) -> Supplies
    ensures { at_hand (supplies_of result) 0 ≡ no_globals }
{
    Supplies {
        position: 1,
        size: 1,
        rule: None,
        globals: Vec::new(alloc),
    }
}

/// All values of a node in the keys of this name, which stand among the units of a stylesheet (XSLT 1.0, section 12.2),
/// in the order in which an index of that node alone finds them. An error is want of memory, the first refusal of a use,
/// or the first global that is needed: none is given.
pub fn texts_at_node<W: Evaluate>(
    alloc: Global,
    units: &[Rc<ResolvedUnit>],
    name: &Expanded,
    node: NodeRef,
    world: &mut W,
) -> Result<Vec<Text>, EvalFault>
    ensures runs { Runs items no_globals 0 (and_then (definition.indexed same_ref (definition.keys_named name.now (units_in units.now)) (node ∷ []) []) (λ entries. Give (texts_at entries node))) (W.state world.old) (W.state world.new) result }
    ensures name { W.name world.new ≡ W.name world.old }
{
    let supplies = no_supplies(alloc);
    let nodes = [node];
    let found = all_values(alloc, units, name, &nodes, &supplies, world)?;
    Ok(last_of(alloc, found))
}

// The last of these lists.
fn last_of(alloc: Global, mut lists: Vec<Vec<Text>>) -> Vec<Text>
    ensures { result.items ≡ last_list (texts_in lists) }
{
    match lists.pop() {
        None => Vec::new(alloc),
        Some(list) => list,
    }
}
