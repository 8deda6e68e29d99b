// The numbers by which records are found.
ghost use Rattle.std.specs.Prelude.{◌≡◌};
ghost use Rattle.xt_engine.specs.View.{call_of, target_of};
ghost use Rattle.xt_record.specs.Chain.{key_of, part_number, unit_number};

use xt_engine::{Call, Target};
use xt_tree::Part;

/// The numbers of a unit and of a node. Built-in rules have one number, whatever their mode.
#[derive(Clone, Copy, Debug, PartialEq, Eq, Hash)]
pub(crate) struct Key {
    unit: u64,
    node: u64,
    part: u64,
}

/// Those of a call.
pub(crate) fn key_of(call: &Call) -> Key
    ensures { result ≡ key_of (call_of call.now) }
{
    Key {
        unit: unit_number(&call.target),
        node: call.node.node.number,
        part: part_number(call.node.part),
    }
}

fn unit_number(target: &Target) -> u64
    ensures { result ≡ unit_number (target_of target.now) }
{
    match target {
        Target::Unit(element) => element.node.number,
        Target::BuiltIn(_) => u64::MAX,
    }
}

// Apart for the parts of one node, as long as they are few.
fn part_number(part: Part) -> u64
    ensures { result ≡ part_number part }
{
    match part {
        Part::Itself => 0,
        Part::Attribute(number) => number,
        Part::Namespace(number) => u64::MAX - number,
    }
}
