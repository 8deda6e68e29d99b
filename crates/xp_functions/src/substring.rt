// The function `substring` (XPath 1.0, section 4.2).
ghost use Rattle.std.specs.Prelude.{◌≡◌, ℕ, [], ◌∷◌, map};
ghost use Rattle.spec_meaning.specs.Value as value;
ghost use Rattle.spec_meaning.specs.Program.{Supply};
ghost use Rattle.spec_meaning.specs.Call.{length_argument, substring_of};
ghost use Rattle.xt_tree.specs.ValueView.{value_of};
ghost use Rattle.spec_node.specs.declared.node_ref.NodeRef.{NodeRef};
ghost use Rattle.xt_questions.specs.Runs.{Runs, itself};

use crate::argument::{number_of, take_first};
use std::alloc::Global;
use xp_text::substring;
use xp_values::{to_number, to_text};
use xt_base::Num;
use xt_questions::{EvalFault, World};
use xt_tree::Value;

/// The characters of the first argument from the position that the second one is on; with a third one so many.
pub(crate) fn substring_of<W: World>(
    alloc: Global,
    arguments: Vec<Value>,
    world: &mut W,
) -> Result<Value, EvalFault>
    ensures runs { (supply : Supply NodeRef) → (depth : ℕ) → Runs value_of supply depth (substring_of (map value_of arguments.items)) (W.state world.old) (W.state world.new) result }
    ensures name { W.name world.new ≡ W.name world.old }
{
    let mut rest = arguments;
    let first = take_first(alloc, &mut rest);
    let text = to_text(alloc, first, world)?;
    let second = take_first(alloc, &mut rest);
    let start = number_of(alloc, second, world)?;
    let count = length_argument(alloc, rest.as_slice(), world)?;
    let part = substring(alloc, text.as_str(), start, count)?;
    Ok(Value::Text(part))
}

// How many characters are wanted, where an argument says so; these are those behind the first two.
fn length_argument<W: World>(
    alloc: Global,
    rest: &[Value],
    world: &mut W,
) -> Result<Option<Num>, EvalFault>
    ensures runs { (supply : Supply NodeRef) → (depth : ℕ) → Runs itself supply depth (length_argument (value.Text [] ∷ value.Text [] ∷ map value_of rest.now)) (W.state world.old) (W.state world.new) result }
    ensures name { W.name world.new ≡ W.name world.old }
{
    match rest {
        [] => Ok(None),
        [length, ..] => {
            let number = to_number(alloc, length, world)?;
            Ok(Some(number))
        }
    }
}
