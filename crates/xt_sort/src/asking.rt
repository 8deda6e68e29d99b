// What an xsl:sort says, and the keys of nodes.
ghost use Rattle.std.specs.Prelude.{◌≡◌, ℕ};
ghost use Rattle.std.specs.Str.{chars};
ghost use Rattle.spec_meaning.specs.Program.{State, Supply};
ghost use Rattle.spec_meaning.specs.Supplies.{at_hand};
ghost use Rattle.spec_transform.specs.Sorted as plain;
ghost use Rattle.xt_syntax.specs.PartView.{sort_key_of};
ghost use Rattle.spec_node.specs.declared.node_ref.NodeRef.{NodeRef};
ghost use Rattle.xt_questions.specs.View.{context_of, supplies_of};
ghost use Rattle.xt_questions.specs.Runs.{Runs, itself};
ghost use Rattle.xt_sort.specs.View.{criterion_of, key_of};

use crate::row::{Criterion, KeyValue};
use spec_expression::DynCode;
use std::alloc::Global;
use xp_values::{given, to_text};
use xt_avt::expand;
use xt_base::Num;
use xt_questions::{Context, EvalFault, Evaluate, Focus, Refusal, Supplies};
use xt_syntax::SortKey;
use xt_text::Text;

/// How the keys of an xsl:sort compare (XSLT 1.0, section 10). D09 where its data type is neither `text` nor
/// `number`, or its order neither `ascending` nor `descending`. Other errors are those of the expressions.
pub fn criterion<W: Evaluate>(
    alloc: Global,
    key: &SortKey,
    focus: Focus,
    context: &Context,
    supplies: &Supplies,
    world: &mut W,
) -> Result<Criterion, EvalFault>
    ensures runs { Runs criterion_of (at_hand (supplies_of supplies.now) context.now.depth) context.now.depth (plain.criterion_meant (sort_key_of key.now) (context_of focus context.now)) (W.state world.old) (W.state world.new) result }
    ensures name { W.name world.new ≡ W.name world.old }
{
    let is_number = is_number(alloc, key, focus, context, supplies, world)?;
    let descends = descends(alloc, key, focus, context, supplies, world)?;
    Ok(Criterion {
        is_number,
        descends,
    })
}

// Whether the keys are numbers.
fn is_number<W: Evaluate>(
    alloc: Global,
    key: &SortKey,
    focus: Focus,
    context: &Context,
    supplies: &Supplies,
    world: &mut W,
) -> Result<bool, EvalFault>
    ensures runs { Runs itself (at_hand (supplies_of supplies.now) context.now.depth) context.now.depth (plain.data_type_meant (sort_key_of key.now) (context_of focus context.now)) (W.state world.old) (W.state world.new) result }
    ensures name { W.name world.new ≡ W.name world.old }
{
    let word = expand(alloc, &key.data_type, focus, context, supplies, world)?;
    second_of(&word, "text", "number")
}

// Whether the greatest key comes first.
fn descends<W: Evaluate>(
    alloc: Global,
    key: &SortKey,
    focus: Focus,
    context: &Context,
    supplies: &Supplies,
    world: &mut W,
) -> Result<bool, EvalFault>
    ensures runs { Runs itself (at_hand (supplies_of supplies.now) context.now.depth) context.now.depth (plain.order_meant (sort_key_of key.now) (context_of focus context.now)) (W.state world.old) (W.state world.new) result }
    ensures name { W.name world.new ≡ W.name world.old }
{
    let word = expand(alloc, &key.order, focus, context, supplies, world)?;
    second_of(&word, "ascending", "descending")
}

// Whether it is the second of two words. D09 where it is neither.
fn second_of(word: &Text, first: &str, second: &str) -> Result<bool, EvalFault>
    ensures { (supply : Supply NodeRef) → (depth : ℕ) → (s : State NodeRef) → Runs itself supply depth (plain.second_of (chars first.now) (chars second.now) word.now) s s result }
{
    if word.is(first) {
        return Ok(false);
    }
    if word.is(second) {
        return Ok(true);
    }
    Err(EvalFault::Refused(Refusal::Here(DynCode::BadSort)))
}

/// The key of the node in focus (XSLT 1.0, section 10): the string of the value that the xsl:sort selects, or
/// the number of that string. D01 or D03 where that has a fraction or is out of range. Other errors are those of
/// the expression.
pub fn key_value<W: Evaluate>(
    alloc: Global,
    key: &SortKey,
    criterion: Criterion,
    focus: Focus,
    context: &Context,
    supplies: &Supplies,
    world: &mut W,
) -> Result<KeyValue, EvalFault>
    ensures runs { Runs key_of (at_hand (supplies_of supplies.now) context.now.depth) context.now.depth (plain.key_meant (sort_key_of key.now) (criterion_of criterion) (context_of focus context.now)) (W.state world.old) (W.state world.new) result }
    ensures name { W.name world.new ≡ W.name world.old }
{
    let value = world.value(alloc, &key.select, focus, context, supplies)?;
    let text = to_text(alloc, value, world)?;
    key_of_text(criterion.is_number, text)
}

// The key that has this string.
fn key_of_text(is_number: bool, text: Text) -> Result<KeyValue, EvalFault>
    ensures { (supply : Supply NodeRef) → (depth : ℕ) → (s : State NodeRef) → Runs key_of supply depth (plain.key_of_text is_number text) s s result }
{
    if !is_number {
        return Ok(KeyValue::Text(text));
    }
    let number = given(Num::read(text.as_str()))?;
    Ok(KeyValue::Number(number))
}
