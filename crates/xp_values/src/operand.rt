// What is compared (XPath 1.0, section 3.4).
ghost use Rattle.std.specs.Prelude.{◌≡◌, ℕ, [], ◌∷◌, Bool, map, IfOk, if◌then◌else◌};
ghost use Rattle.spec_expression.specs.declared.Operator.{Operator};
ghost use Rattle.spec_meaning.specs.Compare as plain;
ghost use Rattle.spec_meaning.specs.Convert as convert;
ghost use Rattle.spec_meaning.specs.Compare.{Operand};
ghost use Rattle.spec_meaning.specs.Program.{Program, Supply};
ghost use Rattle.xt_tree.specs.ValueView.{value_of};
ghost use Rattle.spec_node.specs.declared.node_ref.NodeRef.{NodeRef};
ghost use Rattle.xt_questions.specs.Runs.{Runs, itself};
ghost use Rattle.xp_values.specs.OperandView.{operand_of};

use crate::convert::{number_of_boolean, read, to_boolean};
use crate::stream_text::text_of;
use spec_expression::Operator;
use std::alloc::Global;
use std::cmp::Ordering;
use xt_base::Num;
use xt_questions::{EvalFault, World, ask_text};
use xt_text::{Memory, Text};
use xt_tree::{NodeRef, Value};

/// A node, which is compared by its string-value, a text or a number.
#[derive(Drop)]
pub(crate) enum Operand {
    Node(NodeRef),
    Text(Text),
    Number(Num),
}

/// The operands that a value is, one for each node of a node-set. Beside a boolean, a node-set or a fragment
/// is its boolean.
pub(crate) fn operands(
    alloc: Global,
    value: &Value,
    beside_boolean: bool,
) -> Result<Vec<Operand>, Memory>
    ensures { IfOk result (λ list. map operand_of list.items ≡ plain.operands (if beside_boolean then plain.set_as_boolean (value_of value.now) else value_of value.now)) }
{
    match value {
        Value::Number(number) => single(alloc, Operand::Number(*number)),
        Value::Text(text) => {
            let text = text.copy(alloc)?;
            single(alloc, Operand::Text(text))
        }
        Value::Boolean(boolean) => of_boolean(alloc, *boolean),
        Value::Nodes(nodes) => {
            if beside_boolean {
                return of_boolean(alloc, to_boolean(value));
            }
            of_nodes(alloc, nodes.as_slice())
        }
        Value::Fragment(fragment) => {
            if beside_boolean {
                return of_boolean(alloc, true);
            }
            let text = text_of(alloc, fragment)?;
            single(alloc, Operand::Text(text))
        }
    }
}

fn of_boolean(alloc: Global, boolean: bool) -> Result<Vec<Operand>, Memory>
    ensures { IfOk result (λ list. map operand_of list.items ≡ plain.OfNumber (convert.number_of_boolean boolean) ∷ []) }
{
    single(alloc, Operand::Number(number_of_boolean(boolean)))
}

fn single(alloc: Global, operand: Operand) -> Result<Vec<Operand>, Memory>
    ensures { IfOk result (λ list. map operand_of list.items ≡ operand_of operand ∷ []) }
{
    let mut list = Vec::new(alloc);
    list.push(operand)?;
    Ok(list)
}

fn of_nodes(alloc: Global, nodes: &[NodeRef]) -> Result<Vec<Operand>, Memory>
    ensures { IfOk result (λ list. map operand_of list.items ≡ map plain.OfNode nodes.now) }
{
    let mut list = Vec::new(alloc);
    for node in nodes {
        list.push(Operand::Node(*node))?;
    }
    Ok(list)
}

/// What operands are read as and compared by: texts or numbers.
pub(crate) trait Comparand: Drop {
    /// What is read of an operand.
    ghost read: { Operand NodeRef → Program NodeRef Self };

    /// Whether two compare.
    ghost test: { Operator → Self → Self → Bool };

    /// What is compared of the operand.
    fn read<W: World>(alloc: Global, operand: &Operand, world: &mut W) -> Result<Self, EvalFault>
        ensures runs { (supply : Supply NodeRef) → (depth : ℕ) → Runs itself supply depth (read (operand_of operand.now)) (W.state world.old) (W.state world.new) result }
        ensures name { W.name world.new ≡ W.name world.old };

    /// Whether the two compare. Takes no memory.
    fn passes(operator: Operator, left: &Self, right: &Self) -> bool
        ensures { result ≡ test operator left.now right.now };
}

impl Comparand for Text {
    ghost read = { plain.text_in_operand };

    ghost test = { plain.texts_satisfy };

    fn read<W: World>(alloc: Global, operand: &Operand, world: &mut W) -> Result<Text, EvalFault> {
        match operand {
            Operand::Node(node) => ask_text(alloc, world, *node),
            Operand::Text(text) => Ok(text.copy(alloc)?),
            Operand::Number(_) => Ok(Text::new(alloc)),
        }
    }

    fn passes(operator: Operator, left: &Text, right: &Text) -> bool {
        match operator {
            Operator::NotEqual => !left.same(right),
            _ => left.same(right),
        }
    }
}

impl Comparand for Num {
    ghost read = { plain.number_in };

    ghost test = { plain.numbers_satisfy };

    fn read<W: World>(alloc: Global, operand: &Operand, world: &mut W) -> Result<Num, EvalFault> {
        match operand {
            Operand::Node(node) => {
                let text = ask_text(alloc, world, *node)?;
                read(&text)
            }
            Operand::Text(text) => read(text),
            Operand::Number(number) => Ok(*number),
        }
    }

    fn passes(operator: Operator, left: &Num, right: &Num) -> bool {
        let order = left.compare(*right);
        match operator {
            Operator::Equal => order == Some(Ordering::Equal),
            Operator::NotEqual => order != Some(Ordering::Equal),
            Operator::Less => order == Some(Ordering::Less),
            Operator::LessOrEqual => matches!(order, Some(Ordering::Less | Ordering::Equal)),
            Operator::Greater => order == Some(Ordering::Greater),
            Operator::GreaterOrEqual => matches!(order, Some(Ordering::Greater | Ordering::Equal)),
            _ => false,
        }
    }
}
