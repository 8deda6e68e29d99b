// The words of expressions.

use cases::{push_name, push_quoted, push_uri};
use xt_syntax::{Axis, NodeType, Operator, Test};
use xt_text::{Memory, Text};

/// Adds an operator as it is written.
pub fn push_operator(out: &mut Text, operator: Operator) -> Result<(), Memory> {
    out.push_str(match operator {
        Operator::Or => "or",
        Operator::And => "and",
        Operator::Equal => "=",
        Operator::NotEqual => "!=",
        Operator::Less => "<",
        Operator::LessOrEqual => "<=",
        Operator::Greater => ">",
        Operator::GreaterOrEqual => ">=",
        Operator::Add => "+",
        Operator::Subtract => "-",
        Operator::Multiply => "*",
        Operator::Divide => "div",
        Operator::Modulo => "mod",
        Operator::Union => "|",
    })
}

/// Adds the name of an axis.
pub fn push_axis(out: &mut Text, axis: Axis) -> Result<(), Memory> {
    out.push_str(match axis {
        Axis::Ancestor => "ancestor",
        Axis::AncestorOrSelf => "ancestor-or-self",
        Axis::Attribute => "attribute",
        Axis::Child => "child",
        Axis::Descendant => "descendant",
        Axis::DescendantOrSelf => "descendant-or-self",
        Axis::Following => "following",
        Axis::FollowingSibling => "following-sibling",
        Axis::Namespace => "namespace",
        Axis::Parent => "parent",
        Axis::Preceding => "preceding",
        Axis::PrecedingSibling => "preceding-sibling",
        Axis::Itself => "self",
    })
}

/// Adds a node test.
pub fn push_test(out: &mut Text, test: &Test) -> Result<(), Memory> {
    match test {
        Test::AnyName => out.push('*'),
        Test::InNamespace(uri) => {
            push_uri(out, uri.as_str())?;
            out.push('*')
        }
        Test::Named(name) => push_name(out, name),
        Test::OfType(NodeType::Comment) => out.push_str("comment()"),
        Test::OfType(NodeType::Text) => out.push_str("text()"),
        Test::OfType(NodeType::ProcessingInstruction) => out.push_str("processing-instruction()"),
        Test::OfType(NodeType::Node) => out.push_str("node()"),
        Test::Instruction(target) => {
            out.push_str("processing-instruction(")?;
            push_quoted(out, target.as_str())?;
            out.push(')')
        }
    }
}
