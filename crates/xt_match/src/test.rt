// Node tests of a pattern's steps, which a node passes by its kind and its name (XPath 1.0, section 2.3).
ghost use Rattle.std.specs.Prelude.{◌≡◌, Some};
ghost use Rattle.spec_document.specs.Name.{same_expanded};
ghost use Rattle.spec_meaning.specs.Step as spec;
ghost use Rattle.spec_transform.specs.Match as definition;
ghost use Rattle.xt_syntax.specs.View.{test_of};
ghost use Rattle.xt_questions.specs.View.{answer_of};

use spec_document::{Axis, Kind};
use spec_expression::NodeType;
use xt_names::Expanded;
use xt_questions::Answer;
use xt_syntax::Test;
use xt_text::Text;

// Whether nodes of this kind are children.
fn is_child(kind: Kind) -> bool
    ensures { result ≡ definition.is_child kind }
{
    matches!(
        kind,
        Kind::Element | Kind::Text | Kind::Comment | Kind::Instruction
    )
}

/// Whether the axis leads to nodes of this kind, where it is one that a pattern has.
pub(crate) fn is_led_to(axis: Axis, kind: Kind) -> bool
    ensures { result ≡ definition.is_led_to axis kind }
{
    match axis {
        Axis::Attribute => kind == Kind::Attribute,
        _ => is_child(kind),
    }
}

// Whether nodes of this kind are those that a name on the axis is of.
fn is_principal(axis: Axis, kind: Kind) -> bool
    ensures { result ≡ spec.is_principal axis kind }
{
    match axis {
        Axis::Attribute => kind == Kind::Attribute,
        Axis::Namespace => kind == Kind::Namespace,
        _ => kind == Kind::Element,
    }
}

fn is_of_type(node_type: NodeType, kind: Kind) -> bool
    ensures { result ≡ spec.is_of_type node_type kind }
{
    match node_type {
        NodeType::Node => true,
        NodeType::Text => kind == Kind::Text,
        NodeType::Comment => kind == Kind::Comment,
        NodeType::ProcessingInstruction => kind == Kind::Instruction,
    }
}

fn is_in_namespace(uri: &Text, name: &Option<Expanded>) -> bool
    ensures { result ≡ spec.is_in_namespace uri.now name.now }
{
    match name {
        None => false,
        Some(name) => name.uri().same(uri),
    }
}

fn has_local(local: &Text, name: &Option<Expanded>) -> bool
    ensures { result ≡ spec.has_local local.now name.now }
{
    match name {
        None => false,
        Some(name) => name.local().same(local),
    }
}

fn is_named(wanted: &Expanded, name: &Option<Expanded>) -> bool
    ensures { result ≡ same_expanded (Some wanted.now) name.now }
{
    match name {
        None => false,
        Some(name) => wanted.same(name),
    }
}

/// Whether a node of this kind and name passes the node test.
pub(crate) fn passes_test(axis: Axis, test: &Test, kind: Kind, name: &Option<Expanded>) -> bool
    ensures { result ≡ definition.passes_test axis (test_of test.now) kind name.now }
{
    match test {
        Test::AnyName => is_principal(axis, kind),
        Test::InNamespace(uri) => is_principal(axis, kind) && is_in_namespace(uri, name),
        Test::Named(wanted) => is_principal(axis, kind) && is_named(wanted, name),
        Test::OfType(node_type) => is_of_type(*node_type, kind),
        Test::Instruction(target) => {
            is_of_type(NodeType::ProcessingInstruction, kind) && has_local(target, name)
        }
    }
}

/// Whether a node that is called so is one that the axis leads to, and passes the node test.
pub(crate) fn passes(axis: Axis, test: &Test, called: &Answer) -> bool
    ensures { result ≡ definition.passes axis (test_of test.now) (answer_of called.now) }
{
    match called {
        Answer::Named(kind, name, _) => {
            is_led_to(axis, *kind) && passes_test(axis, test, *kind, name)
        }
        _ => false,
    }
}

/// Whether a node that is called so is the root.
pub(crate) fn is_root(called: &Answer) -> bool
    ensures { result ≡ definition.is_root (answer_of called.now) }
{
    match called {
        Answer::Named(kind, _, _) => *kind == Kind::Root,
        _ => false,
    }
}
