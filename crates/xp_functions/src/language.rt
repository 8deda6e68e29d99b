// Whether a node is in a language (XPath 1.0, section 4.3, `lang`).
ghost use Rattle.std.specs.Prelude.{◌≡◌, ℕ, IfOk};
ghost use Rattle.spec_document.specs.declared.axis.Axis.TheVariants as axis;
ghost use Rattle.spec_expression.specs.Strings.{is_language};
ghost use Rattle.spec_expression.specs.Syntax.{AnyName, Named};
ghost use Rattle.spec_meaning.specs.Value as value;
ghost use Rattle.spec_meaning.specs.Question.{Step, nodes_in};
ghost use Rattle.spec_meaning.specs.Program.{Ask, Give, Supply, then};
ghost use Rattle.spec_meaning.specs.Convert.{text_at};
ghost use Rattle.spec_meaning.specs.Call.{language_of, xml_lang};
ghost use Rattle.xt_syntax.specs.View.{test_of};
ghost use Rattle.xt_tree.specs.ValueView.{value_of};
ghost use Rattle.spec_node.specs.declared.node_ref.NodeRef.{NodeRef};
ghost use Rattle.xt_questions.specs.Runs.{Runs, items};

use spec_document::Axis;
use std::alloc::Global;
use xp_text::lang_matches;
use xt_names::{Expanded, XML_URI};
use xt_questions::{EvalFault, World, ask_nodes, ask_text};
use xt_syntax::Test;
use xt_text::{Memory, Text};
use xt_tree::{NodeRef, Value};

/// Whether the node is in the language: that of the nearest `xml:lang`.
pub(crate) fn lang<W: World>(
    alloc: Global,
    wanted: &Text,
    node: NodeRef,
    world: &mut W,
) -> Result<Value, EvalFault>
    ensures runs { (supply : Supply NodeRef) → (depth : ℕ) → Runs value_of supply depth (Ask (Step node axis.AncestorOrSelf AnyName) (λ a. language_of wanted.now (nodes_in a))) (W.state world.old) (W.state world.new) result }
    ensures name { W.name world.new ≡ W.name world.old }
{
    let elements = ask_nodes(alloc, world, node, Axis::AncestorOrSelf, Test::AnyName)?;
    language_of(alloc, wanted, elements.as_slice(), world)
}

// Whether the first of these elements that has a language has this one.
fn language_of<W: World>(
    alloc: Global,
    wanted: &Text,
    elements: &[NodeRef],
    world: &mut W,
) -> Result<Value, EvalFault>
    ensures runs { (supply : Supply NodeRef) → (depth : ℕ) → Runs value_of supply depth (language_of wanted.now elements.now) (W.state world.old) (W.state world.new) result }
    ensures name { W.name world.new ≡ W.name world.old }
{
    for element in elements {
        let attributes = lang_attributes(alloc, *element, world)?;
        if !attributes.as_slice().is_empty() {
            return language_at(alloc, wanted, attributes.as_slice()[0], world);
        }
    }
    Ok(Value::Boolean(false))
}

// The `xml:lang` of an element, where it has one.
fn lang_attributes<W: World>(
    alloc: Global,
    element: NodeRef,
    world: &mut W,
) -> Result<Vec<NodeRef>, EvalFault>
    ensures runs { (supply : Supply NodeRef) → (depth : ℕ) → Runs items supply depth (Ask (Step element axis.Attribute (Named xml_lang)) (λ a. Give (nodes_in a))) (W.state world.old) (W.state world.new) result }
    ensures name { W.name world.new ≡ W.name world.old }
{
    let test = lang_test(alloc)?;
    ask_nodes(alloc, world, element, Axis::Attribute, test)
}

fn lang_test(alloc: Global) -> Result<Test, Memory>
    ensures { IfOk result (λ test. test_of test ≡ Named xml_lang) }
{
    let uri = Text::from_str(alloc, XML_URI)?;
    let local = Text::from_str(alloc, "lang")?;
    Ok(Test::Named(Expanded::new(uri, local)))
}

// Whether the language that this attribute has is the wanted one.
fn language_at<W: World>(
    alloc: Global,
    wanted: &Text,
    attribute: NodeRef,
    world: &mut W,
) -> Result<Value, EvalFault>
    ensures runs { (supply : Supply NodeRef) → (depth : ℕ) → Runs value_of supply depth (then (text_at attribute) (λ t. Give (value.Boolean (is_language t wanted.now)))) (W.state world.old) (W.state world.new) result }
    ensures name { W.name world.new ≡ W.name world.old }
{
    let text = ask_text(alloc, world, attribute)?;
    Ok(Value::Boolean(lang_matches(text.as_str(), wanted.as_str())))
}
