// Copies of what others hold.
ghost use Rattle.std.specs.Prelude.{◌≡◌, IfOk};
ghost use Rattle.xt_syntax.specs.View.{test_of};
ghost use Rattle.xt_syntax.specs.PartView.{place_of};
ghost use Rattle.xt_tree.specs.ValueView.{value_of};

use std::alloc::Global;
use xt_base::Place;
use xt_names::copy_name;
use xt_syntax::Test;
use xt_text::{Memory, Text};
use xt_tree::{Fragment, Value};

/// The same text, where there is one, in memory of its own.
pub(crate) fn copy_text_if(alloc: Global, text: &Option<Text>) -> Result<Option<Text>, Memory>
    ensures { IfOk result (λ t. t ≡ text.now) }
{
    match text {
        None => Ok(None),
        Some(text) => Ok(Some(text.copy(alloc)?)),
    }
}

/// The same place, in memory of its own.
pub fn copy_place(alloc: Global, place: &Place) -> Result<Place, Memory>
    ensures { IfOk result (λ p. place_of p ≡ place_of place.now) }
{
    let module = copy_text_if(alloc, &place.module)?;
    let path = place.path.copy(alloc)?;
    Ok(Place { module, path })
}

/// The same node test, in memory of its own.
pub fn copy_test(alloc: Global, test: &Test) -> Result<Test, Memory>
    ensures { IfOk result (λ t. test_of t ≡ test_of test.now) }
{
    match test {
        Test::AnyName => Ok(Test::AnyName),
        Test::InNamespace(uri) => Ok(Test::InNamespace(uri.copy(alloc)?)),
        Test::Named(name) => Ok(Test::Named(copy_name(alloc, name)?)),
        Test::OfType(node_type) => Ok(Test::OfType(*node_type)),
        Test::Instruction(target) => Ok(Test::Instruction(target.copy(alloc)?)),
    }
}

/// The same value. A fragment is shared.
pub fn copy_value(alloc: Global, value: &Value) -> Result<Value, Memory>
    ensures { IfOk result (λ v. value_of v ≡ value_of value.now) }
{
    match value {
        Value::Number(number) => Ok(Value::Number(*number)),
        Value::Text(text) => Ok(Value::Text(text.copy(alloc)?)),
        Value::Boolean(boolean) => Ok(Value::Boolean(*boolean)),
        Value::Nodes(nodes) => Ok(Value::Nodes(Vec::from_slice(alloc, nodes.as_slice())?)),
        Value::Fragment(fragment) => Ok(Value::Fragment(Fragment::new(fragment.items().clone()?))),
    }
}
