// Functions of one text (XPath 1.0, sections 4.2 and 4.3; XSLT 1.0, sections 12.4 and 15).
ghost use Rattle.std.specs.Prelude.{◌≡◌, ℕ};
ghost use Rattle.spec_expression.specs.Strings.{length_of, normalized};
ghost use Rattle.spec_meaning.specs.Value as value;
ghost use Rattle.spec_meaning.specs.Program.{Give, State, Supply, then};
ghost use Rattle.spec_meaning.specs.Convert as convert;
ghost use Rattle.spec_meaning.specs.Function as function;
ghost use Rattle.spec_meaning.specs.Call.{name_meant, of_text, system_property};
ghost use Rattle.xt_tree.specs.ValueView.{value_of};
ghost use Rattle.spec_node.specs.declared.node_ref.NodeRef.{NodeRef};
ghost use Rattle.xt_questions.specs.View.{context_of};
ghost use Rattle.xt_questions.specs.Runs.{Runs};

use crate::language::lang;
use crate::name::{name_meant, system_property};
use crate::table::{is_function, is_instruction};
use spec_meaning::TextFunction;
use std::alloc::Global;
use xp_text::{length, normalize};
use xp_values::given;
use xt_names::Scope;
use xt_questions::{Context, EvalFault, Focus, World};
use xt_text::Text;
use xt_tree::Value;

/// What a function makes of one text.
pub(crate) fn of_text<W: World>(
    alloc: Global,
    function: TextFunction,
    text: &Text,
    focus: Focus,
    context: &Context,
    world: &mut W,
) -> Result<Value, EvalFault>
    ensures runs { (supply : Supply NodeRef) → (depth : ℕ) → Runs value_of supply depth (of_text function (context_of focus context.now) text.now) (W.state world.old) (W.state world.new) result }
    ensures name { W.name world.new ≡ W.name world.old }
{
    match function {
        TextFunction::StringLength => string_length(text),
        TextFunction::NormalizeSpace => normal(alloc, text),
        TextFunction::Lang => lang(alloc, text, focus.node, world),
        TextFunction::SystemProperty => property(alloc, &context.scope, text),
        TextFunction::ElementAvailable => has_instruction(alloc, &context.scope, text),
        TextFunction::FunctionAvailable => has_function(alloc, &context.scope, text),
        TextFunction::UnparsedEntityUri => Ok(Value::Text(Text::new(alloc))),
    }
}

fn string_length(text: &Text) -> Result<Value, EvalFault>
    ensures { (supply : Supply NodeRef) → (depth : ℕ) → (s : State NodeRef) → Runs value_of supply depth (then (convert.given (length_of text.now)) (λ n. Give (value.Number n))) s s result }
{
    let number = given(length(text.as_str()))?;
    Ok(Value::Number(number))
}

fn normal(alloc: Global, text: &Text) -> Result<Value, EvalFault>
    ensures { (supply : Supply NodeRef) → (depth : ℕ) → (s : State NodeRef) → Runs value_of supply depth (Give (value.Text (normalized text.now))) s s result }
{
    let normal = normalize(alloc, text.as_str())?;
    Ok(Value::Text(normal))
}

// The system property of the name that the text is.
fn property(alloc: Global, scope: &Scope, text: &Text) -> Result<Value, EvalFault>
    ensures { (supply : Supply NodeRef) → (depth : ℕ) → (s : State NodeRef) → Runs value_of supply depth (then (name_meant scope.now text.now) (λ name. Give (system_property name))) s s result }
{
    let name = name_meant(alloc, scope, text.as_str())?;
    let value = system_property(alloc, &name)?;
    Ok(value)
}

// Whether the text is the name of an instruction.
fn has_instruction(alloc: Global, scope: &Scope, text: &Text) -> Result<Value, EvalFault>
    ensures { (supply : Supply NodeRef) → (depth : ℕ) → (s : State NodeRef) → Runs value_of supply depth (then (name_meant scope.now text.now) (λ name. Give (value.Boolean (function.is_instruction name)))) s s result }
{
    let name = name_meant(alloc, scope, text.as_str())?;
    Ok(Value::Boolean(is_instruction(&name)))
}

// Whether the text is the name of a function.
fn has_function(alloc: Global, scope: &Scope, text: &Text) -> Result<Value, EvalFault>
    ensures { (supply : Supply NodeRef) → (depth : ℕ) → (s : State NodeRef) → Runs value_of supply depth (then (name_meant scope.now text.now) (λ name. Give (value.Boolean (function.is_function name)))) s s result }
{
    let name = name_meant(alloc, scope, text.as_str())?;
    Ok(Value::Boolean(is_function(&name)))
}
