// Names that stand in texts, and the system properties (XSLT 1.0, sections 2.4 and 12.4).
ghost use Rattle.std.specs.Prelude.{◌≡◌, ℕ, IfOk, pos};
ghost use Rattle.std.specs.Str.{chars};
ghost use Rattle.spec_document.specs.Name.{same_name};
ghost use Rattle.spec_expression.specs.Number.{Whole};
ghost use Rattle.spec_meaning.specs.Program.{State, Supply};
ghost use Rattle.spec_meaning.specs.Call.{name_meant, system_property, xslt};
ghost use Rattle.xt_tree.specs.ValueView.{value_of};
ghost use Rattle.spec_node.specs.declared.node_ref.NodeRef.{NodeRef};
ghost use Rattle.xt_questions.specs.Runs.{Runs, itself};
ghost use Rattle.xt_questions.specs.declared.fault.EvalFault.TheVariants as fault;
ghost use Rattle.xt_questions.specs.declared.fault.Refusal.TheVariants as refusal;
ghost use Rattle.spec_expression.specs.declared.code.DynCode.TheVariants as code;

use spec_expression::DynCode;
use std::alloc::Global;
use xt_base::Num;
use xt_names::{Expanded, QName, Scope, XSLT_URI};
use xt_questions::{EvalFault, Refusal};
use xt_text::{Memory, Text};
use xt_tree::Value;

/// The expanded name that a text stands for; without a prefix it is in no namespace. D08 where the text is no
/// QName, or has an undeclared prefix.
pub(crate) fn name_meant(alloc: Global, scope: &Scope, text: &str) -> Result<Expanded, EvalFault>
    ensures { (supply : Supply NodeRef) → (depth : ℕ) → (s : State NodeRef) → Runs itself supply depth (name_meant scope.now (chars text.now)) s s result }
{
    match QName::read(text) {
        None => Err(bad_name()),
        Some(name) => match scope.attribute_name(alloc, &name)? {
            None => Err(bad_name()),
            Some(expanded) => Ok(expanded),
        },
    }
}

fn bad_name() -> EvalFault
    ensures { result ≡ fault.Refused (refusal.Here code.BadName) }
{
    EvalFault::Refused(Refusal::Here(DynCode::BadName))
}

/// The system property of this name; the empty text where there is none.
pub(crate) fn system_property(alloc: Global, name: &Expanded) -> Result<Value, Memory>
    ensures { IfOk result (λ v. value_of v ≡ system_property name.now) }
{
    if is_xslt(name, "version") {
        return Ok(Value::Number(version()));
    }
    if is_xslt(name, "vendor") {
        let vendor = Text::from_str(alloc, "xt")?;
        return Ok(Value::Text(vendor));
    }
    if is_xslt(name, "vendor-url") {
        let url = Text::from_str(alloc, "http://xt.invalid/")?;
        return Ok(Value::Text(url));
    }
    Ok(Value::Text(Text::new(alloc)))
}

// The version of XSLT.
fn version() -> Num
    ensures { result ≡ Whole (pos 1) }
{
    match Num::whole(1) {
        Ok(version) => version,
        Err(_) => Num::nan(),
    }
}

// Whether this is the name of this local part in the namespace of XSLT.
fn is_xslt(name: &Expanded, local: &str) -> bool
    ensures { result ≡ same_name name.now (xslt (chars local.now)) }
{
    name.uri().is(XSLT_URI) && name.local().is(local)
}
