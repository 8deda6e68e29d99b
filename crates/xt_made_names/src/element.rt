// Elements (XSLT 1.0, section 7.1.2).
ghost use Rattle.std.specs.Prelude.{◌≡◌, ℕ, List, [], if◌then◌else◌};
ghost use Rattle.std.specs.Str.{chars};
ghost use Rattle.spec_document.specs.Name.{qname_of};
ghost use Rattle.spec_document.specs.Declaration.{element_name};
ghost use Rattle.spec_meaning.specs.Program.{State, Supply};
ghost use Rattle.spec_meaning.specs.Supplies.{at_hand};
ghost use Rattle.spec_run.specs.Names as names;
ghost use Rattle.spec_run.specs.Plan as plan;
ghost use Rattle.xt_syntax.specs.PartView.{made_name_of};
ghost use Rattle.spec_node.specs.declared.node_ref.NodeRef.{NodeRef};
ghost use Rattle.xt_questions.specs.View.{context_of, supplies_of};
ghost use Rattle.xt_questions.specs.Runs.{Runs, itself};
ghost use Rattle.xt_engine.specs.View.{wrapping_of};
ghost use Rattle.xt_made_names.specs.Uri.{element_by, uri_in};

use crate::told::{bad_name, is_barred, namespace_meant, uri_of};
use std::alloc::Global;
use xt_avt::expand;
use xt_engine::Wrapping;
use xt_names::{QName, Scope};
use xt_questions::{Context, EvalFault, Evaluate, Focus, Supplies};
use xt_syntax::MadeName;
use xt_text::Text;

/// The element that an xsl:element makes (XSLT 1.0, section 7.1.2): its name as written, in the namespace that
/// the instruction tells, or else in that of the name's prefix, where a name without one is in the default
/// namespace. A name that is no QName makes none, so its content stands alone. D08 where the prefix is not
/// declared, or the namespace is that of declarations. Other errors are those of the expressions.
pub fn element_meant<W: Evaluate>(
    alloc: Global,
    made: &MadeName,
    focus: Focus,
    context: &Context,
    supplies: &Supplies,
    world: &mut W,
) -> Result<Wrapping, EvalFault>
    ensures runs { Runs wrapping_of (at_hand (supplies_of supplies.now) context.now.depth) context.now.depth (names.element_meant (made_name_of made.now) (context_of focus context.now)) (W.state world.old) (W.state world.new) result }
    ensures name { W.name world.new ≡ W.name world.old }
{
    let name = expand(alloc, &made.name, focus, context, supplies, world)?;
    let uri = namespace_meant(alloc, &made.namespace, focus, context, supplies, world)?;
    element_of(alloc, &context.scope, name, uri)
}

// The element of this name, in the namespace that is told where one is.
fn element_of(
    alloc: Global,
    scope: &Scope,
    name: Text,
    told: Option<Text>,
) -> Result<Wrapping, EvalFault>
    ensures { (supply : Supply NodeRef) → (depth : ℕ) → (s : State NodeRef) → Runs wrapping_of supply depth (if names.is_barred told then names.bad_name else names.element_called scope.now name (qname_of name) told) s s result }
{
    if is_barred(&told) {
        return Err(bad_name());
    }
    element_called(alloc, scope, name, told)
}

fn element_called(
    alloc: Global,
    scope: &Scope,
    name: Text,
    told: Option<Text>,
) -> Result<Wrapping, EvalFault>
    ensures { (supply : Supply NodeRef) → (depth : ℕ) → (s : State NodeRef) → Runs wrapping_of supply depth (names.element_called scope.now name (qname_of name) told) s s result }
{
    let uri = uri_called(alloc, scope, name.as_str(), told)?;
    match uri {
        None => Ok(Wrapping::Nameless),
        Some(uri) => Ok(Wrapping::Element {
            name,
            uri,
            namespaces: Vec::new(alloc),
        }),
    }
}

// The URI of the element; none where the name is no QName.
fn uri_called(
    alloc: Global,
    scope: &Scope,
    name: &str,
    told: Option<Text>,
) -> Result<Option<Text>, EvalFault>
    ensures { (supply : Supply NodeRef) → (depth : ℕ) → (s : State NodeRef) → Runs (element_by (chars name.now)) supply depth (names.element_called scope.now (chars name.now) (qname_of (chars name.now)) told) s s result }
{
    match QName::read(name) {
        None => Ok(None),
        Some(name) => {
            let uri = uri_told(alloc, scope, &name, told)?;
            Ok(Some(uri))
        }
    }
}

// The URI that is told, or else that of the name.
fn uri_told(
    alloc: Global,
    scope: &Scope,
    name: &QName<'_>,
    told: Option<Text>,
) -> Result<Text, EvalFault>
    ensures { (written : List ℕ) → (supply : Supply NodeRef) → (depth : ℕ) → (s : State NodeRef) → Runs (λ uri. plan.AsElement written uri []) supply depth (names.element_called scope.now written (Some name.now) told) s s result }
{
    match told {
        Some(uri) => Ok(uri),
        None => uri_by_prefix(alloc, scope, name),
    }
}

fn uri_by_prefix(alloc: Global, scope: &Scope, name: &QName<'_>) -> Result<Text, EvalFault>
    ensures { (supply : Supply NodeRef) → (depth : ℕ) → (s : State NodeRef) → Runs itself supply depth (uri_in (element_name scope.now name.now)) s s result }
{
    let expanded = scope.element_name(alloc, name)?;
    uri_of(alloc, expanded)
}
