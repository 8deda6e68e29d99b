// The namespace that an instruction tells for a name, and the one that the name itself has.
ghost use Rattle.std.specs.Prelude.{◌≡◌, ℕ};
ghost use Rattle.std.specs.Option.{option_map};
ghost use Rattle.spec_expression.specs.declared.code.DynCode.TheVariants as code;
ghost use Rattle.spec_meaning.specs.Program.{State, Supply};
ghost use Rattle.spec_meaning.specs.Supplies.{at_hand};
ghost use Rattle.spec_run.specs.Names as names;
ghost use Rattle.xt_syntax.specs.PartView.{avt_of};
ghost use Rattle.spec_node.specs.declared.node_ref.NodeRef.{NodeRef};
ghost use Rattle.xt_questions.specs.View.{context_of, supplies_of};
ghost use Rattle.xt_questions.specs.Runs.{Runs, itself};
ghost use Rattle.xt_questions.specs.declared.fault.EvalFault.TheVariants as fault;
ghost use Rattle.xt_questions.specs.declared.fault.Refusal.TheVariants as refusal;
ghost use Rattle.xt_made_names.specs.Uri.{uri_in};

use spec_expression::DynCode;
use std::alloc::Global;
use xt_avt::expand;
use xt_names::{Expanded, XMLNS_URI};
use xt_questions::{Context, EvalFault, Evaluate, Focus, Refusal, Supplies};
use xt_syntax::Avt;
use xt_text::Text;

/// The namespace that the attribute `namespace` stands for, where it is there.
pub(crate) fn namespace_meant<W: Evaluate>(
    alloc: Global,
    template: &Option<Avt>,
    focus: Focus,
    context: &Context,
    supplies: &Supplies,
    world: &mut W,
) -> Result<Option<Text>, EvalFault>
    ensures runs { Runs itself (at_hand (supplies_of supplies.now) context.now.depth) context.now.depth (names.namespace_meant (option_map avt_of template.now) (context_of focus context.now)) (W.state world.old) (W.state world.new) result }
    ensures name { W.name world.new ≡ W.name world.old }
{
    match template {
        None => Ok(None),
        Some(template) => {
            let uri = expand(alloc, template, focus, context, supplies, world)?;
            Ok(Some(uri))
        }
    }
}

/// Whether the namespace is that of declarations, in which nothing can be.
pub(crate) fn is_barred(uri: &Option<Text>) -> bool
    ensures { result ≡ names.is_barred uri.now }
{
    match uri {
        None => false,
        Some(uri) => is_declarations(uri),
    }
}

// Whether this is the namespace of declarations.
fn is_declarations(uri: &Text) -> bool
    ensures { result ≡ names.is_barred (Some uri.now) }
{
    uri.is(XMLNS_URI)
}

/// The URI of a name; D08 where the prefix of the name is not declared.
pub(crate) fn uri_of(alloc: Global, expanded: Option<Expanded>) -> Result<Text, EvalFault>
    ensures { (supply : Supply NodeRef) → (depth : ℕ) → (s : State NodeRef) → Runs itself supply depth (uri_in expanded) s s result }
{
    match expanded {
        None => Err(bad_name()),
        Some(expanded) => Ok(expanded.uri().copy(alloc)?),
    }
}

/// The refusal of a name that cannot be made.
pub(crate) fn bad_name() -> EvalFault
    ensures { result ≡ fault.Refused (refusal.Here code.BadName) }
{
    EvalFault::Refused(Refusal::Here(DynCode::BadName))
}
