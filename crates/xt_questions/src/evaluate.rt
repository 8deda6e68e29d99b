// Worlds that evaluate.
ghost use Rattle.std.specs.Prelude.{◌≡◌};
ghost use Rattle.spec_meaning.specs.Meaning.{meaning};
ghost use Rattle.spec_meaning.specs.Supplies.{at_hand};
ghost use Rattle.xt_syntax.specs.View.{expr_of};
ghost use Rattle.xt_tree.specs.ValueView.{value_of};
ghost use Rattle.xt_questions.specs.View.{context_of, supplies_of};
ghost use Rattle.xt_questions.specs.Runs.{Runs};

use crate::{Context, EvalFault, Focus, Supplies, World};
use std::alloc::Global;
use xt_syntax::Expr;
use xt_tree::Value;

/// A world that evaluates expressions.
pub trait Evaluate: World {
    /// The value of the expression. An error is want of memory, the first refusal, or the first global that
    /// is needed and was not given for a content so deep.
    fn value(
        &mut self,
        alloc: Global,
        expr: &Expr,
        focus: Focus,
        context: &Context,
        supplies: &Supplies,
    ) -> Result<Value, EvalFault>
        ensures runs { Runs value_of (at_hand (supplies_of supplies.now) context.now.depth) context.now.depth (meaning (expr_of expr.now) (context_of focus context.now)) (Self.state self.old) (Self.state self.new) result }
        ensures name { Self.name self.new ≡ Self.name self.old };
}
