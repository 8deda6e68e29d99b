// Parts of instructions, and what they come to where an instruction stands.
ghost use Rattle.std.specs.Prelude.{◌≡◌, ℕ, List, Bool};
ghost use Rattle.spec_meaning.specs.Context.{Context};
ghost use Rattle.spec_meaning.specs.Meaning.{meaning};
ghost use Rattle.spec_meaning.specs.Program.{Program};
ghost use Rattle.spec_meaning.specs.Supplies.{at_hand};
ghost use Rattle.spec_meaning.specs.Value as value;
ghost use Rattle.spec_transform.specs.Expansion.{expanded};
ghost use Rattle.spec_transform.specs.Numbering.{number_meant};
ghost use Rattle.spec_transform.specs.Sorted as sorting;
ghost use Rattle.spec_transform.specs.Sorted.{criterion_meant, key_meant};
ghost use Rattle.spec_run.specs.Content.{text_meant, nodes_meant, truth_meant};
ghost use Rattle.spec_run.specs.Names as names;
ghost use Rattle.spec_run.specs.Plan as plan;
ghost use Rattle.xt_syntax.specs.PartView.{avt_of, made_name_of, numbering_of, sort_key_of};
ghost use Rattle.xt_syntax.specs.View.{expr_of};
ghost use Rattle.spec_node.specs.Naming.{same_ref};
ghost use Rattle.spec_node.specs.declared.node_ref.NodeRef.{NodeRef};
ghost use Rattle.xt_tree.specs.ValueView.{value_of};
ghost use Rattle.xt_questions.specs.View.{context_of, supplies_of};
ghost use Rattle.xt_questions.specs.Runs.{Runs, itself, items};
ghost use Rattle.xt_engine.specs.View.{wrapping_of};
ghost use Rattle.xt_sort.specs.View.{criterion_of, key_of};

use std::alloc::Global;
use xp_values::{to_boolean, to_nodes, to_text};
use xt_avt::expand;
use xt_engine::Wrapping;
use xt_made_names::{attribute_meant, element_meant, instruction_meant};
use xt_number::number_text;
use xt_questions::{Context, EvalFault, Evaluate, Focus, Supplies};
use xt_sort::{Criterion, KeyValue};
use xt_syntax::{Avt, Expr, MadeName, Numbering, SortKey};
use xt_text::Text;
use xt_tree::{NodeRef, Value};

/// A part of an instruction that comes to a `T`.
pub(crate) trait Operand<T> {
    /// What a `T` is to the definitions.
    ghost Seen: { Type 0 };

    ghost seen: { T → Seen };

    /// What is run for it.
    ghost meant: { Self → Context NodeRef → Program NodeRef Seen };

    /// What it comes to.
    fn found<W: Evaluate>(
        &self,
        alloc: Global,
        focus: Focus,
        context: &Context,
        supplies: &Supplies,
        world: &mut W,
    ) -> Result<T, EvalFault>
        ensures runs { Runs seen (at_hand (supplies_of supplies.now) context.now.depth) context.now.depth (meant self.now (context_of focus context.now)) (W.state world.old) (W.state world.new) result }
        ensures name { W.name world.new ≡ W.name world.old };
}

/// The value of an expression.
impl Operand<Value> for Expr {
    ghost Seen = { value.Value NodeRef };

    ghost seen = { value_of };

    ghost meant = { λ expr. meaning (expr_of expr) };

    fn found<W: Evaluate>(
        &self,
        alloc: Global,
        focus: Focus,
        context: &Context,
        supplies: &Supplies,
        world: &mut W,
    ) -> Result<Value, EvalFault> {
        world.value(alloc, self, focus, context, supplies)
    }
}

/// The value as a string.
impl Operand<Text> for Expr {
    ghost Seen = { List ℕ };

    ghost seen = { itself };

    ghost meant = { λ expr. text_meant (expr_of expr) };

    fn found<W: Evaluate>(
        &self,
        alloc: Global,
        focus: Focus,
        context: &Context,
        supplies: &Supplies,
        world: &mut W,
    ) -> Result<Text, EvalFault> {
        let value = world.value(alloc, self, focus, context, supplies)?;
        to_text(alloc, value, world)
    }
}

/// The nodes. D04 where the value is no node-set.
impl Operand<Vec<NodeRef>> for Expr {
    ghost Seen = { List NodeRef };

    ghost seen = { items };

    ghost meant = { λ expr. nodes_meant (expr_of expr) };

    fn found<W: Evaluate>(
        &self,
        alloc: Global,
        focus: Focus,
        context: &Context,
        supplies: &Supplies,
        world: &mut W,
    ) -> Result<Vec<NodeRef>, EvalFault> {
        let value = world.value(alloc, self, focus, context, supplies)?;
        to_nodes(value)
    }
}

/// The value as a boolean.
impl Operand<bool> for Expr {
    ghost Seen = { Bool };

    ghost seen = { itself };

    ghost meant = { λ expr. truth_meant (expr_of expr) };

    fn found<W: Evaluate>(
        &self,
        alloc: Global,
        focus: Focus,
        context: &Context,
        supplies: &Supplies,
        world: &mut W,
    ) -> Result<bool, EvalFault> {
        let value = world.value(alloc, self, focus, context, supplies)?;
        let truth = to_boolean(&value);
        drop(value);
        Ok(truth)
    }
}

/// The string of a value template.
impl Operand<Text> for Avt {
    ghost Seen = { List ℕ };

    ghost seen = { itself };

    ghost meant = { λ avt. expanded (avt_of avt) };

    fn found<W: Evaluate>(
        &self,
        alloc: Global,
        focus: Focus,
        context: &Context,
        supplies: &Supplies,
        world: &mut W,
    ) -> Result<Text, EvalFault> {
        expand(alloc, self, focus, context, supplies, world)
    }
}

/// The processing instruction with this target.
impl Operand<Wrapping> for Avt {
    ghost Seen = { plan.Wrapping };

    ghost seen = { wrapping_of };

    ghost meant = { λ avt. names.instruction_meant (avt_of avt) };

    fn found<W: Evaluate>(
        &self,
        alloc: Global,
        focus: Focus,
        context: &Context,
        supplies: &Supplies,
        world: &mut W,
    ) -> Result<Wrapping, EvalFault> {
        instruction_meant(alloc, self, focus, context, supplies, world)
    }
}

/// The element with this name.
impl Operand<Wrapping> for MadeName {
    ghost Seen = { plan.Wrapping };

    ghost seen = { wrapping_of };

    ghost meant = { λ made. names.element_meant (made_name_of made) };

    fn found<W: Evaluate>(
        &self,
        alloc: Global,
        focus: Focus,
        context: &Context,
        supplies: &Supplies,
        world: &mut W,
    ) -> Result<Wrapping, EvalFault> {
        element_meant(alloc, self, focus, context, supplies, world)
    }
}

/// The name of an attribute that is made.
#[derive(Drop)]
pub(crate) struct AttributeName<'a>(pub(crate) &'a MadeName);

/// The attribute with this name.
impl Operand<Wrapping> for AttributeName<'_> {
    ghost Seen = { plan.Wrapping };

    ghost seen = { wrapping_of };

    ghost meant = { λ made. names.attribute_meant (made_name_of made.0.now) };

    fn found<W: Evaluate>(
        &self,
        alloc: Global,
        focus: Focus,
        context: &Context,
        supplies: &Supplies,
        world: &mut W,
    ) -> Result<Wrapping, EvalFault> {
        attribute_meant(alloc, self.0, focus, context, supplies, world)
    }
}

/// How a sort key compares.
impl Operand<Criterion> for SortKey {
    ghost Seen = { sorting.Criterion };

    ghost seen = { criterion_of };

    ghost meant = { λ key. criterion_meant (sort_key_of key) };

    fn found<W: Evaluate>(
        &self,
        alloc: Global,
        focus: Focus,
        context: &Context,
        supplies: &Supplies,
        world: &mut W,
    ) -> Result<Criterion, EvalFault> {
        xt_sort::criterion(alloc, self, focus, context, supplies, world)
    }
}

/// A sort key that compares so.
#[derive(Drop)]
pub(crate) struct KeyBy<'a> {
    pub(crate) key: &'a SortKey,
    pub(crate) criterion: Criterion,
}

/// The key of a node.
impl Operand<KeyValue> for KeyBy<'_> {
    ghost Seen = { sorting.KeyValue };

    ghost seen = { key_of };

    ghost meant = { λ by. key_meant (sort_key_of by.key.now) (criterion_of by.criterion) };

    fn found<W: Evaluate>(
        &self,
        alloc: Global,
        focus: Focus,
        context: &Context,
        supplies: &Supplies,
        world: &mut W,
    ) -> Result<KeyValue, EvalFault> {
        xt_sort::key_value(
            alloc,
            self.key,
            self.criterion,
            focus,
            context,
            supplies,
            world,
        )
    }
}

/// The text of an xsl:number.
impl Operand<Text> for Numbering {
    ghost Seen = { List ℕ };

    ghost seen = { itself };

    ghost meant = { λ numbering. number_meant same_ref (numbering_of numbering) };

    fn found<W: Evaluate>(
        &self,
        alloc: Global,
        focus: Focus,
        context: &Context,
        supplies: &Supplies,
        world: &mut W,
    ) -> Result<Text, EvalFault> {
        number_text(alloc, self, focus, context, supplies, world)
    }
}
