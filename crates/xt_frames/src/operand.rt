// Expressions, evaluated where an instruction stands. What they read is noted at the element once they have a
// value: it is dropped where a global is lacking, since they are evaluated again from their start then.
ghost use Rattle.std.specs.Prelude.{◌≡◌, ℕ, List, Bool, IfOk};
ghost use Rattle.spec_meaning.specs.Value as value;
ghost use Rattle.spec_meaning.specs.Meaning.{meaning};
ghost use Rattle.spec_transform.specs.Expansion.{expanded};
ghost use Rattle.spec_transform.specs.Sorted as sorting;
ghost use Rattle.spec_transform.specs.Sorted.{criterion_meant, key_meant};
ghost use Rattle.spec_transform.specs.Numbering.{number_meant};
ghost use Rattle.spec_run.specs.Plan as plan;
ghost use Rattle.spec_run.specs.Names as names;
ghost use Rattle.spec_run.specs.Content.{asked, text_meant, nodes_meant, truth_meant};
ghost use Rattle.xt_syntax.specs.View.{expr_of};
ghost use Rattle.xt_syntax.specs.PartView.{site_of, place_of, avt_of, made_name_of, numbering_of, sort_key_of};
ghost use Rattle.spec_node.specs.Naming.{same_ref};
ghost use Rattle.spec_node.specs.declared.node_ref.NodeRef.{NodeRef};
ghost use Rattle.xt_tree.specs.ValueView.{value_of};
ghost use Rattle.xt_questions.specs.Runs.{itself, items};
ghost use Rattle.xt_engine.specs.View.{wrapping_of};
ghost use Rattle.xt_sort.specs.View.{criterion_of, key_of};
ghost use Rattle.xt_progress.specs.View.{going_of};
ghost use Rattle.xt_frames.specs.View.{here_of};
ghost use Rattle.xt_frames.specs.Left.{Found, hand, IsStill};

use crate::meant::{AttributeName, KeyBy, Operand};
use crate::noting::noted;
use crate::settle::settle;
use crate::{Came, Run, Standing};
use std::alloc::Global;
use xt_engine::Wrapping;
use xt_questions::World;
use xt_sort::{Criterion, KeyValue};
use xt_syntax::{Avt, Expr, MadeName, Numbering, Site, SortKey};
use xt_text::{Memory, Text};
use xt_tree::{NodeRef, Value};

/// The value of an expression.
pub fn value<W: World>(
    alloc: Global,
    run: &mut Run,
    expr: &Expr,
    site: &Site,
    here: &Standing,
    world: &mut W,
) -> Result<Came<Value>, Memory>
    ensures found { IfOk result (λ came. (k : value.Value NodeRef → plan.Plan NodeRef) → Found value_of (W.state world.old).truth (hand run.old) run.old.room (asked (site_of site.now) (here_of here.now) (meaning (expr_of expr.now)) k) k here.now.depth (place_of site.now.place) (going_of run.old.going) (going_of run.new.going) came) }
    ensures still { IsStill run.old run.new }
    ensures truth { (W.state world.new).truth ≡ (W.state world.old).truth }
    ensures name { W.name world.new ≡ W.name world.old }
{
    came(alloc, run, expr, site, here, world)
}

/// The value of an expression as a string.
pub fn text<W: World>(
    alloc: Global,
    run: &mut Run,
    expr: &Expr,
    site: &Site,
    here: &Standing,
    world: &mut W,
) -> Result<Came<Text>, Memory>
    ensures found { IfOk result (λ came. (k : List ℕ → plan.Plan NodeRef) → Found itself (W.state world.old).truth (hand run.old) run.old.room (asked (site_of site.now) (here_of here.now) (text_meant (expr_of expr.now)) k) k here.now.depth (place_of site.now.place) (going_of run.old.going) (going_of run.new.going) came) }
    ensures still { IsStill run.old run.new }
    ensures truth { (W.state world.new).truth ≡ (W.state world.old).truth }
    ensures name { W.name world.new ≡ W.name world.old }
{
    came(alloc, run, expr, site, here, world)
}

/// The nodes that an expression selects.
pub fn nodes<W: World>(
    alloc: Global,
    run: &mut Run,
    expr: &Expr,
    site: &Site,
    here: &Standing,
    world: &mut W,
) -> Result<Came<Vec<NodeRef>>, Memory>
    ensures found { IfOk result (λ came. (k : List NodeRef → plan.Plan NodeRef) → Found items (W.state world.old).truth (hand run.old) run.old.room (asked (site_of site.now) (here_of here.now) (nodes_meant (expr_of expr.now)) k) k here.now.depth (place_of site.now.place) (going_of run.old.going) (going_of run.new.going) came) }
    ensures still { IsStill run.old run.new }
    ensures truth { (W.state world.new).truth ≡ (W.state world.old).truth }
    ensures name { W.name world.new ≡ W.name world.old }
{
    came(alloc, run, expr, site, here, world)
}

/// The value of an expression as a boolean.
pub fn truth<W: World>(
    alloc: Global,
    run: &mut Run,
    expr: &Expr,
    site: &Site,
    here: &Standing,
    world: &mut W,
) -> Result<Came<bool>, Memory>
    ensures found { IfOk result (λ came. (k : Bool → plan.Plan NodeRef) → Found itself (W.state world.old).truth (hand run.old) run.old.room (asked (site_of site.now) (here_of here.now) (truth_meant (expr_of expr.now)) k) k here.now.depth (place_of site.now.place) (going_of run.old.going) (going_of run.new.going) came) }
    ensures still { IsStill run.old run.new }
    ensures truth { (W.state world.new).truth ≡ (W.state world.old).truth }
    ensures name { W.name world.new ≡ W.name world.old }
{
    came(alloc, run, expr, site, here, world)
}

/// The string of a value template.
pub fn expansion<W: World>(
    alloc: Global,
    run: &mut Run,
    avt: &Avt,
    site: &Site,
    here: &Standing,
    world: &mut W,
) -> Result<Came<Text>, Memory>
    ensures found { IfOk result (λ came. (k : List ℕ → plan.Plan NodeRef) → Found itself (W.state world.old).truth (hand run.old) run.old.room (asked (site_of site.now) (here_of here.now) (expanded (avt_of avt.now)) k) k here.now.depth (place_of site.now.place) (going_of run.old.going) (going_of run.new.going) came) }
    ensures still { IsStill run.old run.new }
    ensures truth { (W.state world.new).truth ≡ (W.state world.old).truth }
    ensures name { W.name world.new ≡ W.name world.old }
{
    came(alloc, run, avt, site, here, world)
}

/// The element that an xsl:element makes.
pub fn element<W: World>(
    alloc: Global,
    run: &mut Run,
    made: &MadeName,
    site: &Site,
    here: &Standing,
    world: &mut W,
) -> Result<Came<Wrapping>, Memory>
    ensures found { IfOk result (λ came. (k : plan.Wrapping → plan.Plan NodeRef) → Found wrapping_of (W.state world.old).truth (hand run.old) run.old.room (asked (site_of site.now) (here_of here.now) (names.element_meant (made_name_of made.now)) k) k here.now.depth (place_of site.now.place) (going_of run.old.going) (going_of run.new.going) came) }
    ensures still { IsStill run.old run.new }
    ensures truth { (W.state world.new).truth ≡ (W.state world.old).truth }
    ensures name { W.name world.new ≡ W.name world.old }
{
    came(alloc, run, made, site, here, world)
}

/// The attribute that an xsl:attribute makes.
pub fn attribute<W: World>(
    alloc: Global,
    run: &mut Run,
    made: &MadeName,
    site: &Site,
    here: &Standing,
    world: &mut W,
) -> Result<Came<Wrapping>, Memory>
    ensures found { IfOk result (λ came. (k : plan.Wrapping → plan.Plan NodeRef) → Found wrapping_of (W.state world.old).truth (hand run.old) run.old.room (asked (site_of site.now) (here_of here.now) (names.attribute_meant (made_name_of made.now)) k) k here.now.depth (place_of site.now.place) (going_of run.old.going) (going_of run.new.going) came) }
    ensures still { IsStill run.old run.new }
    ensures truth { (W.state world.new).truth ≡ (W.state world.old).truth }
    ensures name { W.name world.new ≡ W.name world.old }
{
    came(alloc, run, &AttributeName(made), site, here, world)
}

/// The processing instruction that an xsl:processing-instruction makes.
pub fn instruction<W: World>(
    alloc: Global,
    run: &mut Run,
    avt: &Avt,
    site: &Site,
    here: &Standing,
    world: &mut W,
) -> Result<Came<Wrapping>, Memory>
    ensures found { IfOk result (λ came. (k : plan.Wrapping → plan.Plan NodeRef) → Found wrapping_of (W.state world.old).truth (hand run.old) run.old.room (asked (site_of site.now) (here_of here.now) (names.instruction_meant (avt_of avt.now)) k) k here.now.depth (place_of site.now.place) (going_of run.old.going) (going_of run.new.going) came) }
    ensures still { IsStill run.old run.new }
    ensures truth { (W.state world.new).truth ≡ (W.state world.old).truth }
    ensures name { W.name world.new ≡ W.name world.old }
{
    came(alloc, run, avt, site, here, world)
}

/// How a sort key compares, where the instruction that it sorts for stands.
pub fn criterion<W: World>(
    alloc: Global,
    run: &mut Run,
    key: &SortKey,
    here: &Standing,
    world: &mut W,
) -> Result<Came<Criterion>, Memory>
    ensures found { IfOk result (λ came. (k : sorting.Criterion → plan.Plan NodeRef) → Found criterion_of (W.state world.old).truth (hand run.old) run.old.room (asked (sort_key_of key.now).site (here_of here.now) (criterion_meant (sort_key_of key.now)) k) k here.now.depth (sort_key_of key.now).site.place (going_of run.old.going) (going_of run.new.going) came) }
    ensures still { IsStill run.old run.new }
    ensures truth { (W.state world.new).truth ≡ (W.state world.old).truth }
    ensures name { W.name world.new ≡ W.name world.old }
{
    came(alloc, run, key, &key.site, here, world)
}

/// The key of the current node.
pub fn key_value<W: World>(
    alloc: Global,
    run: &mut Run,
    key: &SortKey,
    criterion: Criterion,
    here: &Standing,
    world: &mut W,
) -> Result<Came<KeyValue>, Memory>
    ensures found { IfOk result (λ came. (k : sorting.KeyValue → plan.Plan NodeRef) → Found key_of (W.state world.old).truth (hand run.old) run.old.room (asked (sort_key_of key.now).site (here_of here.now) (key_meant (sort_key_of key.now) (criterion_of criterion)) k) k here.now.depth (sort_key_of key.now).site.place (going_of run.old.going) (going_of run.new.going) came) }
    ensures still { IsStill run.old run.new }
    ensures truth { (W.state world.new).truth ≡ (W.state world.old).truth }
    ensures name { W.name world.new ≡ W.name world.old }
{
    came(
        alloc,
        run,
        &KeyBy { key, criterion },
        &key.site,
        here,
        world,
    )
}

/// The text of an xsl:number.
pub fn number<W: World>(
    alloc: Global,
    run: &mut Run,
    numbering: &Numbering,
    site: &Site,
    here: &Standing,
    world: &mut W,
) -> Result<Came<Text>, Memory>
    ensures found { IfOk result (λ came. (k : List ℕ → plan.Plan NodeRef) → Found itself (W.state world.old).truth (hand run.old) run.old.room (asked (site_of site.now) (here_of here.now) (number_meant same_ref (numbering_of numbering.now)) k) k here.now.depth (place_of site.now.place) (going_of run.old.going) (going_of run.new.going) came) }
    ensures still { IsStill run.old run.new }
    ensures truth { (W.state world.new).truth ≡ (W.state world.old).truth }
    ensures name { W.name world.new ≡ W.name world.old }
{
    came(alloc, run, numbering, site, here, world)
}

// What an operand comes to.
fn came<T: Drop, O: Operand<T>, W: World>(
    alloc: Global,
    run: &mut Run,
    operand: &O,
    site: &Site,
    here: &Standing,
    world: &mut W,
) -> Result<Came<T>, Memory>
    ensures found { IfOk result (λ came. (k : O.Seen → plan.Plan NodeRef) → Found O.seen (W.state world.old).truth (hand run.old) run.old.room (asked (site_of site.now) (here_of here.now) (O.meant operand.now) k) k here.now.depth (place_of site.now.place) (going_of run.old.going) (going_of run.new.going) came) }
    ensures still { IsStill run.old run.new }
    ensures truth { (W.state world.new).truth ≡ (W.state world.old).truth }
    ensures name { W.name world.new ≡ W.name world.old }
{
    let context = here.context(site)?;
    let mut reads = Vec::new(alloc);
    let found = noted(
        alloc,
        operand,
        here.focus,
        &context,
        &run.supplies,
        world,
        &mut reads,
    );
    settle(alloc, &mut run.going, &site.place, reads, found)
}
