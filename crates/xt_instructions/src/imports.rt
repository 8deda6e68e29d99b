// Template rules that were chosen, and xsl:apply-imports, which enters what the current one overrides (XSLT 1.0,
// section 5.6).
ghost use Rattle.std.specs.Prelude.{◌≡◌, ◌<◌, ℕ, [], suc, length, IfOk};
ghost use Rattle.std.specs.Option.{option_map};
ghost use Rattle.spec_stylesheet.specs.Instruction as made;
ghost use Rattle.spec_meaning.specs.Question as question;
ghost use Rattle.spec_run.specs.Plan.{Plan};
ghost use Rattle.spec_run.specs.Going as goings;
ghost use Rattle.spec_run.specs.Passes.{Passes};
ghost use Rattle.spec_run.specs.Content as contents;
ghost use Rattle.xt_syntax.specs.PartView.{place_of, site_of};
ghost use Rattle.spec_node.specs.declared.node_ref.NodeRef.{NodeRef};
ghost use Rattle.xt_questions.specs.View.{bindings_of, chosen_of, current_of};
ghost use Rattle.xt_engine.specs.View.{call_of, target_of, ruling_of};
ghost use Rattle.xt_progress.specs.View.{going_of};
ghost use Rattle.xt_frames.specs.declared.run.Run as declared;
ghost use Rattle.xt_frames.specs.View.{here_of, after_body};
ghost use Rattle.xt_frames.specs.Left.{left_in, hand, Does, IsStill};

use crate::simple::advanced;
use spec_expression::DynCode;
use std::alloc::Global;
use std::rc::Rc;
use xt_base::Place;
use xt_engine::{Call, Event, Refused, Ruling, Target};
use xt_frames::{Body, Frame, Next, Run, Standing, want};
use xt_names::{Expanded, copy_name_if};
use xt_progress::Going;
use xt_questions::{
    Bindings, Candidates, ChosenRule, CurrentRule, Focus, Given, Question, Wanted, World,
    copy_place, copy_rule_if,
};
use xt_syntax::Site;
use xt_text::Memory;
use xt_tree::NodeRef;

/// What this rule of a node in this mode enters; without one a built-in rule.
fn target_of_rule(
    alloc: Global,
    mode: &Option<Expanded>,
    rule: &Option<ChosenRule>,
) -> Result<Target, Memory>
    ensures { IfOk result (λ t. target_of t ≡ contents.target_by mode.now (option_map chosen_of rule.now)) }
{
    match rule {
        None => Ok(Target::BuiltIn(copy_name_if(alloc, mode)?)),
        Some(rule) => Ok(Target::Unit(rule.element)),
    }
}

/// The rule, in this mode, as the current one of what it enters. A built-in rule is none.
fn ruling_of_rule(
    alloc: Global,
    mode: &Option<Expanded>,
    rule: &Option<ChosenRule>,
) -> Result<Ruling, Memory>
    ensures { IfOk result (λ r. ruling_of r ≡ contents.ruling_by mode.now (option_map chosen_of rule.now)) }
{
    match rule {
        None => Ok(Ruling::Is(None)),
        Some(rule) => Ok(Ruling::Is(Some(CurrentRule {
            mode: copy_name_if(alloc, mode)?,
            first: rule.first,
            last: rule.last,
        }))),
    }
}

/// The call that enters, at this focus, the rule that was chosen in this mode, or the built-in rule where there is
/// none.
pub fn call_of_choice(
    alloc: Global,
    mode: &Option<Expanded>,
    chosen: &Option<ChosenRule>,
    focus: Focus,
    parameters: Bindings,
    by: &Place,
) -> Result<Call, Memory>
    ensures { IfOk result (λ c. call_of c ≡ record { target = contents.target_by mode.now (option_map chosen_of chosen.now); node = focus.node; parameters = bindings_of parameters; position = focus.position; size = focus.size; ruling = contents.ruling_by mode.now (option_map chosen_of chosen.now); by = place_of by.now }) }
{
    let Ok(by) = copy_place(alloc, by) else {
        drop(parameters);
        return Err(Memory);
    };
    let Ok(target) = target_of_rule(alloc, mode, chosen) else {
        drop(by);
        drop(parameters);
        return Err(Memory);
    };
    let Ok(ruling) = ruling_of_rule(alloc, mode, chosen) else {
        drop(target);
        drop(by);
        drop(parameters);
        return Err(Memory);
    };
    Ok(Call {
        target,
        node: focus.node,
        parameters,
        position: focus.position,
        size: focus.size,
        ruling,
        by,
    })
}

/// xsl:apply-imports: what the stylesheet of the current rule imports for the current node, in the mode of that
/// rule. Refused where no rule is the current one.
pub(crate) fn apply_imports<W: World>(
    alloc: Global,
    run: &mut Run,
    site: &Site,
    body: Body,
    world: &mut W,
) -> Result<Next, Memory>
    requires { body.next < usize.MAX }
    ensures does { IfOk result (Does (W.state world.old).truth (contents.planned_without (site_of site.now) (here_of body.here) made.ApplyImports (after_body body (left_in run.old))) (suc (length run.old.frames.items)) run.old run.new) }
    ensures truth { (W.state world.new).truth ≡ (W.state world.old).truth }
    ensures name { W.name world.new ≡ W.name world.old }
{
    let Ok(current) = current_rule(alloc, run, site, &body.here) else {
        drop(body);
        return Err(Memory);
    };
    match current {
        None => {
            drop(body);
            refuse(alloc, site)
        }
        Some(rule) => apply_imported(alloc, run, site, rule, body, world),
    }
}

/// The current rule where an instruction stands. Where that of the instantiation may be it, it is needed of the run.
fn current_rule(
    alloc: Global,
    run: &mut Run,
    site: &Site,
    here: &Standing,
) -> Result<Option<CurrentRule>, Memory>
    ensures passes { IfOk result (λ rule. (ask : question.Question NodeRef → question.Answer NodeRef) → (after : Plan NodeRef) → Passes ask (hand run.old) run.old.room (contents.planned_without (site_of site.now) (here_of here.now) made.ApplyImports after) (going_of run.old.going) (contents.imports_applied (site_of site.now) (here_of here.now) (option_map current_of rule) after) (going_of run.new.going)) }
    ensures still { IsStill run.old run.new }
{
    if !here.ruled {
        return Ok(None);
    }
    let copied = copy_place(alloc, &site.place)?;
    let place = Rc::new(alloc, copied)?;
    let seen = copy_rule_if(alloc, &run.supplies.rule)?;
    run.going.note(Event::Saw(Wanted::Rule, here.depth, place, Given::Ruled(seen)))?;
    copy_rule_if(alloc, &run.supplies.rule)
}

/// The refusal of the element at this site, where no rule is the current one.
fn refuse(alloc: Global, site: &Site) -> Result<Next, Memory>
    ensures { IfOk result (λ next. (ask : question.Question NodeRef → question.Answer NodeRef) → (h : contents.Here NodeRef) → (after : Plan NodeRef) → (k : ℕ) → (run : declared.Run) → Does ask (contents.imports_applied (site_of site.now) h None after) k run run next) }
{
    let place = copy_place(alloc, &site.place)?;
    Ok(Next::Halt(Refused {
        code: DynCode::NoCurrentRule,
        place,
    }))
}

/// Enters what the stylesheet of this rule imports for the current node, before the rest of the body.
fn apply_imported<W: World>(
    alloc: Global,
    run: &mut Run,
    site: &Site,
    rule: CurrentRule,
    body: Body,
    world: &mut W,
) -> Result<Next, Memory>
    requires { body.next < usize.MAX }
    ensures does { IfOk result (Does (W.state world.old).truth (contents.imports_applied (site_of site.now) (here_of body.here) (Some (current_of rule)) (after_body body (left_in run.old))) (suc (length run.old.frames.items)) run.old run.new) }
    ensures truth { (W.state world.new).truth ≡ (W.state world.old).truth }
    ensures name { W.name world.new ≡ W.name world.old }
{
    let focus = body.here.focus;
    let depth = body.here.depth;
    let Ok(call) = imported(alloc, &mut run.going, site, rule, focus, world) else {
        drop(body);
        return Err(Memory);
    };
    want(run, Frame::Body(advanced(body)), call, depth)
}

/// The call that enters, at this focus, what the stylesheet of this rule imports.
fn imported<W: World>(
    alloc: Global,
    going: &mut Going,
    site: &Site,
    rule: CurrentRule,
    focus: Focus,
    world: &mut W,
) -> Result<Call, Memory>
    ensures call { IfOk result (λ c. let a = (W.state world.old).truth (question.Choice focus.node rule.mode (question.Imported rule.first rule.last)) in call_of c ≡ record { target = contents.target_by rule.mode (question.rule_in a); node = focus.node; parameters = []; position = focus.position; size = focus.size; ruling = contents.ruling_by rule.mode (question.rule_in a); by = place_of site.now.place }) }
    ensures going { IfOk result (λ c. let q = question.Choice focus.node rule.mode (question.Imported rule.first rule.last) in going_of going.new ≡ goings.noted (goings.Asked q ((W.state world.old).truth q)) (going_of going.old)) }
    ensures truth { (W.state world.new).truth ≡ (W.state world.old).truth }
    ensures name { W.name world.new ≡ W.name world.old }
{
    let chosen = imported_rule(alloc, going, &rule, focus.node, world)?;
    let nothing = Bindings::Empty;
    call_of_choice(alloc, &rule.mode, &chosen, focus, nothing, &site.place)
}

/// The rule for a node among what the stylesheet of this rule imports, in its mode.
fn imported_rule<W: World>(
    alloc: Global,
    going: &mut Going,
    rule: &CurrentRule,
    node: NodeRef,
    world: &mut W,
) -> Result<Option<ChosenRule>, Memory>
    ensures rule { IfOk result (λ r. option_map chosen_of r ≡ question.rule_in ((W.state world.old).truth (question.Choice node rule.now.mode (question.Imported rule.now.first rule.now.last)))) }
    ensures going { IfOk result (λ r. let q = question.Choice node rule.now.mode (question.Imported rule.now.first rule.now.last) in going_of going.new ≡ goings.noted (goings.Asked q ((W.state world.old).truth q)) (going_of going.old)) }
    ensures truth { (W.state world.new).truth ≡ (W.state world.old).truth }
    ensures name { W.name world.new ≡ W.name world.old }
{
    let candidates = Candidates::Imported {
        first: rule.first,
        last: rule.last,
    };
    let mode = copy_name_if(alloc, &rule.mode)?;
    let question = Question::Choice(node, mode, candidates);
    let answer = going.ask(alloc, world, question)?;
    Ok(answer.into_rule())
}
