// What is left of parameters: those that are passed, those of a template, and globals (XSLT 1.0, section 11).
ghost use Rattle.std.specs.Prelude.{◌≡◌, ◌<◌, suc, length, IfOk};
ghost use Rattle.spec_meaning.specs.Stream.{Ended};
ghost use Rattle.spec_meaning.specs.Value as values;
ghost use Rattle.spec_meaning.specs.Question as question;
ghost use Rattle.spec_meaning.specs.Meaning.{meaning};
ghost use Rattle.spec_run.specs.Plan.{Plan, Put, Yield};
ghost use Rattle.spec_run.specs.Content.{asked, held};
ghost use Rattle.xt_syntax.specs.View.{expr_of};
ghost use Rattle.xt_syntax.specs.PartView.{site_of};
ghost use Rattle.xt_syntax.specs.InstrView.{binding_of};
ghost use Rattle.spec_node.specs.declared.node_ref.NodeRef.{NodeRef};
ghost use Rattle.xt_tree.specs.ValueView.{value_of};
ghost use Rattle.xt_questions.specs.View.{bindings_of};
ghost use Rattle.xt_frames.specs.declared.frame.Frame.TheVariants as Frame;
ghost use Rattle.xt_frames.specs.declared.frame.Holder.TheVariants as holders;
ghost use Rattle.xt_frames.specs.declared.frame.Passing.TheVariants as Passing;
ghost use Rattle.xt_frames.specs.View.{here_of, passed_to, left_with, global_left};
ghost use Rattle.xt_frames.specs.Left.{left_in, Does, Performs, Steps, StepsFrom};
ghost use Rattle.xt_runner.specs.Start.{declared_in};
ghost use Rattle.xt_runner.specs.Parameter.{argument_planned, parameter_planned, past_parameter, past_argument, valued_by, with_parameter, SameApplication, SameItems, SamePassing, IsPastArgument, IsPastParameter};

use crate::frames::{go_on_application, go_on_body, go_on_items};
use crate::start::leave_nothing;
use std::alloc::Global;
use std::rc::Rc;
use xt_engine::Call;
use xt_frames::{
    Application, Arguments, Body, Came, Frame, Holder, Items, Next, Ordered, Parameters, Passing,
    Run, Standing, hold, holding, lack, push, share_bindings, share_content, share_keys, value,
};
use xt_instructions::{go_on_sorting, unsorted};
use xt_names::{Expanded, copy_name, copy_name_if};
use xt_questions::{Bindings, World, copy_place};
use xt_syntax::{Binding, Declared, Expr, Site, SortKey};
use xt_text::{Memory, Text};
use xt_tree::Value;

// ---- Parameters of a template

/// Goes on with the parameters of a template, and then with its content.
pub(crate) fn go_on_parameters<W: World>(
    alloc: Global,
    run: &mut Run,
    left: Parameters,
    world: &mut W,
) -> Result<Next, Memory>
    ensures does { IfOk result (StepsFrom (W.state world.old).truth (Frame.Parameters left) run.old run.new) }
    ensures truth { (W.state world.new).truth ≡ (W.state world.old).truth }
    ensures name { W.name world.new ≡ W.name world.old }
{
    let bindings = share_bindings(&left.bindings)?;
    let list = bindings.as_slice();
    if left.next >= list.len() {
        let body = Body {
            content: left.content,
            next: 0,
            here: left.here,
        };
        return go_on_body(alloc, run, body, world);
    }
    go_on_parameter(alloc, run, &list[left.next], left, world)
}

/// Goes on with this parameter of a template: what was passed, or its default.
fn go_on_parameter<W: World>(
    alloc: Global,
    run: &mut Run,
    binding: &Binding,
    left: Parameters,
    world: &mut W,
) -> Result<Next, Memory>
    requires { left.next < usize.MAX }
    ensures does { IfOk result (Performs (W.state world.old).truth (Frame.Parameters left) (parameter_planned (binding_of binding.now) left (left_in run.old)) run.old run.new) }
    ensures truth { (W.state world.new).truth ≡ (W.state world.old).truth }
    ensures name { W.name world.new ≡ W.name world.old }
{
    let Ok(found) = left.given.look_up(alloc, &binding.name) else {
        drop(left);
        return Err(Memory);
    };
    match found {
        Some(value) => go_on_given(alloc, run, &binding.name, left, value),
        None => go_on_default(alloc, run, binding, left, world),
    }
}

/// Goes on with a parameter of a template of this name, for which this value was passed.
fn go_on_given(
    alloc: Global,
    run: &mut Run,
    name: &Expanded,
    left: Parameters,
    value: Value,
) -> Result<Next, Memory>
    requires { left.next < usize.MAX }
    ensures { IfOk result (λ next. (ask : question.Question NodeRef → question.Answer NodeRef) → Does ask (Put Ended (left_with (holders.Parameter name.now (past_parameter left)) (value_of value) (left_in run.old))) (suc (length run.old.frames.items)) run.old run.new next) }
{
    let name = copy_name(alloc, name)?;
    let past = Parameters {
        bindings: left.bindings,
        next: left.next + 1,
        given: left.given,
        content: left.content,
        here: left.here,
    };
    hold_value(alloc, run, Holder::Parameter(name, past), value)
}

/// Goes on with the default of this parameter of a template, for which nothing was passed.
fn go_on_default<W: World>(
    alloc: Global,
    run: &mut Run,
    binding: &Binding,
    left: Parameters,
    world: &mut W,
) -> Result<Next, Memory>
    requires { left.next < usize.MAX }
    ensures does { IfOk result (Performs (W.state world.old).truth (Frame.Parameters left) (valued_by (binding_of binding.now) (here_of left.here) (with_parameter (binding_of binding.now) left (left_in run.old))) run.old run.new) }
    ensures truth { (W.state world.new).truth ≡ (W.state world.old).truth }
    ensures name { W.name world.new ≡ W.name world.old }
{
    let Ok(here) = left.here.share() else {
        drop(left);
        return Err(Memory);
    };
    let Ok(holder) = parameter_holder(alloc, &binding.name, &left) else {
        drop(left);
        return Err(Memory);
    };
    hold(
        alloc,
        run,
        &binding.site,
        &binding.select,
        &binding.content,
        &here,
        holder,
        Frame::Parameters(left),
        world,
    )
}

/// What holds the value of its next parameter, by this name.
fn parameter_holder(alloc: Global, name: &Expanded, left: &Parameters) -> Result<Holder, Memory>
    requires { left.now.next < usize.MAX }
    ensures { IfOk result (λ h. (v : values.Value NodeRef) → (after : Plan NodeRef) → left_with h v after ≡ left_with (holders.Parameter name.now (past_parameter left.now)) v after) }
{
    let name = copy_name(alloc, name)?;
    Ok(Holder::Parameter(name, shared_past_parameter(left)?))
}

/// The same after its next parameter, shared.
fn shared_past_parameter(left: &Parameters) -> Result<Parameters, Memory>
    requires { left.now.next < usize.MAX }
    ensures { IfOk result (IsPastParameter left.now) }
{
    Ok(Parameters {
        bindings: share_bindings(&left.bindings)?,
        next: left.next + 1,
        given: left.given.share()?,
        content: share_content(&left.content)?,
        here: left.here.share()?,
    })
}

/// Holds this value.
fn hold_value(alloc: Global, run: &mut Run, holder: Holder, value: Value) -> Result<Next, Memory>
    ensures { IfOk result (λ next. (ask : question.Question NodeRef → question.Answer NodeRef) → Does ask (Put Ended (left_with holder (value_of value) (left_in run.old))) (suc (length run.old.frames.items)) run.old run.new next) }
{
    let frame = holding(alloc, holder, value)?;
    push(run, frame)?;
    Ok(Next::Went)
}

// ---- Parameters that are passed

/// Goes on with what is passed, and then with what it is passed to.
pub(crate) fn go_on_arguments<W: World>(
    alloc: Global,
    run: &mut Run,
    left: Arguments,
    world: &mut W,
) -> Result<Next, Memory>
    ensures does { IfOk result (StepsFrom (W.state world.old).truth (Frame.Arguments left) run.old run.new) }
    ensures truth { (W.state world.new).truth ≡ (W.state world.old).truth }
    ensures name { W.name world.new ≡ W.name world.old }
{
    let Ok(bindings) = share_bindings(&left.bindings) else {
        drop(left);
        return Err(Memory);
    };
    let list = bindings.as_slice();
    if left.next >= list.len() {
        return pass(alloc, run, left.to, left.done, world);
    }
    go_on_argument(alloc, run, &list[left.next], left, world)
}

/// Passes these parameters.
fn pass<W: World>(
    alloc: Global,
    run: &mut Run,
    to: Passing,
    parameters: Bindings,
    world: &mut W,
) -> Result<Next, Memory>
    ensures does { IfOk result (Steps (W.state world.old).truth (passed_to to (bindings_of parameters) (left_in run.old)) (suc (length run.old.frames.items)) run.old run.new) }
    ensures truth { (W.state world.new).truth ≡ (W.state world.old).truth }
    ensures name { W.name world.new ≡ W.name world.old }
{
    match to {
        Passing::Rules(left) => {
            let left = with_parameters(left, parameters);
            go_on_application(alloc, run, left, world)
        }
        Passing::Sorted(keys, here, left) => {
            let left = with_parameters(left, parameters);
            sort(alloc, run, keys, here, left, world)
        }
        Passing::Items(keys, here, left) => {
            let left = items_with(left, parameters);
            sort_items(alloc, run, keys, here, left, world)
        }
        Passing::Template(call, depth) => {
            let call = Call {
                target: call.target,
                node: call.node,
                parameters,
                position: call.position,
                size: call.size,
                ruling: call.ruling,
                by: call.by,
            };
            Ok(Next::Want(call, depth))
        }
    }
}

/// The same, with these parameters. Takes no memory.
fn with_parameters(left: Application, parameters: Bindings) -> Application
    ensures { result ≡ record { place = left.place; mode = left.mode; parameters = parameters; nodes = left.nodes; next = left.next; depth = left.depth } }
{
    Application {
        place: left.place,
        mode: left.mode,
        parameters,
        nodes: left.nodes,
        next: left.next,
        depth: left.depth,
    }
}

/// The same, with these parameters. Takes no memory.
fn items_with(left: Items, parameters: Bindings) -> Items
    ensures { result ≡ record { place = left.place; element = left.element; parameters = parameters; nodes = left.nodes; next = left.next; depth = left.depth } }
{
    Items {
        place: left.place,
        element: left.element,
        parameters,
        nodes: left.nodes,
        next: left.next,
        depth: left.depth,
    }
}

/// Sorts the nodes whose template rules are entered then, all of them.
fn sort<W: World>(
    alloc: Global,
    run: &mut Run,
    keys: Rc<Vec<SortKey>>,
    here: Standing,
    left: Application,
    world: &mut W,
) -> Result<Next, Memory>
    ensures does { IfOk result (Steps (W.state world.old).truth (passed_to (Passing.Sorted keys here left) (bindings_of left.parameters) (left_in run.old)) (suc (length run.old.frames.items)) run.old run.new) }
    ensures truth { (W.state world.new).truth ≡ (W.state world.old).truth }
    ensures name { W.name world.new ≡ W.name world.old }
{
    if keys.is_empty() {
        let all = Application {
            place: left.place,
            mode: left.mode,
            parameters: left.parameters,
            nodes: left.nodes,
            next: 0,
            depth: left.depth,
        };
        return go_on_application(alloc, run, all, world);
    }
    let to = Application {
        place: left.place,
        mode: left.mode,
        parameters: left.parameters,
        nodes: Vec::new(alloc),
        next: 0,
        depth: left.depth,
    };
    let sorting = unsorted(alloc, keys, here, left.nodes, Ordered::Rules(to));
    go_on_sorting(alloc, run, sorting, world)
}

/// Sorts the nodes for which the template of a content is entered then, all of them.
fn sort_items<W: World>(
    alloc: Global,
    run: &mut Run,
    keys: Rc<Vec<SortKey>>,
    here: Standing,
    left: Items,
    world: &mut W,
) -> Result<Next, Memory>
    ensures does { IfOk result (Steps (W.state world.old).truth (passed_to (Passing.Items keys here left) (bindings_of left.parameters) (left_in run.old)) (suc (length run.old.frames.items)) run.old run.new) }
    ensures truth { (W.state world.new).truth ≡ (W.state world.old).truth }
    ensures name { W.name world.new ≡ W.name world.old }
{
    if keys.is_empty() {
        let all = Items {
            place: left.place,
            element: left.element,
            parameters: left.parameters,
            nodes: left.nodes,
            next: 0,
            depth: left.depth,
        };
        return go_on_items(alloc, run, all);
    }
    let to = Items {
        place: left.place,
        element: left.element,
        parameters: left.parameters,
        nodes: Vec::new(alloc),
        next: 0,
        depth: left.depth,
    };
    let sorting = unsorted(alloc, keys, here, left.nodes, Ordered::Items(to));
    go_on_sorting(alloc, run, sorting, world)
}

/// Goes on with this parameter that is passed.
fn go_on_argument<W: World>(
    alloc: Global,
    run: &mut Run,
    binding: &Binding,
    left: Arguments,
    world: &mut W,
) -> Result<Next, Memory>
    requires { left.next < usize.MAX }
    ensures does { IfOk result (Performs (W.state world.old).truth (Frame.Arguments left) (argument_planned (binding_of binding.now) left (left_in run.old)) run.old run.new) }
    ensures truth { (W.state world.new).truth ≡ (W.state world.old).truth }
    ensures name { W.name world.new ≡ W.name world.old }
{
    let Ok(here) = left.here.share() else {
        drop(left);
        return Err(Memory);
    };
    let Ok(holder) = argument_holder(alloc, &binding.name, &left) else {
        drop(left);
        return Err(Memory);
    };
    hold(
        alloc,
        run,
        &binding.site,
        &binding.select,
        &binding.content,
        &here,
        holder,
        Frame::Arguments(left),
        world,
    )
}

/// What holds the next value that is passed, by this name.
fn argument_holder(alloc: Global, name: &Expanded, left: &Arguments) -> Result<Holder, Memory>
    requires { left.now.next < usize.MAX }
    ensures { IfOk result (λ h. (v : values.Value NodeRef) → (after : Plan NodeRef) → left_with h v after ≡ left_with (holders.Argument name.now (past_argument left.now)) v after) }
{
    let name = copy_name(alloc, name)?;
    Ok(Holder::Argument(name, shared_past_argument(alloc, left)?))
}

/// The same after what is passed next, shared.
fn shared_past_argument(alloc: Global, left: &Arguments) -> Result<Arguments, Memory>
    requires { left.now.next < usize.MAX }
    ensures { IfOk result (IsPastArgument left.now) }
{
    Ok(Arguments {
        bindings: share_bindings(&left.bindings)?,
        next: left.next + 1,
        done: left.done.share()?,
        here: left.here.share()?,
        to: share_passing(alloc, &left.to)?,
    })
}

/// The same, in memory of its own.
fn share_passing(alloc: Global, to: &Passing) -> Result<Passing, Memory>
    ensures { IfOk result (SamePassing to.now) }
{
    match to {
        Passing::Rules(left) => Ok(Passing::Rules(copy_application(alloc, left)?)),
        Passing::Sorted(keys, here, left) => {
            let keys = share_keys(keys)?;
            let here = here.share()?;
            Ok(Passing::Sorted(keys, here, copy_application(alloc, left)?))
        }
        Passing::Items(keys, here, left) => {
            let keys = share_keys(keys)?;
            let here = here.share()?;
            Ok(Passing::Items(keys, here, copy_items(alloc, left)?))
        }
        Passing::Template(call, depth) => Ok(Passing::Template(call.copy(alloc)?, *depth)),
    }
}

/// The same, in memory of its own.
fn copy_application(alloc: Global, left: &Application) -> Result<Application, Memory>
    ensures { IfOk result (SameApplication left.now) }
{
    let nodes = Vec::from_slice(alloc, left.nodes.as_slice())?;
    let parameters = left.parameters.share()?;
    let mode = copy_name_if(alloc, &left.mode)?;
    let place = copy_place(alloc, &left.place)?;
    Ok(Application {
        place,
        mode,
        parameters,
        nodes,
        next: left.next,
        depth: left.depth,
    })
}

/// The same, in memory of its own.
fn copy_items(alloc: Global, left: &Items) -> Result<Items, Memory>
    ensures { IfOk result (SameItems left.now) }
{
    let nodes = Vec::from_slice(alloc, left.nodes.as_slice())?;
    let parameters = left.parameters.share()?;
    let place = copy_place(alloc, &left.place)?;
    Ok(Items {
        place,
        element: left.element,
        parameters,
        nodes,
        next: left.next,
        depth: left.depth,
    })
}

// ---- Globals

/// Goes on with what a global says itself that it holds.
pub(crate) fn go_on_global<W: World>(
    alloc: Global,
    run: &mut Run,
    here: Standing,
    world: &mut W,
) -> Result<Next, Memory>
    ensures does { IfOk result (StepsFrom (W.state world.old).truth (Frame.Global here) run.old run.new) }
    ensures truth { (W.state world.new).truth ≡ (W.state world.old).truth }
    ensures name { W.name world.new ≡ W.name world.old }
{
    let unit = here.unit.clone()?;
    match &unit.unit.declared {
        Declared::Global(global) => go_on_own(alloc, run, &global.binding, here, world),
        Declared::Template(_) => Ok(Next::Done),
        Declared::AttributeSet(_) => Ok(Next::Done),
        Declared::Key(_) => Ok(Next::Done),
    }
}

/// What this global holds by its select, or by its content, which stands at its own level; with neither the empty
/// string.
fn go_on_own<W: World>(
    alloc: Global,
    run: &mut Run,
    binding: &Binding,
    here: Standing,
    world: &mut W,
) -> Result<Next, Memory>
    requires { global_left (declared_in here) (here_of here) ≡ held (binding_of binding.now) (here_of here) }
    ensures does { IfOk result (StepsFrom (W.state world.old).truth (Frame.Global here) run.old run.new) }
    ensures truth { (W.state world.new).truth ≡ (W.state world.old).truth }
    ensures name { W.name world.new ≡ W.name world.old }
{
    match &binding.select {
        Some(select) => evaluate(alloc, run, &binding.site, select, here, world),
        None => {
            if binding.content.is_empty() {
                return Ok(Next::Gave(Value::Text(Text::new(alloc))));
            }
            let body = Body {
                content: share_content(&binding.content)?,
                next: 0,
                here,
            };
            leave_nothing(run);
            go_on_body(alloc, run, body, world)
        }
    }
}

/// What the global holds whose select at this site is this.
fn evaluate<W: World>(
    alloc: Global,
    run: &mut Run,
    site: &Site,
    select: &Expr,
    here: Standing,
    world: &mut W,
) -> Result<Next, Memory>
    ensures does { IfOk result (Performs (W.state world.old).truth (Frame.Global here) (asked (site_of site.now) (here_of here) (meaning (expr_of select.now)) (λ v. Yield v)) run.old run.new) }
    ensures truth { (W.state world.new).truth ≡ (W.state world.old).truth }
    ensures name { W.name world.new ≡ W.name world.old }
{
    match value(alloc, run, select, site, &here, world)? {
        Came::Is(value) => Ok(Next::Gave(value)),
        Came::Halts(why) => Ok(Next::Halt(why)),
        Came::Lacks(name) => {
            let depth = here.depth;
            lack(alloc, run, Frame::Global(here), name, depth, &site.place)
        }
    }
}
