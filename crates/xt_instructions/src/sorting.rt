// Sorting (XSLT 1.0, section 10).
ghost use Rattle.std.specs.Prelude.{◌≡◌, ◌<◌, ◌≤◌, [], suc, get_or, map, length, IfOk, OnOk};
ghost use Rattle.spec_meaning.specs.Question as question;
ghost use Rattle.spec_meaning.specs.Stream.{Ended};
ghost use Rattle.spec_transform.specs.Sorted as sorts;
ghost use Rattle.spec_run.specs.Plan.{Plan, Put};
ghost use Rattle.spec_run.specs.Content.{at, criteria_asked, items_entered, rows_asked};
ghost use Rattle.xt_syntax.specs.PartView.{place_of, sort_key_of};
ghost use Rattle.spec_node.specs.declared.node_ref.NodeRef.{NodeRef};
ghost use Rattle.xt_questions.specs.View.{bindings_of};
ghost use Rattle.xt_frames.specs.declared.frame.Frame.TheVariants as Frame;
ghost use Rattle.xt_frames.specs.View.{here_of, left_frame, ordered_left};
ghost use Rattle.xt_frames.specs.Left.{StepsFrom, Pushed, HasNeeds};
ghost use Rattle.xt_instructions.specs.Asks.{Asks, Ends, place_at, with_criteria, with_rows};

use std::alloc::Global;
use std::mem;
use std::rc::Rc;
use xt_frames::{
    Application, Came, Frame, Items, Loop, Next, Ordered, Run, Sorting, Standing, criterion,
    key_value, lack, push,
};
use xt_names::Expanded;
use xt_questions::{World, copy_place};
use xt_sort::{Criterion, Row, nodes_in_order};
use xt_syntax::SortKey;
use xt_text::Memory;
use xt_tree::NodeRef;

/// Nodes that are to be sorted by keys that stand here, none of which is asked yet.
pub fn unsorted(
    alloc: Global,
    keys: Rc<Vec<SortKey>>,
    here: Standing,
    nodes: Vec<NodeRef>,
    to: Ordered,
) -> Sorting
    ensures { (after : Plan NodeRef) → left_frame (Frame.Sorting result) after ≡ criteria_asked (map sort_key_of keys.value.items) (here_of here) [] (λ cs. rows_asked (map sort_key_of keys.value.items) cs (length nodes.items) (here_of here) 1 nodes.items [] (λ rows. Put Ended (ordered_left to (sorts.nodes_in_order cs rows) after))) }
{
    Sorting {
        keys,
        here,
        criteria: Vec::new(alloc),
        rows: Vec::new(alloc),
        values: Vec::new(alloc),
        nodes,
        to,
    }
}

/// Goes on with nodes that are sorted: how the keys compare is asked first, and then the keys, node by node.
pub fn go_on_sorting<W: World>(
    alloc: Global,
    run: &mut Run,
    left: Sorting,
    world: &mut W,
) -> Result<Next, Memory>
    ensures does { IfOk result (StepsFrom (W.state world.old).truth (Frame.Sorting left) run.old run.new) }
    ensures truth { (W.state world.new).truth ≡ (W.state world.old).truth }
    ensures name { W.name world.new ≡ W.name world.old }
{
    let mut sorting = left;
    let Ok(asked) = ask_criteria(alloc, run, &mut sorting, world) else {
        drop(sorting);
        return Err(Memory);
    };
    match asked {
        Came::Is(()) => go_on_rows(alloc, run, sorting, world),
        Came::Halts(why) => {
            drop(sorting);
            Ok(Next::Halt(why))
        }
        Came::Lacks(name) => {
            let number = sorting.criteria.len();
            lack_at(alloc, run, sorting, number, name)
        }
    }
}

/// The same, where it was asked how each key compares.
fn go_on_rows<W: World>(
    alloc: Global,
    run: &mut Run,
    left: Sorting,
    world: &mut W,
) -> Result<Next, Memory>
    requires { length left.keys.value.items ≤ length left.criteria.items }
    ensures does { IfOk result (StepsFrom (W.state world.old).truth (Frame.Sorting left) run.old run.new) }
    ensures truth { (W.state world.new).truth ≡ (W.state world.old).truth }
    ensures name { W.name world.new ≡ W.name world.old }
{
    let mut sorting = left;
    let Ok(asked) = ask_rows(alloc, run, &mut sorting, world) else {
        drop(sorting);
        return Err(Memory);
    };
    match asked {
        Came::Is(()) => put_in_order(alloc, run, sorting),
        Came::Halts(why) => {
            drop(sorting);
            Ok(Next::Halt(why))
        }
        Came::Lacks(name) => {
            let number = sorting.values.len();
            lack_at(alloc, run, sorting, number, name)
        }
    }
}

/// Leaves nodes that are sorted until the global is given that the key of this number lacks.
fn lack_at(
    alloc: Global,
    run: &mut Run,
    sorting: Sorting,
    number: usize,
    name: Expanded,
) -> Result<Next, Memory>
    requires { number < length sorting.keys.value.items }
    ensures needs { IfOk result (HasNeeds name sorting.here.depth (place_at sorting number)) }
    ensures pushed { OnOk result (Pushed (Frame.Sorting sorting) run.old run.new) }
{
    let Ok(place) = copy_place(alloc, &sorting.keys[number].site.place) else {
        drop(sorting);
        return Err(Memory);
    };
    let depth = sorting.here.depth;
    lack(alloc, run, Frame::Sorting(sorting), name, depth, &place)
}

/// Asks how the keys compare that are left.
fn ask_criteria<W: World>(
    alloc: Global,
    run: &mut Run,
    sorting: &mut Sorting,
    world: &mut W,
) -> Result<Came<()>, Memory>
    ensures asks { IfOk result (Asks (W.state world.old).truth run.old run.new sorting.old sorting.new (length sorting.new.criteria.items)) }
    ensures ends { IfOk result (Ends (length sorting.new.keys.value.items ≤ length sorting.new.criteria.items) (length sorting.new.criteria.items < length sorting.new.keys.value.items)) }
    ensures truth { (W.state world.new).truth ≡ (W.state world.old).truth }
    ensures name { W.name world.new ≡ W.name world.old }
{
    while sorting.criteria.len() < sorting.keys.len() {
        match ask_criterion(alloc, run, sorting, world)? {
            Came::Is(()) => {}
            Came::Halts(why) => return Ok(Came::Halts(why)),
            Came::Lacks(name) => return Ok(Came::Lacks(name)),
        }
    }
    Ok(Came::Is(()))
}

/// Asks how the next key compares.
fn ask_criterion<W: World>(
    alloc: Global,
    run: &mut Run,
    sorting: &mut Sorting,
    world: &mut W,
) -> Result<Came<()>, Memory>
    requires { length sorting.old.criteria.items < length sorting.old.keys.value.items }
    ensures asks { IfOk result (Asks (W.state world.old).truth run.old run.new sorting.old sorting.new (length sorting.new.criteria.items)) }
    ensures ends { IfOk result (Ends (length sorting.new.criteria.items ≡ suc (length sorting.old.criteria.items)) (length sorting.new.criteria.items ≡ length sorting.old.criteria.items)) }
    ensures only { OnOk result (sorting.new ≡ with_criteria sorting.old sorting.new.criteria) }
    ensures truth { (W.state world.new).truth ≡ (W.state world.old).truth }
    ensures name { W.name world.new ≡ W.name world.old }
{
    let key = &sorting.keys[sorting.criteria.len()];
    match criterion(alloc, run, key, &sorting.here, world)? {
        Came::Is(found) => {
            sorting.criteria.push(found)?;
            Ok(Came::Is(()))
        }
        Came::Halts(why) => Ok(Came::Halts(why)),
        Came::Lacks(name) => Ok(Came::Lacks(name)),
    }
}

/// Asks for the keys of the nodes that are left.
fn ask_rows<W: World>(
    alloc: Global,
    run: &mut Run,
    sorting: &mut Sorting,
    world: &mut W,
) -> Result<Came<()>, Memory>
    requires { length sorting.old.keys.value.items ≤ length sorting.old.criteria.items }
    ensures asks { IfOk result (Asks (W.state world.old).truth run.old run.new sorting.old sorting.new (length sorting.new.values.items)) }
    ensures ends { IfOk result (Ends (length sorting.new.nodes.items ≤ length sorting.new.rows.items) (length sorting.new.values.items < length sorting.new.keys.value.items)) }
    ensures only { OnOk result (sorting.new ≡ with_rows sorting.old sorting.new.rows sorting.new.values) }
    ensures truth { (W.state world.new).truth ≡ (W.state world.old).truth }
    ensures name { W.name world.new ≡ W.name world.old }
{
    while sorting.rows.len() < sorting.nodes.len() {
        match ask_row(alloc, run, sorting, world)? {
            Came::Is(()) => {}
            Came::Halts(why) => return Ok(Came::Halts(why)),
            Came::Lacks(name) => return Ok(Came::Lacks(name)),
        }
    }
    Ok(Came::Is(()))
}

/// Asks for the keys that are left of the next node: its position is that in the list that is not sorted.
fn ask_row<W: World>(
    alloc: Global,
    run: &mut Run,
    sorting: &mut Sorting,
    world: &mut W,
) -> Result<Came<()>, Memory>
    requires criteria { length sorting.old.keys.value.items ≤ length sorting.old.criteria.items }
    requires row { length sorting.old.rows.items < length sorting.old.nodes.items }
    ensures asks { IfOk result (Asks (W.state world.old).truth run.old run.new sorting.old sorting.new (length sorting.new.values.items)) }
    ensures ends { IfOk result (Ends (length sorting.new.rows.items ≡ suc (length sorting.old.rows.items)) (length sorting.new.values.items < length sorting.new.keys.value.items)) }
    ensures only { OnOk result (sorting.new ≡ with_rows sorting.old sorting.new.rows sorting.new.values) }
    ensures truth { (W.state world.new).truth ≡ (W.state world.old).truth }
    ensures name { W.name world.new ≡ W.name world.old }
{
    let number = sorting.rows.len();
    let node = sorting.nodes[number];
    let size = sorting.nodes.len() as u64;
    let here = sorting.here.at(node, number as u64 + 1, size)?;
    let Ok(came) = ask_keys(alloc, run, sorting, &here, world) else {
        drop(here);
        return Err(Memory);
    };
    drop(here);
    match came {
        Came::Is(()) => {
            add_row(alloc, sorting)?;
            Ok(Came::Is(()))
        }
        Came::Halts(why) => Ok(Came::Halts(why)),
        Came::Lacks(name) => Ok(Came::Lacks(name)),
    }
}

/// Asks for the keys that are left of the next node, which stands here.
fn ask_keys<W: World>(
    alloc: Global,
    run: &mut Run,
    sorting: &mut Sorting,
    here: &Standing,
    world: &mut W,
) -> Result<Came<()>, Memory>
    requires criteria { length sorting.old.keys.value.items ≤ length sorting.old.criteria.items }
    requires row { length sorting.old.rows.items < length sorting.old.nodes.items }
    requires node { here.now.focus.node ≡ get_or sorting.old.nodes.items (length sorting.old.rows.items) here.now.focus.node }
    requires here { here_of here.now ≡ at here.now.focus.node (suc (length sorting.old.rows.items)) (length sorting.old.nodes.items) (here_of sorting.old.here) }
    ensures asks { IfOk result (Asks (W.state world.old).truth run.old run.new sorting.old sorting.new (length sorting.new.values.items)) }
    ensures ends { IfOk result (Ends (length sorting.new.keys.value.items ≤ length sorting.new.values.items) (length sorting.new.values.items < length sorting.new.keys.value.items)) }
    ensures only { OnOk result (sorting.new ≡ with_rows sorting.old sorting.old.rows sorting.new.values) }
    ensures truth { (W.state world.new).truth ≡ (W.state world.old).truth }
    ensures name { W.name world.new ≡ W.name world.old }
{
    while sorting.values.len() < sorting.keys.len() {
        match ask_key(alloc, run, sorting, here, world)? {
            Came::Is(()) => {}
            Came::Halts(why) => return Ok(Came::Halts(why)),
            Came::Lacks(name) => return Ok(Came::Lacks(name)),
        }
    }
    Ok(Came::Is(()))
}

/// Asks for the next key of the next node, which stands here.
fn ask_key<W: World>(
    alloc: Global,
    run: &mut Run,
    sorting: &mut Sorting,
    here: &Standing,
    world: &mut W,
) -> Result<Came<()>, Memory>
    requires criteria { length sorting.old.keys.value.items ≤ length sorting.old.criteria.items }
    requires row { length sorting.old.rows.items < length sorting.old.nodes.items }
    requires key { length sorting.old.values.items < length sorting.old.keys.value.items }
    requires node { here.now.focus.node ≡ get_or sorting.old.nodes.items (length sorting.old.rows.items) here.now.focus.node }
    requires here { here_of here.now ≡ at here.now.focus.node (suc (length sorting.old.rows.items)) (length sorting.old.nodes.items) (here_of sorting.old.here) }
    ensures asks { IfOk result (Asks (W.state world.old).truth run.old run.new sorting.old sorting.new (length sorting.new.values.items)) }
    ensures ends { IfOk result (Ends (length sorting.new.values.items ≡ suc (length sorting.old.values.items)) (length sorting.new.values.items ≡ length sorting.old.values.items)) }
    ensures only { OnOk result (sorting.new ≡ with_rows sorting.old sorting.old.rows sorting.new.values) }
    ensures truth { (W.state world.new).truth ≡ (W.state world.old).truth }
    ensures name { W.name world.new ≡ W.name world.old }
{
    let number = sorting.values.len();
    let criterion = sorting.criteria[number];
    let key = &sorting.keys[number];
    match key_value(alloc, run, key, criterion, here, world)? {
        Came::Is(found) => {
            sorting.values.push(found)?;
            Ok(Came::Is(()))
        }
        Came::Halts(why) => Ok(Came::Halts(why)),
        Came::Lacks(name) => Ok(Came::Lacks(name)),
    }
}

/// The next node has all its keys.
fn add_row(alloc: Global, sorting: &mut Sorting) -> Result<(), Memory>
    requires criteria { length sorting.old.keys.value.items ≤ length sorting.old.criteria.items }
    requires row { length sorting.old.rows.items < length sorting.old.nodes.items }
    requires keys { length sorting.old.keys.value.items ≤ length sorting.old.values.items }
    ensures left { OnOk result ((after : Plan NodeRef) → left_frame (Frame.Sorting sorting.new) after ≡ left_frame (Frame.Sorting sorting.old) after) }
    ensures row { OnOk result (length sorting.new.rows.items ≡ suc (length sorting.old.rows.items)) }
    ensures only { OnOk result (sorting.new ≡ with_rows sorting.old sorting.new.rows sorting.new.values) }
{
    let node = sorting.nodes[sorting.rows.len()];
    let keys = mem::replace(&mut sorting.values, Vec::new(alloc));
    sorting.rows.push(Row { node, keys })?;
    Ok(())
}

/// Goes on with what the nodes were sorted for, all of which have their keys.
fn put_in_order(alloc: Global, run: &mut Run, sorting: Sorting) -> Result<Next, Memory>
    requires criteria { length sorting.keys.value.items ≤ length sorting.criteria.items }
    requires rows { length sorting.nodes.items ≤ length sorting.rows.items }
    ensures { IfOk result (λ next. (ask : question.Question NodeRef → question.Answer NodeRef) → StepsFrom ask (Frame.Sorting sorting) run.old run.new next) }
{
    let (criteria, rows, to) = parts(sorting);
    let Ok(nodes) = nodes_in_order(alloc, criteria.as_slice(), rows) else {
        drop(to);
        return Err(Memory);
    };
    push(run, ordered(to, nodes))?;
    Ok(Next::Went)
}

/// How the keys compare, the nodes with their keys, and what they are sorted for. The rest goes away.
fn parts(sorting: Sorting) -> (Vec<Criterion>, Vec<Row>, Ordered)
    ensures criteria { result.0 ≡ sorting.criteria }
    ensures rows { result.1 ≡ sorting.rows }
    ensures to { result.2 ≡ sorting.to }
{
    let Sorting {
        criteria,
        rows,
        to,
        ..
    } = sorting;
    (criteria, rows, to)
}

/// What is left of what nodes were sorted for, with these in their order. Takes no memory.
fn ordered(to: Ordered, nodes: Vec<NodeRef>) -> Frame
    ensures { (after : Plan NodeRef) → left_frame result after ≡ ordered_left to nodes.items after }
{
    match to {
        Ordered::Loop(left) => Frame::Loop(Loop {
            place: left.place,
            content: left.content,
            nodes,
            next: 0,
            here: left.here,
        }),
        Ordered::Rules(left) => Frame::Application(Application {
            place: left.place,
            mode: left.mode,
            parameters: left.parameters,
            nodes,
            next: 0,
            depth: left.depth,
        }),
        Ordered::Items(left) => all_items(left, nodes),
    }
}

/// A template that is entered for these nodes, all of which are left. Takes no memory.
fn all_items(left: Items, nodes: Vec<NodeRef>) -> Frame
    ensures { (after : Plan NodeRef) → left_frame result after ≡ items_entered (place_of left.place) left.element (bindings_of left.parameters) left.depth nodes.items after }
{
    Frame::Items(Items {
        place: left.place,
        element: left.element,
        parameters: left.parameters,
        nodes,
        next: 0,
        depth: left.depth,
    })
}
