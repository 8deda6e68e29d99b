// Attribute sets (XSLT 1.0, section 7.1.4).
ghost use Rattle.std.specs.Prelude.{◌≡◌, ◌<◌, ◌+◌, ◌++◌, suc, length, map, IfOk, OnOk};
ghost use Rattle.std.specs.List.{flat_map};
ghost use Rattle.spec_stylesheet.specs.Instruction.{instrs};
ghost use Rattle.spec_meaning.specs.Question as question;
ghost use Rattle.spec_run.specs.Plan.{Begin, Wrap};
ghost use Rattle.spec_run.specs.Content as contents;
ghost use Rattle.xt_syntax.specs.PartView.{place_of, site_of};
ghost use Rattle.xt_syntax.specs.InstrView.{instr_of};
ghost use Rattle.spec_node.specs.declared.node_ref.NodeRef.{NodeRef};
ghost use Rattle.xt_questions.specs.View.{sets_of};
ghost use Rattle.xt_engine.specs.View.{call_of, wrapping_of};
ghost use Rattle.xt_frames.specs.declared.frame.Frame.TheVariants as Frame;
ghost use Rattle.xt_frames.specs.View.{here_of, inside, after_body};
ghost use Rattle.xt_frames.specs.Left.{left_in, Does, StepsFrom};
ghost use Rattle.xt_instructions.specs.Over.{IsOver, Precedes};

use crate::control::ruling_at;
use crate::making::{begin, collect};
use std::alloc::Global;
use std::rc::Rc;
use xt_base::Place;
use xt_engine::{Call, Target, Wrapping};
use xt_frames::{
    Body, Frame, Inside, Next, Run, Sets, Standing, go_into, push, share_content, want,
};
use xt_names::Expanded;
use xt_questions::{Bindings, NamedSets, copy_place};
use xt_syntax::{Instr, Site};
use xt_text::Memory;
use xt_tree::NodeRef;

/// The attribute sets of these names that an element at this place uses, all of them left.
pub fn used_sets(
    alloc: Global,
    place: &Place,
    names: &[Expanded],
    here: &Standing,
) -> Result<Sets, Memory>
    ensures place { IfOk result (λ s. place_of s.place ≡ place_of place.now) }
    ensures elements { IfOk result (λ s. s.elements.items ≡ flat_map (contents.elements_named (here_of here.now).sets) names.now) }
    ensures next { IfOk result (λ s. s.next ≡ 0) }
    ensures here { IfOk result (λ s. here_of s.here ≡ here_of here.now) }
{
    let sets = here.unit.sets.as_slice();
    let mut elements = Vec::new(alloc);
    for name in names {
        add_elements(sets, name, &mut elements)?;
    }
    Ok(Sets {
        place: copy_place(alloc, place)?,
        elements,
        next: 0,
        here: here.share()?,
    })
}

/// Adds the elements of the attribute sets of this name.
fn add_elements(
    sets: &[NamedSets],
    name: &Expanded,
    elements: &mut Vec<NodeRef>,
) -> Result<(), Memory>
    ensures { OnOk result (elements.new.items ≡ elements.old.items ++ contents.elements_named (map sets_of sets.now) name.now) }
{
    for set in sets {
        if set.name.same(name) {
            elements.extend_from_slice(set.elements.as_slice())?;
            return Ok(());
        }
    }
    Ok(())
}

/// What collects what attribute sets and then its content write, and is made of that.
pub(crate) fn collect_with_sets(
    alloc: Global,
    run: &mut Run,
    site: &Site,
    sets: &Vec<Expanded>,
    end: Wrapping,
    content: &Rc<Vec<Instr>>,
    body: Body,
) -> Result<Next, Memory>
    requires { body.next < usize.MAX }
    ensures { IfOk result (λ next. (ask : question.Question NodeRef → question.Answer NodeRef) → Does ask (Begin (contents.sets_used (site_of site.now).place (here_of body.here) sets.now.items (inside (site_of site.now).place (instrs (map instr_of content.now.value.items)) (here_of body.here) (Wrap (wrapping_of end) (after_body body (left_in run.old)))))) (suc (length run.old.frames.items)) run.old run.new next) }
{
    if sets.is_empty() {
        return collect(alloc, run, site, end, content, body);
    }
    let here = body.here.share()?;
    begin(alloc, run, end, body)?;
    put_inside(alloc, run, site, sets.as_slice(), content, here)?;
    Ok(Next::Went)
}

/// Puts a content of an element on top, and over it the attribute sets of these names, which the element uses.
fn put_inside(
    alloc: Global,
    run: &mut Run,
    site: &Site,
    names: &[Expanded],
    content: &Rc<Vec<Instr>>,
    here: Standing,
) -> Result<(), Memory>
    ensures { OnOk result (Precedes (λ p. contents.sets_used (site_of site.now).place (here_of here) names.now (inside (site_of site.now).place (instrs (map instr_of content.now.value.items)) (here_of here) p)) 2 run.old run.new) }
{
    let inner = inside_of(alloc, site, content, here)?;
    let used = used_sets(alloc, &site.place, names, &inner.here)?;
    push(run, Frame::Inside(inner))?;
    push_sets(run, used)?;
    Ok(())
}

/// All of a content of the element at this site, which stands here.
fn inside_of(
    alloc: Global,
    site: &Site,
    content: &Rc<Vec<Instr>>,
    here: Standing,
) -> Result<Inside, Memory>
    ensures place { IfOk result (λ i. place_of i.place ≡ (site_of site.now).place) }
    ensures content { IfOk result (λ i. i.content.value ≡ content.now.value) }
    ensures here { IfOk result (λ i. i.here ≡ here) }
{
    let content = share_content(content)?;
    let place = copy_place(alloc, &site.place)?;
    Ok(Inside {
        place,
        content,
        here,
    })
}

/// Puts attribute sets on top, unless there are none.
pub(crate) fn push_sets(run: &mut Run, used: Sets) -> Result<(), Memory>
    ensures { OnOk result (IsOver (Frame.Sets used) run.old run.new) }
{
    if used.elements.is_empty() {
        return Ok(());
    }
    push(run, Frame::Sets(used))?;
    Ok(())
}

/// Goes on with attribute sets: the next is entered.
pub fn go_on_sets(alloc: Global, run: &mut Run, left: Sets) -> Result<Next, Memory>
    ensures { IfOk result (λ next. (ask : question.Question NodeRef → question.Answer NodeRef) → StepsFrom ask (Frame.Sets left) run.old run.new next) }
{
    if left.next >= left.elements.len() {
        return Ok(Next::Went);
    }
    let call = call_of_set(alloc, &left.place, &left.here, left.elements[left.next])?;
    let depth = left.here.depth;
    let rest = Sets {
        place: left.place,
        elements: left.elements,
        next: left.next + 1,
        here: left.here,
    };
    want(run, Frame::Sets(rest), call, depth)
}

/// An attribute set, entered by the element at this place: with the position, the size and the current rule that it
/// has there.
fn call_of_set(
    alloc: Global,
    place: &Place,
    here: &Standing,
    element: NodeRef,
) -> Result<Call, Memory>
    ensures { IfOk result (λ c. call_of c ≡ contents.set_call (place_of place.now) (here_of here.now) element) }
{
    let focus = here.focus;
    let by = copy_place(alloc, place)?;
    Ok(Call {
        target: Target::Unit(element),
        node: focus.node,
        parameters: Bindings::Empty,
        position: focus.position,
        size: focus.size,
        ruling: ruling_at(here),
        by,
    })
}

/// Goes into a content that stands behind attribute sets.
pub fn go_on_inside(alloc: Global, run: &mut Run, left: Inside) -> Result<Next, Memory>
    ensures { IfOk result (λ next. (ask : question.Question NodeRef → question.Answer NodeRef) → StepsFrom ask (Frame.Inside left) run.old run.new next) }
{
    let Inside {
        place,
        content,
        here,
    } = left;
    go_into(alloc, run, &place, content, here)
}
