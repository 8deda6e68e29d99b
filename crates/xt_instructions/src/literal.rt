// Literal result elements (XSLT 1.0, section 7.1.1).
ghost use Rattle.std.specs.Prelude.{◌≡◌, ◌<◌, ◌+◌, suc, length, map, slice_get, Some, IfOk, OnOk};
ghost use Rattle.spec_stylesheet.specs.Instruction as made;
ghost use Rattle.spec_stylesheet.specs.Instruction.{instrs};
ghost use Rattle.spec_meaning.specs.Question as question;
ghost use Rattle.spec_result.specs.Shape.{with_prefix};
ghost use Rattle.spec_run.specs.Content.{element_aliased, planned_with, sets_used};
ghost use Rattle.xt_syntax.specs.SheetView.{alias_of};
ghost use Rattle.xt_syntax.specs.PartView.{site_of, literal_tag_of};
ghost use Rattle.xt_syntax.specs.InstrView.{instr_of};
ghost use Rattle.spec_node.specs.declared.node_ref.NodeRef.{NodeRef};
ghost use Rattle.xt_engine.specs.View.{wrapping_of};
ghost use Rattle.xt_frames.specs.declared.frame.Frame.TheVariants as Frame;
ghost use Rattle.xt_frames.specs.View.{here_of, inside, after_body, left_frame};
ghost use Rattle.xt_frames.specs.Left.{left_in, Does};
ghost use Rattle.xt_instructions.specs.Over.{Precedes};

use crate::aliases::{aliased_namespaces, aliased_prefix, aliased_uri};
use crate::making::begin;
use crate::sets::{push_sets, used_sets};
use std::alloc::Global;
use std::rc::Rc;
use xt_engine::Wrapping;
use xt_frames::{Attributes, Body, Frame, Next, Run, push, share_content};
use xt_syntax::{Alias, Instr, LiteralTag, Site};
use xt_text::{Memory, Text};

/// A literal result element: its sink begins, and the attribute sets that it uses and then its attributes come next.
pub(crate) fn literal(
    alloc: Global,
    run: &mut Run,
    site: &Site,
    tag: &LiteralTag,
    content: &Rc<Vec<Instr>>,
    body: Body,
) -> Result<Next, Memory>
    requires room { body.next < usize.MAX }
    requires stands { slice_get (map instr_of body.content.value.items) body.next ≡ Some (record { site = site_of site.now; form = made.with_content (made.Literal (literal_tag_of tag.now)) (instrs (map instr_of content.now.value.items)) }) }
    ensures { IfOk result (λ next. (ask : question.Question NodeRef → question.Answer NodeRef) → Does ask (planned_with (site_of site.now) (here_of body.here) (made.Literal (literal_tag_of tag.now)) (inside (site_of site.now).place (instrs (map instr_of content.now.value.items)) (here_of body.here)) (after_body body (left_in run.old))) (suc (length run.old.frames.items)) run.old run.new next) }
{
    let attributes = all_attributes(&body)?;
    let end = element_of(alloc, tag, body.here.unit.aliases.as_slice())?;
    begin(alloc, run, end, body)?;
    put_attributes(alloc, run, site, tag, attributes)?;
    Ok(Next::Went)
}

/// All attributes of the next instruction of a body.
fn all_attributes(body: &Body) -> Result<Attributes, Memory>
    ensures content { IfOk result (λ a. a.content.value ≡ body.now.content.value) }
    ensures number { IfOk result (λ a. a.number ≡ body.now.next) }
    ensures next { IfOk result (λ a. a.next ≡ 0) }
    ensures here { IfOk result (λ a. here_of a.here ≡ here_of body.now.here) }
{
    let content = share_content(&body.content)?;
    let here = body.here.share()?;
    Ok(Attributes {
        content,
        number: body.next,
        next: 0,
        here,
    })
}

/// Puts the attributes of an element on top, and over them the attribute sets that it uses.
fn put_attributes(
    alloc: Global,
    run: &mut Run,
    site: &Site,
    tag: &LiteralTag,
    attributes: Attributes,
) -> Result<(), Memory>
    ensures { OnOk result (Precedes (λ p. sets_used (site_of site.now).place (here_of attributes.here) tag.now.sets.items (left_frame (Frame.Attributes attributes) p)) 2 run.old run.new) }
{
    let sets = used_sets(alloc, &site.place, tag.sets.as_slice(), &attributes.here)?;
    push(run, Frame::Attributes(attributes))?;
    push_sets(run, sets)?;
    Ok(())
}

/// The element of a tag in the result, without its attributes and its content.
fn element_of(alloc: Global, tag: &LiteralTag, aliases: &[Alias]) -> Result<Wrapping, Memory>
    ensures { IfOk result (λ w. wrapping_of w ≡ element_aliased (map alias_of aliases.now) (literal_tag_of tag.now)) }
{
    let own = tag.name.uri();
    let prefix = aliased_prefix(aliases, &tag.prefix, own);
    let name = written_name(alloc, prefix, tag.name.local())?;
    let uri = aliased_uri(aliases, own).copy(alloc)?;
    let namespaces = aliased_namespaces(alloc, aliases, tag.namespaces.as_slice())?;
    Ok(Wrapping::Element {
        name,
        uri,
        namespaces,
    })
}

/// A name as it is written, with its prefix unless that is empty.
pub(crate) fn written_name(alloc: Global, prefix: &Text, local: &Text) -> Result<Text, Memory>
    ensures { IfOk result (λ name. name ≡ with_prefix prefix.now local.now) }
{
    if prefix.is_empty() {
        return local.copy(alloc);
    }
    let mut name = prefix.copy(alloc)?;
    name.push(':')?;
    name.push_str(local.as_str())?;
    Ok(name)
}
