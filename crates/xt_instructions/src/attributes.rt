// The attributes of literal result elements (XSLT 1.0, section 7.1.1).
ghost use Rattle.std.specs.Prelude.{◌≡◌, ◌<◌, ◌+◌, map, drop, slice_get, Some, IfOk, OnOk};
ghost use Rattle.spec_stylesheet.specs.Instruction as made;
ghost use Rattle.spec_stylesheet.specs.Instruction.{instrs};
ghost use Rattle.spec_meaning.specs.Stream as stream;
ghost use Rattle.spec_meaning.specs.Stream.{holes};
ghost use Rattle.spec_transform.specs.Expansion.{expanded};
ghost use Rattle.spec_run.specs.Plan.{Put};
ghost use Rattle.spec_run.specs.Going.{put};
ghost use Rattle.spec_run.specs.Content.{asked, attribute_aliased, attributes_put};
ghost use Rattle.xt_syntax.specs.SheetView.{alias_of};
ghost use Rattle.xt_syntax.specs.PartView.{site_of, avt_of, literal_attribute_of, literal_tag_of};
ghost use Rattle.xt_syntax.specs.InstrView.{instr_of};
ghost use Rattle.xt_tree.specs.StreamView.{single_of, stream_of};
ghost use Rattle.xt_progress.specs.View.{going_of};
ghost use Rattle.xt_frames.specs.declared.frame.Frame.TheVariants as Frame;
ghost use Rattle.xt_frames.specs.View.{here_of, inside, attributes_left, left_frame};
ghost use Rattle.xt_frames.specs.Left.{left_in, Performs, StepsFrom};

use crate::aliases::{aliased_prefix, aliased_uri, for_attribute};
use crate::literal::written_name;
use std::alloc::Global;
use std::rc::Rc;
use xt_frames::{
    Attributes, Came, Frame, Next, Run, expansion, go_into, lack, push, share_content,
};
use xt_progress::Going;
use xt_questions::World;
use xt_syntax::{Alias, Form, Instr, LiteralAttribute, LiteralTag, Site, WithContent};
use xt_text::{Memory, Text};
use xt_tree::{Item, Items};

/// Goes on with the attributes of a literal result element, whose frame was taken off.
pub fn go_on_attributes<W: World>(
    alloc: Global,
    run: &mut Run,
    attributes: Attributes,
    world: &mut W,
) -> Result<Next, Memory>
    ensures does { IfOk result (StepsFrom (W.state world.old).truth (Frame.Attributes attributes) run.old run.new) }
    ensures truth { (W.state world.new).truth ≡ (W.state world.old).truth }
    ensures name { W.name world.new ≡ W.name world.old }
{
    let Ok(content) = share_content(&attributes.content) else {
        drop(attributes);
        return Err(Memory);
    };
    let instrs = content.as_slice();
    if attributes.number >= instrs.len() {
        drop(attributes);
        return Ok(Next::Went);
    }
    go_on_with(alloc, run, &instrs[attributes.number], attributes, world)
}

/// Goes on with this instruction, where it is a literal result element.
fn go_on_with<W: World>(
    alloc: Global,
    run: &mut Run,
    instr: &Instr,
    attributes: Attributes,
    world: &mut W,
) -> Result<Next, Memory>
    requires { slice_get (map instr_of attributes.content.value.items) attributes.number ≡ Some (instr_of instr.now) }
    ensures does { IfOk result (Performs (W.state world.old).truth (Frame.Attributes attributes) (attributes_left (here_of attributes.here) attributes.next (instr_of instr.now).site (instr_of instr.now).form (left_in run.old)) run.old run.new) }
    ensures truth { (W.state world.new).truth ≡ (W.state world.old).truth }
    ensures name { W.name world.new ≡ W.name world.old }
{
    match &instr.form {
        Form::WithContent(what, content) => match what {
            WithContent::Literal(tag) => {
                next_attribute(alloc, run, &instr.site, tag, content, attributes, world)
            }
            _ => Ok(Next::Went),
        },
        Form::WithoutContent(_) => Ok(Next::Went),
        Form::Control(_) => Ok(Next::Went),
    }
}

/// The next attribute, or after the last the content.
fn next_attribute<W: World>(
    alloc: Global,
    run: &mut Run,
    site: &Site,
    tag: &LiteralTag,
    content: &Rc<Vec<Instr>>,
    attributes: Attributes,
    world: &mut W,
) -> Result<Next, Memory>
    requires { slice_get (map instr_of attributes.content.value.items) attributes.number ≡ Some (record { site = site_of site.now; form = made.with_content (made.Literal (literal_tag_of tag.now)) (instrs (map instr_of content.now.value.items)) }) }
    ensures does { IfOk result (Performs (W.state world.old).truth (Frame.Attributes attributes) (attributes_put (site_of site.now) (here_of attributes.here) (drop attributes.next (map literal_attribute_of tag.now.attributes.items)) (inside (site_of site.now).place (instrs (map instr_of content.now.value.items)) (here_of attributes.here) (left_in run.old))) run.old run.new) }
    ensures truth { (W.state world.new).truth ≡ (W.state world.old).truth }
    ensures name { W.name world.new ≡ W.name world.old }
{
    let list = tag.attributes.as_slice();
    if attributes.next >= list.len() {
        let Ok(inner) = share_content(content) else {
            drop(attributes);
            return Err(Memory);
        };
        return go_into(alloc, run, &site.place, inner, attributes.here);
    }
    put_attribute(alloc, run, site, &list[attributes.next], attributes, world)
}

/// Puts an attribute, before those that follow.
fn put_attribute<W: World>(
    alloc: Global,
    run: &mut Run,
    site: &Site,
    attribute: &LiteralAttribute,
    attributes: Attributes,
    world: &mut W,
) -> Result<Next, Memory>
    requires { attributes.next < usize.MAX }
    ensures does { IfOk result (Performs (W.state world.old).truth (Frame.Attributes attributes) (asked (site_of site.now) (here_of attributes.here) (expanded (avt_of attribute.now.value)) (λ t. Put (attribute_aliased (here_of attributes.here).aliases (literal_attribute_of attribute.now) t) (left_frame (Frame.Attributes (record { content = attributes.content; number = attributes.number; next = attributes.next + 1; here = attributes.here })) (left_in run.old)))) run.old run.new) }
    ensures truth { (W.state world.new).truth ≡ (W.state world.old).truth }
    ensures name { W.name world.new ≡ W.name world.old }
{
    let Ok(came) = expansion(alloc, run, &attribute.value, site, &attributes.here, world) else {
        drop(attributes);
        return Err(Memory);
    };
    match came {
        Came::Is(text) => {
            let aliases = attributes.here.unit.aliases.as_slice();
            put_item(alloc, &mut run.going, attribute, aliases, text)?;
            push(run, Frame::Attributes(advanced(attributes)))?;
            Ok(Next::Went)
        }
        Came::Halts(why) => {
            drop(attributes);
            Ok(Next::Halt(why))
        }
        Came::Lacks(name) => {
            let depth = attributes.here.depth;
            lack(
                alloc,
                run,
                Frame::Attributes(attributes),
                name,
                depth,
                &site.place,
            )
        }
    }
}

/// The attributes after the next one.
fn advanced(attributes: Attributes) -> Attributes
    requires { attributes.next < usize.MAX }
    ensures { result ≡ record { content = attributes.content; number = attributes.number; next = attributes.next + 1; here = attributes.here } }
{
    Attributes {
        content: attributes.content,
        number: attributes.number,
        next: attributes.next + 1,
        here: attributes.here,
    }
}

/// Puts an attribute with this value.
fn put_item(
    alloc: Global,
    going: &mut Going,
    attribute: &LiteralAttribute,
    aliases: &[Alias],
    text: Text,
) -> Result<(), Memory>
    ensures { OnOk result (going_of going.new ≡ put (attribute_aliased (map alias_of aliases.now) (literal_attribute_of attribute.now) text) (going_of going.old)) }
{
    let item = item_of(alloc, attribute, aliases, text)?;
    going.put(item)
}

/// The attribute with this value in the result.
fn item_of(
    alloc: Global,
    attribute: &LiteralAttribute,
    aliases: &[Alias],
    text: Text,
) -> Result<Item, Memory>
    ensures item { IfOk result (λ i. single_of i ≡ attribute_aliased (map alias_of aliases.now) (literal_attribute_of attribute.now) text) }
    ensures whole { IfOk result (λ i. holes (single_of i) ≡ 0) }
{
    let mut content = Items::new(alloc);
    content.push(Item::Text(text))?;
    let shared = Rc::new(alloc, content)?;
    let own = attribute.name.uri();
    let aliases = for_attribute(aliases, own);
    let prefix = aliased_prefix(aliases, &attribute.prefix, own);
    let name = written_name(alloc, prefix, attribute.name.local())?;
    let uri = aliased_uri(aliases, own).copy(alloc)?;
    Ok(attribute_with(name, uri, shared))
}

/// The attribute of these parts.
fn attribute_with(name: Text, uri: Text, content: Rc<Items>) -> Item
    ensures { single_of result ≡ stream.Attribute name uri (stream_of content.value) stream.Ended }
{
    Item::Attribute { name, uri, content }
}
