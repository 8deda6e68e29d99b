// The attributes that stand at an element (XSLT 1.0, section 7.1.3).
ghost use Rattle.std.specs.Prelude.{◌≡◌, [], IfOk, OnOk};
ghost use Rattle.spec_result.specs.Recovery.{added_to, all_added, attributes_of, given_by, has_child, local_of, value_of};
ghost use Rattle.xt_tree.specs.StreamView.{single_of, stream_of};

use crate::leading::has_child;
use crate::name::{is_attribute_name, local_of, prefix_of};
use crate::value::value_of;
use indexmap::IndexMap;
use std::alloc::Global;
use std::marker::Model;
use xt_text::{Memory, Text};
use xt_tree::{Item, Items};

/// Attributes in the order in which their expanded names first came, each looked up at once. Contracts see
/// the list.
#[derive(Drop)]
pub(crate) struct Attributes {
    // by URI and local part
    pub(crate) by_name: IndexMap<(String, String), Given>,
}

/// What an attribute has beside its expanded name.
#[derive(Drop)]
pub(crate) struct Given {
    /// The prefix as it was written, empty for none.
    pub(crate) prefix: Text,
    pub(crate) value: Text,
}

impl Model for Attributes {
    ghost use Rattle.std.specs.Prelude.{List, map};
    ghost use Rattle.spec_result.specs.Recovery.{Given};
    ghost use Rattle.xt_result.specs.View.{given_of};

    ghost Value = { List Given };

    ghost view = { λ a. map given_of a.by_name.entries };
}

impl Attributes {
    // Adds an attribute; one of the same expanded name is replaced in its place.
    fn add(&mut self, alloc: Global, name: &Text, uri: &Text, content: &Items) -> Result<(), Memory>
        ensures { OnOk result (self.new ≡ all_added self.old (given_by name.now uri.now (value_of (stream_of content.now)))) }
    {
        if !is_attribute_name(name, uri) {
            return Ok(());
        }
        let prefix = Text::from_str(alloc, prefix_of(name.as_str()))?;
        let value = value_of(alloc, content)?;
        self.insert(alloc, name, uri, Given { prefix, value })
    }

    // Adds an attribute of this expanded name.
    fn insert(&mut self, alloc: Global, name: &Text, uri: &Text, given: Given) -> Result<(), Memory>
        ensures { OnOk result (self.new ≡ added_to self.old (record { prefix = given.prefix; local = local_of name.now; uri = uri.now; value = given.value })) }
    {
        let uri = String::from_str(alloc, uri.as_str())?;
        let local = String::from_str(alloc, local_of(name.as_str()))?;
        self.by_name.insert((uri, local), given)?;
        Ok(())
    }
}

/// The attributes that the content of an element begins with: those that come before its first child.
pub(crate) fn attributes_of(alloc: Global, content: &Items) -> Result<Attributes, Memory>
    ensures { IfOk result (λ attributes. attributes ≡ all_added [] (attributes_of (stream_of content.now))) }
{
    let mut attributes = Attributes {
        by_name: IndexMap::new(alloc),
    };
    add_items(alloc, &mut attributes, content)?;
    Ok(attributes)
}

// Adds the attributes that these items begin with, and says whether a child ends them.
#[cycle(add)]
fn add_items(alloc: Global, attributes: &mut Attributes, items: &Items) -> Result<bool, Memory>
    ensures child { IfOk result (λ is_ended. is_ended ≡ has_child (stream_of items.now)) }
    ensures added { OnOk result (attributes.new ≡ all_added attributes.old (attributes_of (stream_of items.now))) }
{
    for item in items.list() {
        if add_item(alloc, attributes, item)? {
            return Ok(true);
        }
    }
    Ok(false)
}

#[cycle(add)]
fn add_item(alloc: Global, attributes: &mut Attributes, item: &Item) -> Result<bool, Memory>
    ensures child { IfOk result (λ is_ended. is_ended ≡ has_child (single_of item.now)) }
    ensures added { OnOk result (attributes.new ≡ all_added attributes.old (attributes_of (single_of item.now))) }
{
    match item {
        Item::Attribute { name, uri, content } => {
            attributes.add(alloc, name, uri, content)?;
            Ok(false)
        }
        Item::Part(items) => add_items(alloc, attributes, items),
        Item::Nameless { content } => Ok(has_child(content)),
        Item::Text(text) => Ok(!text.is_empty()),
        Item::Element { .. } => Ok(true),
        Item::Comment { .. } => Ok(true),
        Item::Instruction { .. } => Ok(true),
        Item::Namespace(_) => Ok(false),
        Item::Message { .. } => Ok(false),
        Item::Hole => Ok(false),
    }
}
