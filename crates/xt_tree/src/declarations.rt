// Attributes by their numbers, past the declarations.
ghost use Rattle.std.specs.Prelude.{◌≡◌, ◌≤◌, Some, map, not, IfOk, MatchOption};
ghost use Rattle.std.specs.List.{filter, slice_get};
ghost use Rattle.std.specs.Option.{option_map};
ghost use Rattle.spec_document.specs.Declaration.{is_declaration};
ghost use Rattle.spec_document.specs.Place.{at_number, attributes_in};
ghost use Rattle.xt_tree.specs.Indexed.{declarations_in, skipped, written_in};
ghost use Rattle.xt_tree.specs.View.{content_of, written_of};

use crate::indexed::Indexed;
use crate::{Content, Written};
use std::alloc::Global;
use xt_names::is_declaration;
use xt_text::Memory;

impl Indexed {
    /// The attribute of this number, from 1. Declarations are not counted.
    pub fn attribute(&self, number: u64) -> Option<&Written>
        ensures { option_map (λ a. written_of a.now) result ≡ at_number number (attributes_in (Some (content_of self.now))) }
    {
        match &self.content {
            Content::Element { attributes, .. } => {
                nth_attribute(attributes.as_slice(), self.declarations.as_slice(), number)
            }
            Content::Text { .. } | Content::Comment { .. } | Content::Instruction { .. } => None,
        }
    }
}

/// The places of the declarations among the attributes of an element.
pub fn declarations_of(alloc: Global, content: &Content) -> Result<Vec<u64>, Memory>
    ensures { IfOk result (λ list. list.items ≡ declarations_in 0 (written_in content.now)) }
{
    match content {
        Content::Element { attributes, .. } => declarations_among(alloc, attributes.as_slice()),
        Content::Text { .. } | Content::Comment { .. } | Content::Instruction { .. } => {
            Ok(Vec::new(alloc))
        }
    }
}

fn declarations_among(alloc: Global, attributes: &[Written]) -> Result<Vec<u64>, Memory>
    ensures { IfOk result (λ list. list.items ≡ declarations_in 0 (map written_of attributes.now)) }
{
    let mut list = Vec::new(alloc);
    for (index, attribute) in attributes.iter().enumerate() {
        if is_declaration(attribute.name.as_str()) {
            list.push(index as u64)?;
        }
    }
    Ok(list)
}

// The attribute of this number among those that are no declarations, which stand at these places.
fn nth_attribute<'a>(
    attributes: &'a [Written],
    declarations: &[u64],
    number: u64,
) -> Option<&'a Written>
    requires { declarations.now ≡ declarations_in 0 (map written_of attributes.now) }
    ensures { option_map (λ a. written_of a.now) result ≡ at_number number (filter (λ a. not (is_declaration a)) (map written_of attributes.now)) }
{
    if number == 0 {
        return None;
    }
    match place_behind(declarations, number - 1, attributes.len() as u64) {
        None => None,
        Some(place) => written_at(attributes, place),
    }
}

// The place of what has so many others before it that are no declarations. None where it is not below this limit.
fn place_behind(declarations: &[u64], before: u64, limit: u64) -> Option<u64>
    ensures { MatchOption result (limit ≤ skipped declarations.now before) (λ place. place ≡ skipped declarations.now before) }
{
    let mut place = before;
    for declaration in declarations {
        if place >= limit {
            return None;
        }
        if place >= *declaration {
            place += 1;
        }
    }
    Some(place)
}

fn written_at(attributes: &[Written], place: u64) -> Option<&Written>
    ensures { option_map (λ a. a.now) result ≡ slice_get attributes.now place }
{
    if place >= attributes.len() as u64 {
        return None;
    }
    Some(&attributes[place as usize])
}
