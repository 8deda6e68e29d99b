// The names of an element's attributes so far, kept in order, so that each is looked up in few steps.
ghost use Rattle.std.specs.Prelude.{◌≡◌, ◌||◌, ℕ, [], List, Option, Some, bytes_eq, IfOk, OnOk};
ghost use Rattle.std.specs.Option.{option_copied};
ghost use Rattle.std.specs.Str.{chars};
ghost use Rattle.spec_document.specs.Name as spec;
ghost use Rattle.xt_names.specs.NamesSoFar.{has_written, has_expanded, is_written, is_expanded, texts_in, names_in};

use crate::Expanded;
use std::alloc::Global;
use std::collections::BTreeSet;
use std::marker::Model;
use xt_text::Memory;

/// The names that an element's attributes have so far, of which none may come again: as they are
/// written, and expanded (XML 1.0, section 3.1; Namespaces in XML 1.0, section 6.3).
#[derive(Drop)]
pub struct AttributeNames {
    written: BTreeSet<String>,
    // URI and local part
    expanded: BTreeSet<(String, String)>,
}

impl Model for AttributeNames {
    ghost use Rattle.xt_names.specs.NamesSoFar.{NamesSoFar, texts_in, names_in};

    ghost Value = { NamesSoFar };

    ghost view = { λ names. record { written = texts_in names.written.keys; expanded = names_in names.expanded.keys } };
}

impl AttributeNames {
    /// No names. Takes no memory.
    pub fn new(alloc: Global) -> AttributeNames
        ensures written { result.written ≡ [] }
        ensures expanded { result.expanded ≡ [] }
    {
        AttributeNames {
            written: BTreeSet::new(alloc),
            expanded: BTreeSet::new(alloc),
        }
    }

    /// Adds a name as written, and its expanded name where it has one, and says whether one of the two
    /// was there before. Takes a logarithm of their number of steps. After want of memory one of the two
    /// may have been added.
    pub fn insert(
        &mut self,
        alloc: Global,
        written: &str,
        expanded: Option<&Expanded>,
    ) -> Result<bool, Memory>
        ensures before { IfOk result (λ before. before ≡ (has_written self.old (chars written.now) || has_expanded self.old (option_copied expanded.entry))) }
        ensures written { OnOk result ((name : List ℕ) → has_written self.new name ≡ (has_written self.old name || bytes_eq (chars written.now) name)) }
        ensures expanded { OnOk result ((name : Option spec.Expanded) → has_expanded self.new name ≡ (has_expanded self.old name || spec.same_expanded (option_copied expanded.entry) name)) }
    {
        let is_written = insert_text(&mut self.written, alloc, written)?;
        let is_expanded = insert_name(&mut self.expanded, alloc, expanded)?;
        Ok(is_written || is_expanded)
    }
}

// Adds a text, and says whether it was there before.
fn insert_text(texts: &mut BTreeSet<String>, alloc: Global, text: &str) -> Result<bool, Memory>
    ensures before { IfOk result (λ before. before ≡ is_written (texts_in texts.old.keys) (chars text.now)) }
    ensures kept { OnOk result ((other : List ℕ) → is_written (texts_in texts.new.keys) other ≡ (is_written (texts_in texts.old.keys) other || bytes_eq (chars text.now) other)) }
{
    let key = String::from_str(alloc, text)?;
    let is_new = texts.insert(key)?;
    Ok(!is_new)
}

// Adds an expanded name where there is one, and says whether it was there before.
fn insert_name(
    pairs: &mut BTreeSet<(String, String)>,
    alloc: Global,
    name: Option<&Expanded>,
) -> Result<bool, Memory>
    ensures before { IfOk result (λ before. before ≡ is_expanded (names_in pairs.old.keys) (option_copied name.entry)) }
    ensures kept { OnOk result ((other : Option spec.Expanded) → is_expanded (names_in pairs.new.keys) other ≡ (is_expanded (names_in pairs.old.keys) other || spec.same_expanded (option_copied name.entry) other)) }
{
    match name {
        Some(name) => insert_pair(pairs, alloc, name),
        None => Ok(false),
    }
}

// Adds the URI and the local part of an expanded name, and says whether they were there before.
fn insert_pair(
    pairs: &mut BTreeSet<(String, String)>,
    alloc: Global,
    name: &Expanded,
) -> Result<bool, Memory>
    ensures before { IfOk result (λ before. before ≡ is_expanded (names_in pairs.old.keys) (Some name.now)) }
    ensures kept { OnOk result ((other : Option spec.Expanded) → is_expanded (names_in pairs.new.keys) other ≡ (is_expanded (names_in pairs.old.keys) other || spec.same_expanded (Some name.now) other)) }
{
    let uri = String::from_str(alloc, name.uri().as_str())?;
    let local = String::from_str(alloc, name.local().as_str())?;
    let is_new = pairs.insert((uri, local))?;
    Ok(!is_new)
}
