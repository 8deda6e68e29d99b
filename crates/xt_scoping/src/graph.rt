// Which names attribute sets use.
ghost use Rattle.std.specs.Prelude.{◌≡◌, ◌++◌, ◌∷◌, [], IfOk, OnOk, if◌then◌else◌};
ghost use Rattle.std.specs.List.{flat_map};
ghost use Rattle.spec_document.specs.Name as spec;
ghost use Rattle.spec_document.specs.Name.{same_name};
ghost use Rattle.spec_compile.specs.Scoping.{set_in, used_by};
ghost use Rattle.xt_top_level.specs.View.{declaration_in};
ghost use Rattle.xt_scoping.specs.Distinct.{AreAdded, with_name, with_names};
ghost use Rattle.xt_scoping.specs.Reach.{all_in, names_at, sets_at, sets_in, used_in};

use crate::key::Key;
use crate::names::Names;
use crate::violation::Ranked;
use indexmap::IndexMap;
use std::alloc::Global;
use xt_names::Expanded;
use xt_syntax::AttributeSet;
use xt_text::Memory;
use xt_top_level::Declaration;

/// The names that attribute sets use, by their names: all declarations of a name are one set (XSLT 1.0, section
/// 7.1.4).
#[derive(Drop)]
pub(crate) struct Graph<'a> {
    uses: IndexMap<Key<'a>, Vec<&'a [Expanded]>>,
}

/// The attribute sets that are declared, in the order of the stylesheet.
pub(crate) fn sets_of<'a>(
    alloc: Global,
    ranked: &'a [Ranked],
) -> Result<Vec<&'a AttributeSet>, Memory>
    ensures { IfOk result (λ sets. sets_at sets.items ≡ sets_in ranked.now) }
{
    let mut sets = Vec::new(alloc);
    for element in ranked {
        push_set(&element.top_level.declaration, &mut sets)?;
    }
    Ok(sets)
}

fn push_set<'a>(
    declaration: &'a Declaration,
    sets: &mut Vec<&'a AttributeSet>,
) -> Result<(), Memory>
    ensures { OnOk result (sets_at sets.new.items ≡ sets_at sets.old.items ++ set_in (declaration_in declaration.now)) }
{
    match declaration {
        Declaration::Set(set) => {
            sets.push(set)?;
            Ok(())
        }
        Declaration::Template(_) => Ok(()),
        Declaration::Global(_) => Ok(()),
        Declaration::Key(_) => Ok(()),
        Declaration::SpaceRule(_) => Ok(()),
        Declaration::Output(_) => Ok(()),
        Declaration::Alias(_) => Ok(()),
    }
}

/// What these sets use.
pub(crate) fn graph_of<'a>(alloc: Global, sets: &[&'a AttributeSet]) -> Result<Graph<'a>, Memory>
    ensures { IfOk result (λ graph. (name : spec.Expanded) → used_in graph name ≡ used_by (sets_at sets.now) name) }
{
    let mut graph = Graph {
        uses: IndexMap::new(alloc),
    };
    for set in sets {
        graph.add(alloc, &set.name, set.sets.as_slice())?;
    }
    Ok(graph)
}

impl<'a> Graph<'a> {
    // Adds the names that the set of this name uses.
    fn add(&mut self, alloc: Global, set: &'a Expanded, used: &'a [Expanded]) -> Result<(), Memory>
        ensures { OnOk result ((name : spec.Expanded) → used_in self.new name ≡ used_in self.old name ++ (if same_name set.now name then used.now else [])) }
    {
        let key = Key { name: set };
        let mut lists = match self.uses.swap_remove(&key) {
            Some(lists) => lists,
            None => Vec::new(alloc),
        };
        lists.push(used)?;
        self.uses.insert(key, lists)?;
        Ok(())
    }

    /// Adds the names that these sets use to those that were seen, and returns the new ones among them.
    pub(crate) fn next(
        &self,
        alloc: Global,
        sets: &[&'a Expanded],
        seen: &mut Names<'a>,
    ) -> Result<Vec<&'a Expanded>, Memory>
        ensures seen { OnOk result (seen.new ≡ with_names seen.old (flat_map (used_in self.now) (names_at sets.now))) }
        ensures new { IfOk result (λ new. seen.new ≡ seen.old ++ names_at new.items) }
    {
        let mut new = Vec::new(alloc);
        for set in sets {
            self.see_used(*set, seen, &mut new)?;
        }
        Ok(new)
    }

    fn see_used(
        &self,
        set: &'a Expanded,
        seen: &mut Names<'a>,
        new: &mut Vec<&'a Expanded>,
    ) -> Result<(), Memory>
        ensures seen { OnOk result (seen.new ≡ with_names seen.old (used_in self.now set.now)) }
        ensures new { OnOk result (AreAdded seen.old (names_at new.old.items) seen.new (names_at new.new.items)) }
    {
        match self.uses.get(&Key { name: set }) {
            None => Ok(()),
            Some(lists) => see_lists(lists.as_slice(), seen, new),
        }
    }
}

fn see_lists<'a>(
    lists: &[&'a [Expanded]],
    seen: &mut Names<'a>,
    new: &mut Vec<&'a Expanded>,
) -> Result<(), Memory>
    ensures seen { OnOk result (seen.new ≡ with_names seen.old (all_in lists.now)) }
    ensures new { OnOk result (AreAdded seen.old (names_at new.old.items) seen.new (names_at new.new.items)) }
{
    for list in lists {
        see(*list, seen, new)?;
    }
    Ok(())
}

/// Adds these names to those that were seen, and those of them that are new to the new ones.
pub(crate) fn see<'a>(
    names: &'a [Expanded],
    seen: &mut Names<'a>,
    new: &mut Vec<&'a Expanded>,
) -> Result<(), Memory>
    ensures seen { OnOk result (seen.new ≡ with_names seen.old names.now) }
    ensures new { OnOk result (AreAdded seen.old (names_at new.old.items) seen.new (names_at new.new.items)) }
{
    for name in names {
        see_one(name, seen, new)?;
    }
    Ok(())
}

fn see_one<'a>(
    name: &'a Expanded,
    seen: &mut Names<'a>,
    new: &mut Vec<&'a Expanded>,
) -> Result<(), Memory>
    ensures seen { OnOk result (seen.new ≡ with_name seen.old name.now) }
    ensures new { OnOk result (AreAdded seen.old (names_at new.old.items) seen.new (names_at new.new.items)) }
{
    if seen.insert(name)? {
        new.push(name)?;
    }
    Ok(())
}
