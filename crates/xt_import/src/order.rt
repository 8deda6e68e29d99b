// The order in which modules are read.
ghost use Rattle.std.specs.Prelude.{◌≡◌, ◌+◌, ◌≤◌, ◌++◌, ◌∷◌, [], IfOk, OnOk, length, map, reverse};
ghost use Rattle.std.specs.Str.{chars};
ghost use Rattle.spec_document.specs.Forest.{plain};
ghost use Rattle.spec_structure.specs.Modules as spec;
ghost use Rattle.spec_structure.specs.Structure.{links_of};
ghost use Rattle.xt_import.specs.Pending.{GoesOn, unread};
ghost use Rattle.xt_import.specs.Table.{lists_of, names_of};
ghost use Rattle.xt_import.specs.View.{hrefs_in, modules_in};
ghost use Rattle.xt_structure.specs.View.{links_in};

use crate::table::{LinkTable, add_module, is_read, names_in};
use indexmap::IndexMap;
use std::alloc::Global;
use xt_structure::{Link, check};
use xt_text::{Memory, Text};
use xt_tree::Doc;

/// The names of the modules that the module of this name leads to, in the order in which they are read: first its
/// own, then at each xsl:import and xsl:include element of it in document order the module that is named there with
/// those that it leads to in turn, each once. A name that no module has is left out, so the list is empty where
/// there is no module of the given name.
pub fn reading_order(
    alloc: Global,
    modules: &IndexMap<String, Doc>,
    main: &str,
) -> Result<Vec<Text>, Memory>
    ensures { IfOk result (λ names. spec.AreInReadingOrder (modules_in modules.now.entries) (chars main.now) names.items) }
{
    let table = link_table(alloc, modules, main)?;
    names_in(alloc, &table)
}

/// The modules that the module of this name leads to, in the order in which they are read, each with its links.
pub(crate) fn link_table(
    alloc: Global,
    modules: &IndexMap<String, Doc>,
    main: &str,
) -> Result<LinkTable, Memory>
    ensures names { IfOk result (λ table. spec.AreInReadingOrder (modules_in modules.now.entries) (chars main.now) (names_of table.entries)) }
    ensures links { IfOk result (λ table. lists_of table.entries ≡ map (spec.links_in (modules_in modules.now.entries)) (names_of table.entries)) }
{
    let mut table = IndexMap::new(alloc);
    let mut pending = Vec::new(alloc);
    pending.push(Text::from_str(alloc, main)?)?;
    while let Some(name) = pending.pop() {
        read(alloc, modules, &name, &mut table, &mut pending)?;
    }
    Ok(table)
}

// Reads the module of this name, where there is one that was not read: puts it behind those that were, and the names
// of those that it leads to on top of the names that are still to be read, the first at the end.
fn read(
    alloc: Global,
    modules: &IndexMap<String, Doc>,
    name: &Text,
    table: &mut LinkTable,
    pending: &mut Vec<Text>,
) -> Result<(), Memory>
    ensures reads { OnOk result (GoesOn (modules_in modules.now.entries) (names_of table.new.entries) (reverse pending.new.items) (names_of table.old.entries) (name.now ∷ reverse pending.old.items)) }
    ensures smaller { OnOk result (length pending.new.items + unread (names_of table.new.entries) modules.now.entries ≤ length pending.old.items + unread (names_of table.old.entries) modules.now.entries) }
    ensures links { OnOk result (lists_of table.old.entries ≡ map (spec.links_in (modules_in modules.now.entries)) (names_of table.old.entries)
        → lists_of table.new.entries ≡ map (spec.links_in (modules_in modules.now.entries)) (names_of table.new.entries)) }
{
    if is_read(table, name) {
        return Ok(());
    }
    match modules.get(name.as_str()) {
        None => Ok(()),
        Some(document) => {
            let links = module_links(alloc, document)?;
            push_hrefs(alloc, links.as_slice(), pending)?;
            add_module(alloc, table, name, links)?;
            Ok(())
        }
    }
}

fn module_links(alloc: Global, document: &Doc) -> Result<Vec<Link>, Memory>
    ensures { IfOk result (λ links. links_in links.items ≡ links_of 1 (plain document.now.nodes)) }
{
    let module = check(alloc, document)?;
    Ok(module.links)
}

/// Whether the name is one of these.
pub(crate) fn is_among(name: &Text, names: &[Text]) -> bool
    ensures { result ≡ spec.is_among name.now names.now }
{
    for other in names {
        if name.same(other) {
            return true;
        }
    }
    false
}

// Adds the names of the modules that these links lead to, the first at the end.
fn push_hrefs(alloc: Global, links: &[Link], pending: &mut Vec<Text>) -> Result<(), Memory>
    ensures { OnOk result (pending.new.items ≡ pending.old.items ++ reverse (hrefs_in links.now)) }
{
    let mut left = links.len();
    while left > 0 {
        left -= 1;
        pending.push(links[left].href.copy(alloc)?)?;
    }
    Ok(())
}
