// The modules of a stylesheet.
ghost use Rattle.std.specs.Prelude.{◌≡◌, IfOk};
ghost use Rattle.std.specs.List.{All};
ghost use Rattle.std.specs.Str.{chars};
ghost use Rattle.spec_structure.specs.Modules as spec;
ghost use Rattle.xt_import.specs.Table.{AreKnown, IsKnown, names_of, number_in};
ghost use Rattle.xt_import.specs.Tree.{IsJudged, names_in};
ghost use Rattle.xt_import.specs.View.{modules_in};
ghost use Rattle.xt_structure.specs.View.{links_in};

use crate::fault::first_fault;
use crate::numbers::numbers_of;
use crate::order::link_table;
use crate::table::LinkTable;
use indexmap::IndexMap;
use std::alloc::Global;
use xt_structure::{Fault, Link};
use xt_text::{Memory, Text};
use xt_tree::Doc;

/// A module that a stylesheet is made of.
#[derive(Drop)]
pub struct ListedModule {
    /// Its name.
    pub name: Text,
    /// The first of its xsl:import and xsl:include elements that has a fault, in document order: S03 where it names
    /// no module, S04 where it leads back to its own.
    pub link_fault: Option<Fault>,
}

/// The modules that a stylesheet is made of.
#[derive(Drop)]
pub struct ImportTree {
    /// The modules in the order in which they are read, the principal one first. There is none where no module has
    /// the name of the principal one, which is S01.
    pub modules: Vec<ListedModule>,
}

/// The modules that the module of this name leads to by xsl:import and xsl:include elements (XSLT 1.0, section 2.6).
pub fn tree(
    alloc: Global,
    modules: &IndexMap<String, Doc>,
    main: &str,
) -> Result<ImportTree, Memory>
    ensures names { IfOk result (λ tree. spec.AreInReadingOrder (modules_in modules.now.entries) (chars main.now) (names_in tree.modules.items)) }
    ensures link_faults { IfOk result (λ tree. All (IsJudged (modules_in modules.now.entries)) tree.modules.items) }
{
    let table = link_table(alloc, modules, main)?;
    let numbers = numbers_of(alloc, &table)?;
    let listed = judged(alloc, modules, &table, numbers.as_slice())?;
    Ok(ImportTree { modules: listed })
}

// The modules of this table with the faults of their links.
fn judged(
    alloc: Global,
    modules: &IndexMap<String, Doc>,
    table: &LinkTable,
    numbers: &[usize],
) -> Result<Vec<ListedModule>, Memory>
    ensures names { IfOk result (λ listed. names_in listed.items ≡ names_of table.now.entries) }
    ensures link_faults { IfOk result (λ listed. AreKnown (modules_in modules.now.entries) (number_in table.now.entries numbers.now) table.now.entries
        → All (IsJudged (modules_in modules.now.entries)) listed.items) }
{
    let mut listed = Vec::new(alloc);
    for (name, links) in table {
        let name = Text::from_str(alloc, name.as_str())?;
        listed.push(judged_module(alloc, modules, table, numbers, name, links.as_slice())?)?;
    }
    Ok(listed)
}

fn judged_module(
    alloc: Global,
    modules: &IndexMap<String, Doc>,
    table: &LinkTable,
    numbers: &[usize],
    name: Text,
    links: &[Link],
) -> Result<ListedModule, Memory>
    ensures name { IfOk result (λ listed. listed.name ≡ name) }
    ensures link_fault { IfOk result (λ listed. IsKnown (modules_in modules.now.entries) (number_in table.now.entries numbers.now) name (links_in links.now)
        → IsJudged (modules_in modules.now.entries) listed) }
{
    let link_fault = first_fault(alloc, modules, table, numbers, &name, links)?;
    Ok(ListedModule { name, link_fault })
}
