// The modules that were read, each with its links.
ghost use Rattle.std.specs.Prelude.{◌≡◌, ◌++◌, ◌∷◌, [], IfOk, OnOk, false, slice_index};
ghost use Rattle.std.specs.Str.{chars};
ghost use Rattle.spec_structure.specs.Modules as spec;
ghost use Rattle.xt_import.specs.Table.{lists_of, names_of, number_in};
ghost use Rattle.xt_structure.specs.View.{links_in};

use indexmap::IndexMap;
use std::alloc::Global;
use xt_structure::Link;
use xt_text::{Memory, Text};

/// The links of each module that was read, by its name, in the order of reading.
pub(crate) type LinkTable = IndexMap<String, Vec<Link>>;

/// Whether the module of this name was read.
pub(crate) fn is_read(table: &LinkTable, name: &Text) -> bool
    ensures { result ≡ spec.is_among name.now (names_of table.now.entries) }
{
    table.contains_key(name.as_str())
}

/// Puts a module behind those that were read.
pub(crate) fn add_module(
    alloc: Global,
    table: &mut LinkTable,
    name: &Text,
    links: Vec<Link>,
) -> Result<(), Memory>
    requires { spec.is_among name.now (names_of table.old.entries) ≡ false }
    ensures names { OnOk result (names_of table.new.entries ≡ names_of table.old.entries ++ name.now ∷ []) }
    ensures links { OnOk result (lists_of table.new.entries ≡ lists_of table.old.entries ++ links_in links.items ∷ []) }
{
    let key = String::from_str(alloc, name.as_str())?;
    table.insert(key, links)?;
    Ok(())
}

/// The names of the modules, in the order of reading.
pub(crate) fn names_in(alloc: Global, table: &LinkTable) -> Result<Vec<Text>, Memory>
    ensures { IfOk result (λ names. names.items ≡ names_of table.now.entries) }
{
    let mut names = Vec::new(alloc);
    for name in table.keys() {
        names.push(Text::from_str(alloc, name.as_str())?)?;
    }
    Ok(names)
}

/// The number of the module of this name among those that stand in the order of the table, and 0 where it has none.
pub(crate) fn number_of(table: &LinkTable, numbers: &[usize], name: &str) -> usize
    ensures { result ≡ number_in table.now.entries numbers.now (chars name.now) }
{
    match table.get_index_of(name) {
        None => 0,
        Some(place) => number_at(numbers, place),
    }
}

/// The number in this place, and 0 where there is none.
pub(crate) fn number_at(numbers: &[usize], place: usize) -> usize
    ensures { result ≡ slice_index numbers.now place }
{
    numbers.get(place).copied().unwrap_or(0)
}
