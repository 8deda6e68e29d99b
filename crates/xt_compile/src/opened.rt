// The elements at the top of a module by their places.
ghost use Rattle.std.specs.Prelude.{◌≡◌, ℕ, ◌++◌, ◌∷◌, [], List, None, Some, IfOk, OnOk, bytes_eq, if◌then◌else◌};
ghost use Rattle.std.specs.List.{filter};
ghost use Rattle.std.specs.Map.{lookup};
ghost use Rattle.spec_compile.specs.Sheet as spec;
ghost use Rattle.spec_compile.specs.Unit as unit;
ghost use Rattle.xt_compile.specs.Opened.{IsOpened, is_path, items_of, kept_of};
ghost use Rattle.xt_top_level.specs.View.{top_level_in, top_levels_in};

use indexmap::IndexMap;
use std::alloc::Global;
use xt_text::{Memory, Path};
use xt_top_level::TopLevel;

/// The elements at the top of a module by the way to each; none where they were taken.
pub(crate) type Opened = IndexMap<Vec<u64>, Vec<TopLevel>>;

/// These elements by their places.
pub(crate) fn by_path(alloc: Global, top_levels: Vec<TopLevel>) -> Result<Opened, Memory>
    ensures { IfOk result (λ opened. IsOpened (top_levels_in top_levels.items) opened.entries) }
{
    let mut by_path = IndexMap::new(alloc);
    for top_level in top_levels {
        let Ok(()) = add(alloc, &mut by_path, top_level) else {
            drop(by_path);
            return Err(Memory);
        };
    }
    Ok(by_path)
}

// Adds an element behind those that are at its place.
fn add(alloc: Global, opened: &mut Opened, top_level: TopLevel) -> Result<(), Memory>
    ensures { OnOk result ((before : List unit.TopLevel) → IsOpened before opened.old.entries → IsOpened (before ++ top_level_in top_level ∷ []) opened.new.entries) }
{
    let mut last = Vec::new(alloc);
    last.push(top_level)?;
    let path = &last[0].site.place.path;
    let key = key_of(alloc, path)?;
    let taken = take_at(alloc, opened, path)?;
    let there = behind(taken, last)?;
    let _ = opened.insert(key, there)?;
    Ok(())
}

// Elements behind those that were taken.
fn behind(taken: Option<Vec<TopLevel>>, mut last: Vec<TopLevel>) -> Result<Vec<TopLevel>, Memory>
    ensures { IfOk result (λ all. top_levels_in all.items ≡ kept_of taken ++ top_levels_in last.items) }
{
    match taken {
        None => Ok(last),
        Some(mut taken) => {
            taken.append(&mut last)?;
            Ok(taken)
        }
    }
}

/// Takes those at this place. None where there are none, and empty where they were taken before.
pub(crate) fn take_at(
    alloc: Global,
    opened: &mut Opened,
    path: &Path,
) -> Result<Option<Vec<TopLevel>>, Memory>
    ensures taken { IfOk result (λ taken. taken ≡ lookup (is_path path.now) opened.old.entries) }
    ensures rest { OnOk result ((q : List ℕ) → items_of (lookup (is_path q) opened.new.entries) ≡ (if bytes_eq q path.now then Some [] else items_of (lookup (is_path q) opened.old.entries))) }
{
    let key = key_of(alloc, path)?;
    Ok(opened.insert(key, Vec::new(alloc))?)
}

fn key_of(alloc: Global, path: &Path) -> Result<Vec<u64>, Memory>
    ensures { IfOk result (λ key. key.items ≡ path.now) }
{
    Ok(Vec::from_slice(alloc, path.positions())?)
}

/// Those that were taken.
pub(crate) fn or_none(alloc: Global, taken: Option<Vec<TopLevel>>) -> Vec<TopLevel>
    ensures { top_levels_in result.items ≡ kept_of taken }
{
    match taken {
        None => Vec::new(alloc),
        Some(taken) => taken,
    }
}
