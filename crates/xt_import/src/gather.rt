// What a module gathers: its top-level elements and those of the modules that it includes.
ghost use Rattle.std.specs.Prelude.{◌≡◌, ◌++◌, ◌∷◌, IfOk, IfSome, IsSome, OnOk, reverse};
ghost use Rattle.spec_structure.specs.Modules as spec;
ghost use Rattle.xt_import.specs.Gathering.{Fits, IsDone, IsEntered, IsGathered, pending_by, pendings_by};
ghost use Rattle.xt_import.specs.Levels.{top_level_in, top_levels_in};
ghost use Rattle.xt_import.specs.View.{modules_in};

use crate::precedence::Part;
use crate::top::{TopLevel, top_levels};
use indexmap::IndexMap;
use std::alloc::Global;
use xt_text::{Memory, Text};
use xt_tree::Doc;

/// A module that is led to.
#[derive(Drop)]
pub(crate) struct Target {
    /// Its name.
    pub name: Text,
    /// How many modules there may be on a way down from it, with itself.
    pub depth: usize,
}

/// What a module gathers with those that it includes.
#[derive(Drop)]
pub(crate) struct Gathered {
    /// The modules that are imported, in their order.
    pub imports: Vec<Target>,
    /// The other top-level elements, in their order.
    pub parts: Vec<Part>,
}

/// An element at the top of a module that was not gathered yet.
#[derive(Drop)]
pub(crate) enum Pending {
    /// Neither an import nor an include.
    Own(Part),
    /// An import of this module.
    Imports(Target),
    /// An include of this module.
    Includes(Target),
}

/// What the module gathers. None where a module is not held or the way down to it is too long, as it is where a
/// module leads back to itself. What is still to be gathered is kept in a vector.
pub(crate) fn gather(
    alloc: Global,
    modules: &IndexMap<String, Doc>,
    target: &Target,
) -> Result<Option<Gathered>, Memory>
    ensures gathered { IfOk result (λ found. IfSome found (λ g. IsGathered (modules_in modules.now.entries) target.now g.imports.items g.parts.items)) }
    ensures found { IfOk result (λ found. Fits (modules_in modules.now.entries) target.now.depth target.now.name → IsSome found) }
{
    let mut gathered = Gathered {
        imports: Vec::new(alloc),
        parts: Vec::new(alloc),
    };
    let mut pending = Vec::new(alloc);
    if !enter(alloc, modules, target, &mut pending)? {
        return Ok(None);
    }
    while let Some(first) = pending.pop() {
        if !take(alloc, modules, first, &mut gathered, &mut pending)? {
            return Ok(None);
        }
    }
    Ok(Some(gathered))
}

// Gathers one element. Answers whether the module that it includes is held.
fn take(
    alloc: Global,
    modules: &IndexMap<String, Doc>,
    first: Pending,
    gathered: &mut Gathered,
    pending: &mut Vec<Pending>,
) -> Result<bool, Memory>
    ensures { IfOk result (λ held. IsDone (modules_in modules.now.entries) held gathered.old.imports.items gathered.new.imports.items gathered.old.parts.items gathered.new.parts.items (first ∷ reverse pending.old.items) (reverse pending.new.items)) }
{
    match first {
        Pending::Own(part) => {
            gathered.parts.push(part)?;
            Ok(true)
        }
        Pending::Imports(target) => {
            gathered.imports.push(target)?;
            Ok(true)
        }
        Pending::Includes(target) => enter(alloc, modules, &target, pending),
    }
}

// Puts what stands at the top of the module on top of what is pending, the first at the end. Answers whether the module
// is held and may stand there.
fn enter(
    alloc: Global,
    modules: &IndexMap<String, Doc>,
    target: &Target,
    pending: &mut Vec<Pending>,
) -> Result<bool, Memory>
    ensures { IfOk result (λ held. IsEntered (modules_in modules.now.entries) target.now held (reverse pending.old.items) (reverse pending.new.items)) }
{
    if target.depth == 0 {
        return Ok(false);
    }
    match modules.get(target.name.as_str()) {
        None => Ok(false),
        Some(document) => {
            let levels = top_levels(alloc, document)?;
            push_levels(alloc, &target.name, target.depth - 1, levels, pending)?;
            Ok(true)
        }
    }
}

fn push_levels(
    alloc: Global,
    module_name: &Text,
    depth: usize,
    levels: Vec<TopLevel>,
    pending: &mut Vec<Pending>,
) -> Result<(), Memory>
    ensures { OnOk result (reverse pending.new.items ≡ pendings_by module_name.now depth (top_levels_in levels.items) ++ reverse pending.old.items) }
{
    let mut levels = levels;
    while let Some(level) = levels.pop() {
        pending.push(pending_of(alloc, module_name, depth, level)?)?;
    }
    Ok(())
}

fn pending_of(
    alloc: Global,
    module_name: &Text,
    depth: usize,
    level: TopLevel,
) -> Result<Pending, Memory>
    ensures { IfOk result (λ pending. pending ≡ pending_by module_name.now depth (top_level_in level)) }
{
    match level {
        TopLevel::Own(path) => {
            let module_name = module_name.copy(alloc)?;
            Ok(Pending::Own(Part { module_name, path }))
        }
        TopLevel::Imports(name) => Ok(Pending::Imports(Target { name, depth })),
        TopLevel::Includes(name) => Ok(Pending::Includes(Target { name, depth })),
    }
}
