// The stylesheets of the import tree in the order of their precedence.
ghost use Rattle.std.specs.Prelude.{◌≡◌, ◌++◌, ◌∷◌, ℕ, List, IfOk, IfSome, IsSome, OnOk, map, reverse};
ghost use Rattle.std.specs.List.{All};
ghost use Rattle.spec_structure.specs.Modules as spec;
ghost use Rattle.xt_import.specs.Gathering.{IsTaken, orders_of};
ghost use Rattle.xt_import.specs.Parts.{IsFaultless, stylesheet_in};
ghost use Rattle.xt_import.specs.View.{modules_in};

use crate::gather::{Target, gather};
use indexmap::IndexMap;
use std::alloc::Global;
use xt_text::{Memory, Path, Text};
use xt_tree::Doc;

/// A top-level element of a stylesheet.
#[derive(Drop)]
pub struct Part {
    /// The module where it stands.
    pub module_name: Text,
    /// The way to it there.
    pub path: Path,
}

/// A stylesheet of the import tree: a module with those that it includes.
#[derive(Drop)]
pub struct Stylesheet {
    /// Its top-level elements, those of an included module in the place of the xsl:include.
    pub parts: Vec<Part>,
    /// How many it imports, by itself and by what it imports: these are those directly before it.
    pub imported: u64,
}

/// What is still to be done for the order.
#[derive(Drop)]
pub(crate) enum Task {
    /// The stylesheet of this module is to be put behind those that it imports.
    Order(Target),
    /// A stylesheet with these parts is next, since what it imports was put there, from this one on.
    Close { parts: Vec<Part>, start: usize },
}

/// The stylesheets of the module of this name in the order of their precedence, the lowest first (XSLT 1.0, section
/// 2.6.2): those that a stylesheet imports come before it, in the order of its xsl:import elements. One that is imported
/// twice stands there twice. None where a module is not held or leads back to itself, so never where the module is held
/// and no module that it leads to has a fault of structure or of its links.
pub fn stylesheets(
    alloc: Global,
    modules: &IndexMap<String, Doc>,
    main: &Text,
) -> Result<Option<Vec<Stylesheet>>, Memory>
    ensures ordered { IfOk result (λ found. IfSome found (λ sheets. spec.IsOrdered (modules_in modules.now.entries) main.now (map stylesheet_in sheets.items))) }
    ensures none { IfOk result (λ found. (names : List (List ℕ)) → spec.AreInReadingOrder (modules_in modules.now.entries) main.now names → All (IsFaultless (modules_in modules.now.entries)) names → IsSome (modules_in modules.now.entries main.now) → IsSome found) }
{
    let mut sheets = Vec::new(alloc);
    let mut tasks = Vec::new(alloc);
    tasks.push(Task::Order(Target {
        name: main.copy(alloc)?,
        depth: modules.len(),
    }))?;
    while let Some(task) = tasks.pop() {
        if !take(alloc, modules, task, &mut sheets, &mut tasks)? {
            return Ok(None);
        }
    }
    Ok(Some(sheets))
}

// Does one task. Answers whether all modules that it needs are held.
fn take(
    alloc: Global,
    modules: &IndexMap<String, Doc>,
    task: Task,
    sheets: &mut Vec<Stylesheet>,
    tasks: &mut Vec<Task>,
) -> Result<bool, Memory>
    ensures { IfOk result (λ held. IsTaken (modules_in modules.now.entries) held (map stylesheet_in sheets.old.items) (map stylesheet_in sheets.new.items) (task ∷ reverse tasks.old.items) (reverse tasks.new.items)) }
{
    match task {
        Task::Order(target) => match gather(alloc, modules, &target)? {
            None => Ok(false),
            Some(gathered) => {
                let start = sheets.len();
                let parts = gathered.parts;
                tasks.push(Task::Close { parts, start })?;
                push_imports(gathered.imports, tasks)?;
                Ok(true)
            }
        },
        Task::Close { parts, start } => {
            let imported = sheets.len().saturating_sub(start) as u64;
            sheets.push(Stylesheet { parts, imported })?;
            Ok(true)
        }
    }
}

// Puts the stylesheets that are imported on top of the tasks, the first at the end.
fn push_imports(imports: Vec<Target>, tasks: &mut Vec<Task>) -> Result<(), Memory>
    ensures { OnOk result (reverse tasks.new.items ≡ orders_of imports.items ++ reverse tasks.old.items) }
{
    let mut imports = imports;
    while let Some(target) = imports.pop() {
        tasks.push(Task::Order(target))?;
    }
    Ok(())
}
