// The stylesheet that modules are.
ghost use Rattle.std.specs.Prelude.{◌≡◌, IfOk, is_some, map};
ghost use Rattle.spec_compile.specs.Sheet as spec;
ghost use Rattle.xt_compile.specs.View.{IsChecked, IsCompiled, said_in};
ghost use Rattle.xt_compile.specs.Stock.{Says};
ghost use Rattle.xt_import.specs.Parts.{stylesheet_in};
ghost use Rattle.xt_import.specs.Tree.{names_in};
ghost use Rattle.xt_import.specs.View.{modules_in};
ghost use Rattle.xt_scoping.specs.View.{ranked_in};

use crate::between::first_violation;
use crate::declared::sheet_of;
use crate::fault::SheetFault;
use crate::placing::ranked_of;
use crate::read::{Said, read_all};
use indexmap::IndexMap;
use std::alloc::Global;
use xt_import::{ListedModule, Stylesheet, stylesheets, tree};
use xt_scoping::{Ranked, violations_of};
use xt_syntax::Sheet;
use xt_text::{Memory, Text};
use xt_tree::Doc;

/// The stylesheet of the module of this name with those that it imports and includes (XSLT 1.0, section 2.6).
///
/// Errors: want of memory; S01, where no module has this name; or the first fault. The faults of the first pass, which
/// stand in one module each, come before those of the second, which stand between elements (S17 to S22). Of each pass
/// the first counts by module in reading order, then by place in document order, then the least code.
pub fn sheet(
    alloc: Global,
    modules: &IndexMap<String, Doc>,
    main: &Text,
) -> Result<Sheet, SheetFault>
    ensures { IsCompiled (modules_in modules.now.entries) main.now result }
{
    if !is_held(modules, main) {
        return Err(SheetFault::NoMain);
    }
    let found = tree(alloc, modules, main.as_str())?;
    let names = names_of(alloc, found.modules.as_slice())?;
    let said = read_all(alloc, modules, found.modules)?;
    match stylesheets(alloc, modules, main)? {
        None => unreachable!(),
        Some(stylesheets) => second_pass(alloc, modules, names, said, stylesheets),
    }
}

// The stylesheet of what these modules say, or the first of the faults between its elements.
fn second_pass(
    alloc: Global,
    modules: &IndexMap<String, Doc>,
    names: Vec<Text>,
    said: Vec<Said>,
    stylesheets: Vec<Stylesheet>,
) -> Result<Sheet, SheetFault>
    ensures { Says (modules_in modules.now.entries) (map said_in said.items) → IsChecked (spec.checked names.items (spec.ranked_from (map said_in said.items) 0 (map stylesheet_in stylesheets.items))) result }
{
    let ranked = ranked_of(alloc, modules, said, stylesheets.as_slice())?;
    checked(alloc, names.as_slice(), ranked)
}

// Whether there is a module of this name.
fn is_held(modules: &IndexMap<String, Doc>, name: &Text) -> bool
    ensures { result ≡ is_some (modules_in modules.now.entries name.now) }
{
    modules.get(name.as_str()).is_some()
}

fn names_of(alloc: Global, listed: &[ListedModule]) -> Result<Vec<Text>, Memory>
    ensures { IfOk result (λ names. names.items ≡ names_in listed.now) }
{
    let mut names = Vec::new(alloc);
    for module in listed {
        let name = module.name.copy(alloc)?;
        names.push(name)?;
    }
    Ok(names)
}

// The stylesheet of these elements, or the first of the faults between them.
fn checked(alloc: Global, names: &[Text], ranked: Vec<Ranked>) -> Result<Sheet, SheetFault>
    ensures { IsChecked (spec.checked names.now (map ranked_in ranked.items)) result }
{
    let violations = violations_of(alloc, ranked.as_slice())?;
    match first_violation(alloc, names, violations.as_slice())? {
        Some(refusal) => Err(SheetFault::Refused(refusal)),
        None => Ok(sheet_of(alloc, ranked)?),
    }
}
