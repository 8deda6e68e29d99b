// The stylesheet that modules are.
ghost use Rattle.std.specs.Prelude.{◌≡◌, ◌++◌, IfOk, OnOk, Ok, Some, map};
ghost use Rattle.std.specs.Bool.{Decides};
ghost use Rattle.std.specs.Option.{option_copied};
ghost use Rattle.spec_run.specs.Documents.{main_name};
ghost use Rattle.spec_structure.specs.Modules.{Modules};
ghost use Rattle.spec_compile.specs.Sheet.{IsSheet};
ghost use Rattle.spec_cost.specs.Naming.{number_at, number_in};
ghost use Rattle.xt_syntax.specs.PartView.{place_of};
ghost use Rattle.xt_syntax.specs.SheetView.{sheet_of, unit_of};
ghost use Rattle.xt_compile.specs.View.{IsCompiled};
ghost use Rattle.xt_import.specs.View.{modules_in};
ghost use Rattle.xt_held.specs.Called.{AreCalled, alone, numbered_modules, numbers_among};
ghost use Rattle.xt_held.specs.RunView.{last_known};
ghost use Rattle.xt_held.specs.StylesheetView.{AreCompiled, Holds, IsCompiledFrom, IsStylesheet, IsThere, RunsBy};

use indexmap::IndexMap;
use spec_compile::one_sheet;
use std::alloc::Global;
use xt_base::Place;
use xt_compile::{SheetFault, StaticRefusal, sheet};
use xt_lift::with_items;
use xt_names::copy_name;
use xt_syntax::{Method, Sheet, SpaceRules, Unit};
use xt_text::{Memory, Path, Text};
use xt_tree::Doc;
use xt_world::Stylesheet;

// The name of the principal module.
const MAIN: &str = "main";

/// What modules are.
#[derive(Drop)]
pub(crate) enum Compiled {
    /// A stylesheet, with its rules on the white space of the source and its output method.
    Stylesheet(Stylesheet, SpaceRules, Option<Method>),
    /// None: this is their first static refusal.
    Refused(StaticRefusal),
}

/// Whether it is a stylesheet.
pub(crate) fn is_stylesheet(compiled: &Option<Compiled>) -> bool
    ensures { Decides result (IsStylesheet compiled.now) }
{
    match compiled {
        None => false,
        Some(Compiled::Refused(_)) => false,
        Some(Compiled::Stylesheet(_, _, _)) => true,
    }
}

/// What modules are where they are a stylesheet, and else what they were when they were one.
pub(crate) fn last_known<'a>(
    compiled: &'a Option<Compiled>,
    before: &'a Option<Compiled>,
) -> Option<&'a Compiled>
    ensures { option_copied result ≡ last_known compiled.now before.now }
{
    match compiled {
        None => before.as_ref(),
        Some(Compiled::Refused(_)) => before.as_ref(),
        Some(Compiled::Stylesheet(_, _, _)) => compiled.as_ref(),
    }
}

/// What the modules are, where there is a module `main`.
pub(crate) fn compile(
    alloc: Global,
    modules: &IndexMap<String, Doc>,
) -> Result<Option<Compiled>, Memory>
    ensures compiled { IfOk result (λ compiled. AreCompiled (modules_in modules.now.entries) compiled) }
    ensures called { IfOk result (λ compiled. AreCalled (modules_in modules.now.entries) (numbered_modules modules.now.entries) compiled) }
{
    match modules.get(MAIN) {
        None => Ok(None),
        Some(_) => Ok(Some(compiled_main(alloc, modules)?)),
    }
}

// What the modules are, of which one is `main`.
fn compiled_main(alloc: Global, modules: &IndexMap<String, Doc>) -> Result<Compiled, Memory>
    requires { IsThere (modules_in modules.now.entries) main_name }
    ensures compiled { IfOk result (λ compiled. IsCompiledFrom (modules_in modules.now.entries) compiled) }
    ensures called { IfOk result (λ compiled. AreCalled (modules_in modules.now.entries) (numbered_modules modules.now.entries) (Some compiled)) }
{
    match sheet_of_main(alloc, modules) {
        Ok(sheet) => numbered(alloc, modules, sheet),
        Err(SheetFault::Refused(refusal)) => Ok(Compiled::Refused(refusal)),
        Err(SheetFault::NoMain) => unreachable!(),
        Err(SheetFault::Memory) => Err(Memory),
    }
}

// The stylesheet of the modules, of which `main` is the principal one.
fn sheet_of_main(alloc: Global, modules: &IndexMap<String, Doc>) -> Result<Sheet, SheetFault>
    ensures { IsCompiled (modules_in modules.now.entries) main_name result }
{
    let main = Text::from_str(alloc, MAIN)?;
    sheet(alloc, modules, &main)
}

// The stylesheet of these modules made ready to be run: the content of each xsl:for-each stands in a template of its own, at
// its element, and units are called by the numbers of their elements.
fn numbered(
    alloc: Global,
    modules: &IndexMap<String, Doc>,
    sheet: Sheet,
) -> Result<Compiled, Memory>
    ensures holds { IfOk result (λ compiled. Holds compiled (Ok (sheet_of sheet))) }
    ensures called { (all : Modules) → IsSheet all main_name (Ok (sheet_of sheet)) → IfOk result (λ compiled. AreCalled all (numbered_modules modules.now.entries) (Some compiled)) }
{
    one_sheet();
    let lifted = with_items(alloc, sheet)?;
    let Ok(numbers) = numbers_of(alloc, modules, lifted.units.as_slice()) else {
        drop(lifted);
        return Err(Memory);
    };
    runnable(alloc, lifted, numbers)
}

// The stylesheet made ready to be run. The run asks neither for its rules of white space nor for its method.
fn runnable(alloc: Global, sheet: Sheet, numbers: Vec<u64>) -> Result<Compiled, Memory>
    ensures { IfOk result (λ compiled. RunsBy numbers.items compiled (sheet_of sheet)) }
{
    let Sheet {
        units,
        rules,
        space_rules,
        method,
        aliases,
    } = sheet;
    let asked = Sheet {
        units,
        rules,
        space_rules: SpaceRules {
            rules: Vec::new(alloc),
        },
        method: None,
        aliases,
    };
    let Ok(stylesheet) = Stylesheet::new(alloc, asked, numbers) else {
        drop(space_rules);
        drop(method);
        return Err(Memory);
    };
    Ok(Compiled::Stylesheet(stylesheet, space_rules, method))
}

// The numbers that the modules give to the elements of these units. They stay where a module is edited elsewhere. The
// stylesheet looks them through and takes others where they do not tell its units apart.
fn numbers_of(
    alloc: Global,
    modules: &IndexMap<String, Doc>,
    units: &[Unit],
) -> Result<Vec<u64>, Memory>
    ensures { IfOk result (λ numbers. numbers.items ≡ numbers_among (numbered_modules modules.now.entries) (map unit_of units.now)) }
{
    let mut numbers = Vec::new(alloc);
    for unit in units {
        push_number(&mut numbers, number_at(modules, &unit.site.place))?;
    }
    Ok(numbers)
}

// One number more, where there is one.
fn push_number(numbers: &mut Vec<u64>, number: Option<u64>) -> Result<(), Memory>
    ensures { OnOk result (numbers.new.items ≡ numbers.old.items ++ alone number) }
{
    match number {
        None => {}
        Some(number) => numbers.push(number)?,
    }
    Ok(())
}

// The number of the element at this place.
fn number_at(modules: &IndexMap<String, Doc>, place: &Place) -> Option<u64>
    ensures { result ≡ number_at (numbered_modules modules.now.entries) (place_of place.now) }
{
    match &place.module {
        None => None,
        Some(name) => number_in(modules.get(name.as_str())?, &place.path),
    }
}

fn number_in(document: &Doc, path: &Path) -> Option<u64>
    ensures { result ≡ number_in (Some document.now) path.now }
{
    let element = document.at(path)?;
    Some(element.node.number)
}

/// The same output method, in memory of its own.
pub(crate) fn copy_method(alloc: Global, method: &Option<Method>) -> Result<Option<Method>, Memory>
    ensures { IfOk result (λ copy. copy ≡ method.now) }
{
    match method {
        None => Ok(None),
        Some(Method::Xml) => Ok(Some(Method::Xml)),
        Some(Method::Html) => Ok(Some(Method::Html)),
        Some(Method::Text) => Ok(Some(Method::Text)),
        Some(Method::Other(name)) => Ok(Some(Method::Other(copy_name(alloc, name)?))),
    }
}
