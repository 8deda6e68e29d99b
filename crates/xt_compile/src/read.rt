// The first pass: what each module says, up to the first with a fault.
ghost use Rattle.std.specs.Prelude.{◌≡◌, ℕ, List, Some, IfOk, IsSome};
ghost use Rattle.spec_compile.specs.Reading.{Reads};
ghost use Rattle.spec_compile.specs.Sheet as spec;
ghost use Rattle.spec_compile.specs.Unit.{module_of};
ghost use Rattle.spec_document.specs.Forest.{plain};
ghost use Rattle.spec_structure.specs.Modules.{Modules};
ghost use Rattle.xt_compile.specs.View.{AreJudged, AreReadAs, IsReadAs, says_in};
ghost use Rattle.xt_import.specs.Tree.{IsJudged, names_in};
ghost use Rattle.xt_import.specs.View.{modules_in};
ghost use Rattle.xt_structure.specs.View.{faults_in};

use crate::fault::{SheetFault, earlier_of, earlier_or, refusal_at};
use indexmap::IndexMap;
use std::alloc::Global;
use xt_content::ContentFault;
use xt_import::ListedModule;
use xt_structure::{Fault, check};
use xt_text::{Memory, Text};
use xt_top_level::{TopLevel, module_of};
use xt_tree::Doc;

/// What a module says, which was read without a fault.
#[derive(Drop)]
pub(crate) struct Said {
    pub module_name: Text,
    pub top_levels: Vec<TopLevel>,
}

/// What the modules say, one after another, up to the first with a fault.
pub(crate) fn read_all(
    alloc: Global,
    modules: &IndexMap<String, Doc>,
    listed: Vec<ListedModule>,
) -> Result<Vec<Said>, SheetFault>
    requires { AreJudged (modules_in modules.now.entries) listed.items }
    ensures { AreReadAs (modules_in modules.now.entries) (names_in listed.items) result }
{
    let mut said = Vec::new(alloc);
    for listed in listed {
        said.push(read(alloc, modules, listed)?)?;
    }
    Ok(said)
}

// What a module says, or the first of its faults: of structure, of the modules that it names, and of its texts.
fn read(
    alloc: Global,
    modules: &IndexMap<String, Doc>,
    listed: ListedModule,
) -> Result<Said, SheetFault>
    requires there { IsSome (modules_in modules.now.entries listed.name) }
    requires judged { IsJudged (modules_in modules.now.entries) listed }
    ensures { IsReadAs (modules_in modules.now.entries) listed.name result }
{
    match modules.get(listed.name.as_str()) {
        None => unreachable!(),
        Some(document) => read_document(alloc, document, listed),
    }
}

fn read_document(alloc: Global, document: &Doc, listed: ListedModule) -> Result<Said, SheetFault>
    ensures { (modules : Modules) → modules listed.name ≡ Some (plain document.now.nodes) → IsJudged modules listed → IsReadAs modules listed.name result }
{
    let module = check(alloc, document)?;
    let says = says(alloc, &listed.name, document)?;
    match answer(module.fault, listed.link_fault, says) {
        Ok(top_levels) => Ok(Said {
            module_name: listed.name,
            top_levels,
        }),
        Err(fault) => Err(SheetFault::Refused(refusal_at(listed.name, fault))),
    }
}

// What the texts of a module say, or their first fault.
pub(crate) fn says(
    alloc: Global,
    name: &Text,
    document: &Doc,
) -> Result<Result<Vec<TopLevel>, Fault>, Memory>
    ensures { IfOk result (λ says. Reads (module_of name.now 1 (plain document.now.nodes)) (says_in says)) }
{
    match module_of(alloc, name, document) {
        Ok(top_levels) => Ok(Ok(top_levels)),
        Err(ContentFault::Refused(fault)) => Ok(Err(fault)),
        Err(ContentFault::Memory) => Err(Memory),
    }
}

// The first of the faults, or what is said.
fn answer(
    structure: Option<Fault>,
    link: Option<Fault>,
    says: Result<Vec<TopLevel>, Fault>,
) -> Result<Vec<TopLevel>, Fault>
    ensures { says_in result ≡ spec.answer_by (spec.earlier_of (faults_in structure) (spec.earlier_of (faults_in link) (spec.fault_in (says_in says)))) (says_in says) }
{
    match says {
        Ok(top_levels) => match earlier_of(structure, earlier_of(link, None)) {
            None => Ok(top_levels),
            Some(fault) => Err(fault),
        },
        Err(fault) => Err(earlier_or(structure, earlier_or(link, fault))),
    }
}
