// What is said of a module.
use crate::modules::module_of;
use cases::{Fault, Word, push_number, push_part, push_quoted};
use std::alloc::Global;
use xt_structure::{Fault as SheetFault, Link, Module, check};
use xt_text::{Memory, Path, Text};

/// Answers the call.
pub fn push_answer(alloc: Global, out: &mut Text, call: &str, words: &[Word]) -> Result<(), Fault> {
    let document = module_of(alloc, call, words)?;
    let module = check(alloc, &document)?;
    push_module(out, &module)?;
    Ok(())
}

fn push_module(out: &mut Text, module: &Module) -> Result<(), Memory> {
    match &module.fault {
        None => push_part(out, "well")?,
        Some(fault) => push_fault(out, fault)?,
    }
    for link in &module.links {
        push_link(out, link)?;
    }
    Ok(())
}

fn push_fault(out: &mut Text, fault: &SheetFault) -> Result<(), Memory> {
    push_part(out, "S")?;
    let number = fault.code.number();
    if number < 10 {
        out.push('0')?;
    }
    push_number(out, u64::from(number))?;
    push_path(out, &fault.path)
}

fn push_link(out: &mut Text, link: &Link) -> Result<(), Memory> {
    push_part(out, if link.is_import { "import" } else { "include" })?;
    push_path(out, &link.path)?;
    out.push(' ')?;
    push_quoted(out, link.href.as_str())
}

fn push_path(out: &mut Text, path: &Path) -> Result<(), Memory> {
    out.push(' ')?;
    for position in path.positions() {
        out.push('/')?;
        push_number(out, *position)?;
    }
    Ok(())
}
