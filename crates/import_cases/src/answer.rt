// The modules that the principal one leads to.
use cases::{push_number, push_part};
use indexmap::IndexMap;
use std::alloc::Global;
use xt_import::{ListedModule, tree};
use xt_structure::Fault;
use xt_text::{Memory, Text};
use xt_tree::Doc;

/// Adds them with the faults of their links.
pub fn push_answer(
    alloc: Global,
    out: &mut Text,
    modules: &IndexMap<String, Doc>,
) -> Result<(), Memory> {
    let tree = tree(alloc, modules, "main")?;
    for module in &tree.modules {
        push_module(out, module)?;
    }
    Ok(())
}

fn push_module(out: &mut Text, module: &ListedModule) -> Result<(), Memory> {
    push_part(out, module.name.as_str())?;
    match &module.link_fault {
        None => Ok(()),
        Some(fault) => push_fault(out, fault),
    }
}

fn push_fault(out: &mut Text, fault: &Fault) -> Result<(), Memory> {
    push_part(out, "S0")?;
    push_number(out, u64::from(fault.code.number()))?;
    for position in fault.path.positions() {
        out.push('/')?;
        push_number(out, *position)?;
    }
    Ok(())
}
