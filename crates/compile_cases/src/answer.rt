// What is asked of modules.
use crate::parts::{Places, push_place};
use crate::rules::{push_rest, push_rules};
use crate::units::{push_contents, push_units};
use case_trees::push_code;
use cases::{Fault, push_part};
use indexmap::IndexMap;
use std::alloc::Global;
use xt_compile::{SheetFault, StaticRefusal, sheet};
use xt_syntax::Sheet;
use xt_text::{Memory, Text};
use xt_tree::Doc;

/// Answers the call: the static refusal of the modules, or what it asks of their stylesheet.
pub fn push_answer(
    alloc: Global,
    out: &mut Text,
    call: &str,
    modules: &IndexMap<String, Doc>,
) -> Result<(), Fault> {
    let main = Text::from_str(alloc, "main")?;
    let answer = sheet(alloc, modules, &main);
    push_told(out, call, &answer)
}

fn push_told(out: &mut Text, call: &str, answer: &Result<Sheet, SheetFault>) -> Result<(), Fault> {
    match answer {
        Ok(sheet) => push_asked(out, call, sheet),
        Err(SheetFault::Memory) => Err(Fault::Memory),
        Err(SheetFault::NoMain) => Ok(out.push_str("S01")?),
        Err(SheetFault::Refused(refusal)) => Ok(push_refusal(out, refusal)?),
    }
}

fn push_refusal(out: &mut Text, refusal: &StaticRefusal) -> Result<(), Memory> {
    push_code(out, refusal.code)?;
    out.push(' ')?;
    push_place(out, &refusal.place)
}

fn push_asked(out: &mut Text, call: &str, sheet: &Sheet) -> Result<(), Fault> {
    let units = sheet.units.as_slice();
    match call {
        "check" => push_part(out, "well")?,
        "units" => push_units(out, Places::Hidden, units)?,
        "places" => push_units(out, Places::Shown, units)?,
        "content" => push_contents(out, units)?,
        "rules" => push_rules(out, sheet.rules.rules.as_slice())?,
        "rest" => push_rest(out, sheet)?,
        _ => return Err(Fault::NoCase),
    }
    Ok(())
}
