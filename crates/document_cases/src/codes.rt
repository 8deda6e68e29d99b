// The numbers of refusals, by what they are: `edit CODE..`, `static CODE..`, `dynamic CODE..`; `steps COUNT N
// COUNT N ..`, counts of what a change cost; `place MODULE STEP..`; `says ERROR`, the text of an error.

use crate::parts::{path, push_path};
use cases::{
    Fault, Word, behind, number_at, part, push_number, push_part, push_quoted, text_at, text_of,
};
use std::alloc::Global;
use xt_base::{DynCode, EditCode, NumFault, Place, StaticCode, Steps};
use xt_io::LineFault;
use xt_pyx::BadLine;
use xt_text::{Memory, Path, Text};

/// Answers the call, if it is one of these.
pub fn answer(alloc: Global, out: &mut Text, call: &str, words: &[Word]) -> Result<bool, Fault> {
    match call {
        "edit" | "static" | "dynamic" => push_numbers(out, call, words)?,
        "steps" => push_steps(out, words)?,
        "says" => push_said(alloc, out, text_at(words, 0)?)?,
        "place" => push_place(out, &place(alloc, words)?)?,
        _ => return Ok(false),
    }
    Ok(true)
}

fn push_numbers(out: &mut Text, kind: &str, names: &[Word]) -> Result<(), Fault> {
    for name in names {
        let number = number(kind, text_of(name)?)?;
        part(out)?;
        push_number(out, u64::from(number))?;
    }
    Ok(())
}

fn number(kind: &str, name: &str) -> Result<u8, Fault> {
    match kind {
        "edit" => Ok(edit_code(name).ok_or(Fault::NoCase)?.number()),
        "static" => Ok(static_code(name).ok_or(Fault::NoCase)?.number()),
        _ => Ok(dynamic_code(name).ok_or(Fault::NoCase)?.number()),
    }
}

fn edit_code(name: &str) -> Option<EditCode> {
    match name {
        "Memory" => Some(EditCode::Memory),
        "NotUtf8" => Some(EditCode::NotUtf8),
        "UnknownCommand" => Some(EditCode::UnknownCommand),
        "BadArguments" => Some(EditCode::BadArguments),
        "NoDocument" => Some(EditCode::NoDocument),
        "NoPlace" => Some(EditCode::NoPlace),
        "WrongKind" => Some(EditCode::WrongKind),
        "BadLine" => Some(EditCode::BadLine),
        "Unbalanced" => Some(EditCode::Unbalanced),
        _ => edit_code_more(name),
    }
}

fn edit_code_more(name: &str) -> Option<EditCode> {
    match name {
        "BadName" => Some(EditCode::BadName),
        "TooDeep" => Some(EditCode::TooDeep),
        "TooManyNodes" => Some(EditCode::TooManyNodes),
        "DoubleAttribute" => Some(EditCode::DoubleAttribute),
        "MoveBelowItself" => Some(EditCode::MoveBelowItself),
        "BatchOpen" => Some(EditCode::BatchOpen),
        "NoBatch" => Some(EditCode::NoBatch),
        "SharedInBatch" => Some(EditCode::SharedInBatch),
        "NothingToUndo" => Some(EditCode::NothingToUndo),
        "NothingToRedo" => Some(EditCode::NothingToRedo),
        _ => None,
    }
}

fn static_code(name: &str) -> Option<StaticCode> {
    match name {
        "NoMain" => Some(StaticCode::NoMain),
        "NoSource" => Some(StaticCode::NoSource),
        "NoSuchModule" => Some(StaticCode::NoSuchModule),
        "ImportCycle" => Some(StaticCode::ImportCycle),
        "NoStylesheet" => Some(StaticCode::NoStylesheet),
        "BadVersion" => Some(StaticCode::BadVersion),
        "MisplacedElement" => Some(StaticCode::MisplacedElement),
        "BadAttribute" => Some(StaticCode::BadAttribute),
        "MisplacedContent" => Some(StaticCode::MisplacedContent),
        "BadExpression" => Some(StaticCode::BadExpression),
        "BadPattern" => Some(StaticCode::BadPattern),
        "TooManyBrackets" => Some(StaticCode::TooManyBrackets),
        "BadNumber" => Some(StaticCode::BadNumber),
        _ => static_code_more(name),
    }
}

fn static_code_more(name: &str) -> Option<StaticCode> {
    match name {
        "NoPrefix" => Some(StaticCode::NoPrefix),
        "BadName" => Some(StaticCode::BadName),
        "BadFunction" => Some(StaticCode::BadFunction),
        "NoVariable" => Some(StaticCode::NoVariable),
        "ShadowedVariable" => Some(StaticCode::ShadowedVariable),
        "DoubleGlobal" => Some(StaticCode::DoubleGlobal),
        "DoubleTemplate" => Some(StaticCode::DoubleTemplate),
        "NoTemplate" => Some(StaticCode::NoTemplate),
        "BadAttributeSet" => Some(StaticCode::BadAttributeSet),
        "SelectAndContent" => Some(StaticCode::SelectAndContent),
        "BarredReference" => Some(StaticCode::BarredReference),
        "Extension" => Some(StaticCode::Extension),
        "BadValueTemplate" => Some(StaticCode::BadValueTemplate),
        _ => None,
    }
}

fn dynamic_code(name: &str) -> Option<DynCode> {
    match name {
        "Fraction" => Some(DynCode::Fraction),
        "Infinite" => Some(DynCode::Infinite),
        "Wide" => Some(DynCode::Wide),
        "NoNodeSet" => Some(DynCode::NoNodeSet),
        "GlobalCycle" => Some(DynCode::GlobalCycle),
        "NoCurrentRule" => Some(DynCode::NoCurrentRule),
        "BadName" => Some(DynCode::BadName),
        "BadSort" => Some(DynCode::BadSort),
        "Terminated" => Some(DynCode::Terminated),
        "TooDeep" => Some(DynCode::TooDeep),
        _ => None,
    }
}

fn push_steps(out: &mut Text, words: &[Word]) -> Result<(), Fault> {
    let mut steps = Steps::default();
    for (index, word) in words.iter().enumerate() {
        add_steps(&mut steps, text_of(word)?, behind(words, index))?;
    }
    push_part(out, "ran ")?;
    push_number(out, steps.ran)?;
    push_part(out, "asked ")?;
    push_number(out, steps.asked)?;
    Ok(())
}

// Adds the number behind the first word, where that names a count.
fn add_steps(steps: &mut Steps, kind: &str, words: &[Word]) -> Result<(), Fault> {
    if !matches!(kind, "ran" | "asked") {
        return Ok(());
    }
    let count = number_at(words, 1)?;
    if kind == "ran" {
        steps.add_ran(count);
    } else {
        steps.add_asked(count);
    }
    Ok(())
}

fn place(alloc: Global, words: &[Word]) -> Result<Place, Fault> {
    match words.split_first() {
        None => Ok(Place {
            module: None,
            path: Path::new(alloc),
        }),
        Some((module, steps)) => {
            let path = path(alloc, steps)?;
            let module = Text::from_str(alloc, text_of(module)?)?;
            Ok(Place {
                module: Some(module),
                path,
            })
        }
    }
}

fn push_place(out: &mut Text, place: &Place) -> Result<(), Memory> {
    match &place.module {
        None => out.push('-'),
        Some(module) => {
            out.push_str(module.as_str())?;
            push_path(out, &place.path)
        }
    }
}

fn push_said(alloc: Global, out: &mut Text, error: &str) -> Result<(), Fault> {
    let said = said(alloc, error)?;
    push_quoted(out, said.as_str())?;
    Ok(())
}

// The text of an error.
fn said(alloc: Global, error: &str) -> Result<String, Fault> {
    match error {
        "memory" => Ok(Memory.to_string(alloc)?),
        "fraction" => Ok(NumFault::Fraction.to_string(alloc)?),
        "infinite" => Ok(NumFault::Infinite.to_string(alloc)?),
        "wide" => Ok(NumFault::Wide.to_string(alloc)?),
        "bad-line" => Ok(BadLine::Bad.to_string(alloc)?),
        "failed" => Ok(LineFault::Failed.to_string(alloc)?),
        "over" => Ok(LineFault::Over.to_string(alloc)?),
        _ => Err(Fault::NoCase),
    }
}
