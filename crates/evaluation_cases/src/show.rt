// Values and refusals in a form that reads well.

use cases::{Fault, push_number, push_quoted, push_reference};
use std::alloc::Global;
use xt_base::Code;
use xt_questions::{EvalFault, Refusal};
use xt_text::{Memory, Text};
use xt_tree::{NodeRef, Value};

/// Adds what an expression evaluates to.
pub fn push_answer(
    alloc: Global,
    out: &mut Text,
    answer: &Result<Value, EvalFault>,
) -> Result<(), Fault> {
    match answer {
        Ok(value) => Ok(push_value(alloc, out, value)?),
        Err(EvalFault::Memory) => Err(Fault::Memory),
        Err(EvalFault::Refused(Refusal::Here(code))) => {
            push_code(alloc, out, Code::Dynamic(*code))
        }
        Err(EvalFault::Refused(Refusal::At(..))) => Err(Fault::NoCase),
        Err(EvalFault::Wants(name)) => {
            out.push_str("wants ")?;
            out.push_str(name.local().as_str())?;
            Ok(())
        }
    }
}

/// Adds a code as replies have it.
pub fn push_code(alloc: Global, out: &mut Text, code: Code) -> Result<(), Fault> {
    let text = code.to_string(alloc)?;
    out.push_str(text.as_str())?;
    Ok(())
}

fn push_value(alloc: Global, out: &mut Text, value: &Value) -> Result<(), Memory> {
    match value {
        Value::Number(number) => {
            let text = number.text(alloc)?;
            out.push_str("number ")?;
            out.push_str(text.as_str())
        }
        Value::Text(text) => {
            out.push_str("text ")?;
            push_quoted(out, text.as_str())
        }
        Value::Boolean(holds) => out.push_str(if *holds {
            "boolean true"
        } else {
            "boolean false"
        }),
        Value::Nodes(nodes) => push_nodes(out, nodes.as_slice()),
        Value::Fragment(_) => out.push_str("fragment"),
    }
}

fn push_nodes(out: &mut Text, nodes: &[NodeRef]) -> Result<(), Memory> {
    out.push_str("nodes")?;
    for node in nodes {
        out.push(' ')?;
        push_reference(out, node)?;
    }
    Ok(())
}

/// Adds how many reads there are, how many were asked again, and which is the first that has changed.
pub fn push_held(
    out: &mut Text,
    reads: usize,
    asked: u64,
    change: Option<usize>,
) -> Result<(), Memory> {
    out.push_str(": reads ")?;
    push_number(out, reads as u64)?;
    out.push_str(", asked ")?;
    push_number(out, asked)?;
    match change {
        None => out.push_str(", all hold"),
        Some(index) => {
            out.push_str(", changed is ")?;
            push_number(out, index as u64)
        }
    }
}
