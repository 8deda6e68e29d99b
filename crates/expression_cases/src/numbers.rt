// Numbers, which are written as whole numbers of 64 bits or `NaN`: `add`, `sub`, `mul`, `div`, `rem`,
// `compare` of two, `neg`, `number` and `text` of one; `read TEXT`, the number of a string, is `value`.

use cases::{Fault, Word, push_part, push_quoted, text_at};
use std::alloc::Global;
use std::cmp::Ordering;
use xt_base::{Num, NumFault};
use xt_text::{Memory, Text};

/// Answers the call, if it is one of these.
pub fn answer(alloc: Global, out: &mut Text, call: &str, words: &[Word]) -> Result<bool, Fault> {
    match call {
        "value" => answer_given(alloc, out, Num::read(text_at(words, 0)?)),
        "number" => answer_given(alloc, out, given(text_at(words, 0)?)?),
        "neg" => {
            let number = num_at(words, 0)?;
            answer_given(alloc, out, Ok(number.neg()))
        }
        "text" => answer_text(alloc, out, num_at(words, 0)?),
        _ => answer_two(alloc, out, call, words),
    }
}

/// Adds a number, or the fault; the call is answered then.
pub fn answer_given(
    alloc: Global,
    out: &mut Text,
    number: Result<Num, NumFault>,
) -> Result<bool, Fault> {
    push_given(alloc, out, number)?;
    Ok(true)
}

fn answer_text(alloc: Global, out: &mut Text, number: Num) -> Result<bool, Fault> {
    let text = number.text(alloc)?;
    push_quoted(out, text.as_str())?;
    Ok(true)
}

fn answer_two(alloc: Global, out: &mut Text, call: &str, words: &[Word]) -> Result<bool, Fault> {
    match operation_of(call) {
        None => Ok(false),
        Some(operation) => {
            let first = num_at(words, 0)?;
            let second = num_at(words, 1)?;
            push_result(alloc, out, operation, first, second)?;
            Ok(true)
        }
    }
}

#[derive(Clone, Copy)]
enum Operation {
    Add,
    Subtract,
    Multiply,
    Divide,
    Remainder,
    Compare,
}

fn operation_of(call: &str) -> Option<Operation> {
    match call {
        "add" => Some(Operation::Add),
        "sub" => Some(Operation::Subtract),
        "mul" => Some(Operation::Multiply),
        "div" => Some(Operation::Divide),
        "rem" => Some(Operation::Remainder),
        "compare" => Some(Operation::Compare),
        _ => None,
    }
}

fn push_result(
    alloc: Global,
    out: &mut Text,
    operation: Operation,
    first: Num,
    second: Num,
) -> Result<(), Memory> {
    match operation {
        Operation::Add => push_given(alloc, out, first.add(second)),
        Operation::Subtract => push_given(alloc, out, first.sub(second)),
        Operation::Multiply => push_given(alloc, out, first.mul(second)),
        Operation::Divide => push_given(alloc, out, first.div(second)),
        Operation::Remainder => push_num(alloc, out, first.rem(second)),
        Operation::Compare => push_part(out, order(first.compare(second))),
    }
}

fn order(order: Option<Ordering>) -> &'static str {
    match order {
        None => "none",
        Some(Ordering::Less) => "less",
        Some(Ordering::Equal) => "equal",
        Some(Ordering::Greater) => "greater",
    }
}

/// The number that this word is, from 0, if it is in range.
pub fn num_at(words: &[Word], index: usize) -> Result<Num, Fault> {
    given(text_at(words, index)?)?.map_err(|_| Fault::NoCase)
}

fn given(text: &str) -> Result<Result<Num, NumFault>, Fault> {
    if text == "NaN" {
        return Ok(Ok(Num::nan()));
    }
    let value = text.parse::<i64>().map_err(|_| Fault::NoCase)?;
    Ok(Num::whole(value))
}

// Adds a number, or the fault.
fn push_given(alloc: Global, out: &mut Text, number: Result<Num, NumFault>) -> Result<(), Memory> {
    match number {
        Ok(number) => push_num(alloc, out, number),
        Err(NumFault::Fraction) => push_part(out, "fraction"),
        Err(NumFault::Infinite) => push_part(out, "infinite"),
        Err(NumFault::Wide) => push_part(out, "wide"),
    }
}

fn push_num(alloc: Global, out: &mut Text, number: Num) -> Result<(), Memory> {
    match number.get() {
        None => push_part(out, "NaN"),
        Some(value) => push_part(out, itoa::Buffer::new().format(value)),
    }
}
