// Numbers of modules, which show of most links that they do not lead back.
ghost use Rattle.std.specs.Prelude.{◌≡◌, true, IfOk};
ghost use Rattle.std.specs.Str.{chars};
ghost use Rattle.xt_import.specs.Table.{none_rise, none_rises, number_in};

use crate::steps::{Step, left_in_order, steps_of, turned, walk};
use crate::table::{LinkTable, number_of};
use std::alloc::Global;
use xt_structure::Link;
use xt_text::Memory;

/// Numbers of these modules, each in its place, where no link leads to a greater one: a link to a lesser one does not
/// lead back then. Modules that lead to one another have the same number. How the numbers were found does not matter:
/// they are looked through in the end, and where they were wrong, there are none.
pub(crate) fn numbers_of(alloc: Global, table: &LinkTable) -> Result<Vec<usize>, Memory>
    ensures { IfOk result (λ numbers. none_rise (number_in table.now.entries numbers.items) table.now.entries ≡ true) }
{
    let numbers = group_numbers(alloc, table)?;
    if none_rise(table, numbers.as_slice()) {
        return Ok(numbers);
    }
    Ok(Vec::new(alloc))
}

// Whether no link leads from its module to one of a greater number.
fn none_rise(table: &LinkTable, numbers: &[usize]) -> bool
    ensures { result ≡ none_rise (number_in table.now.entries numbers.now) table.now.entries }
{
    for (name, links) in table {
        let own = number_of(table, numbers, name.as_str());
        if !none_rises(table, numbers, own, links.as_slice()) {
            return false;
        }
    }
    true
}

fn none_rises(table: &LinkTable, numbers: &[usize], own: usize, links: &[Link]) -> bool
    ensures { result ≡ none_rises (number_in table.now.entries numbers.now) own links.now }
{
    for link in links {
        if number_of(table, numbers, link.href.as_str()) > own {
            return false;
        }
    }
    true
}

// A number for each module, in the order of the table. A walk against the links, which begins anew at the module that a
// walk along the links left last, finds those that lead to one another before it has to begin anew.
fn group_numbers(alloc: Global, table: &LinkTable) -> Result<Vec<usize>, Memory> {
    let mut numbers = vec![in alloc; 0; table.len()]?;
    let steps = steps_of(alloc, table, numbers.as_slice())?;
    let back = turned(alloc, steps.as_slice())?;
    let left = left_in_order(alloc, steps)?;
    let walked = walk(alloc, back, left.as_slice())?;
    number_each(&mut numbers, walked.as_slice());
    Ok(numbers)
}

fn number_each(numbers: &mut Vec<usize>, walked: &[Step]) {
    let mut number = numbers.len();
    for step in walked {
        if step.link.is_none() {
            number = number.saturating_sub(1);
        }
        if step.to < numbers.len() {
            numbers[step.to] = number;
        }
    }
}
