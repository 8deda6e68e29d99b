// Walks over the links between the modules of a table, by their places there.
ghost use Rattle.std.specs.Prelude.{◌≡◌, ◌+◌, ◌≤◌, OnOk, length};
ghost use Rattle.std.specs.List.{sum_by};
ghost use Rattle.xt_import.specs.Walk.{links_left};

use crate::table::{LinkTable, number_at};
use std::alloc::Global;
use xt_structure::Link;
use xt_text::Memory;

/// Where a link stands.
#[derive(Clone, Copy)]
pub(crate) struct Stand {
    /// The place of its module.
    pub module: usize,
    /// How many links stand before it there.
    pub number: usize,
}

/// A step of a walk.
#[derive(Clone, Copy)]
pub(crate) struct Step {
    /// The place of the module to which the walk comes.
    pub to: usize,
    /// The link that it follows. None where a walk begins.
    pub link: Option<Stand>,
}

/// The steps from each module, in its place. None where they were taken.
pub(crate) type Steps = Vec<Option<Vec<Step>>>;

/// The steps along all links that lead from a module to one of the same number.
pub(crate) fn steps_of(
    alloc: Global,
    table: &LinkTable,
    numbers: &[usize],
) -> Result<Steps, Memory> {
    let mut all = Vec::new(alloc);
    for links in table.values() {
        let module = all.len();
        all.push(Some(steps_from(alloc, table, numbers, module, links.as_slice())?))?;
    }
    Ok(all)
}

fn steps_from(
    alloc: Global,
    table: &LinkTable,
    numbers: &[usize],
    module: usize,
    links: &[Link],
) -> Result<Vec<Step>, Memory> {
    let mut steps = Vec::new(alloc);
    let own = number_at(numbers, module);
    for (number, link) in links.iter().enumerate() {
        match table.get_index_of(link.href.as_str()) {
            None => {}
            Some(to) => {
                if number_at(numbers, to) == own {
                    let link = Some(Stand { module, number });
                    steps.push(Step { to, link })?;
                }
            }
        }
    }
    Ok(steps)
}

/// The same steps against the links.
pub(crate) fn turned(alloc: Global, steps: &[Option<Vec<Step>>]) -> Result<Steps, Memory> {
    let mut turned = none_from_each(alloc, steps.len())?;
    for from_one in steps {
        match from_one {
            None => {}
            Some(from_one) => turn_each(&mut turned, from_one.as_slice())?,
        }
    }
    Ok(turned)
}

fn none_from_each(alloc: Global, count: usize) -> Result<Steps, Memory> {
    let mut all = Vec::new(alloc);
    for _ in 0..count {
        all.push(Some(Vec::new(alloc)))?;
    }
    Ok(all)
}

fn turn_each(turned: &mut Steps, steps: &[Step]) -> Result<(), Memory> {
    for step in steps {
        match step.link {
            None => {}
            Some(stand) => {
                let to = stand.module;
                push_at(
                    turned,
                    step.to,
                    Step {
                        to,
                        link: step.link,
                    },
                )?;
            }
        }
    }
    Ok(())
}

fn push_at(all: &mut Steps, place: usize, step: Step) -> Result<(), Memory> {
    match take_steps(all, place) {
        None => Ok(()),
        Some(steps) => {
            let mut steps = steps;
            steps.push(step)?;
            if place < all.len() {
                all[place] = Some(steps);
            }
            Ok(())
        }
    }
}

// What a walk has still to do.
#[derive(Clone, Copy)]
enum Turn {
    // Go to the module at this place.
    Enter(usize),
    // Leave it, when all to which it leads were left.
    Leave(usize),
}

/// The places in the order in which a walk from the first leaves them, which goes to each once.
pub(crate) fn left_in_order(alloc: Global, mut steps: Steps) -> Result<Vec<usize>, Memory> {
    let mut left = Vec::new(alloc);
    let mut turns = Vec::new(alloc);
    turns.push(Turn::Enter(0))?;
    while let Some(turn) = turns.pop() {
        match turn {
            Turn::Enter(place) => enter(&mut turns, &mut steps, place)?,
            Turn::Leave(place) => left.push(place)?,
        }
    }
    Ok(left)
}

// Goes to the module at this place, where it is the first time.
fn enter(turns: &mut Vec<Turn>, steps: &mut Steps, place: usize) -> Result<(), Memory>
    ensures { OnOk result (length turns.new.items + sum_by links_left steps.new.items ≤ length turns.old.items + sum_by links_left steps.old.items) }
{
    match take_steps(steps, place) {
        None => Ok(()),
        Some(taken) => {
            turns.push(Turn::Leave(place))?;
            push_entries(turns, taken.as_slice())
        }
    }
}

fn push_entries(turns: &mut Vec<Turn>, steps: &[Step]) -> Result<(), Memory>
    ensures { OnOk result (length turns.new.items ≡ length turns.old.items + length steps.now) }
{
    for step in steps {
        turns.push(Turn::Enter(step.to))?;
    }
    Ok(())
}

/// The steps of a walk that comes to each module once. It begins at the last of these places, and where it comes no
/// further, at the last to which it did not come yet.
pub(crate) fn walk(alloc: Global, mut steps: Steps, starts: &[usize]) -> Result<Vec<Step>, Memory> {
    let mut walked = Vec::new(alloc);
    let mut turns = Vec::new(alloc);
    push_starts(&mut turns, starts)?;
    while let Some(step) = turns.pop() {
        match take_steps(&mut steps, step.to) {
            None => {}
            Some(taken) => {
                walked.push(step)?;
                push_steps(&mut turns, taken.as_slice())?;
            }
        }
    }
    Ok(walked)
}

fn push_starts(turns: &mut Vec<Step>, starts: &[usize]) -> Result<(), Memory> {
    for to in starts {
        turns.push(Step {
            to: *to,
            link: None,
        })?;
    }
    Ok(())
}

fn push_steps(turns: &mut Vec<Step>, steps: &[Step]) -> Result<(), Memory>
    ensures { OnOk result (length turns.new.items ≡ length turns.old.items + length steps.now) }
{
    for step in steps {
        turns.push(*step)?;
    }
    Ok(())
}

// Takes away the steps from the module at this place. None where that was done.
fn take_steps(steps: &mut Steps, place: usize) -> Option<Vec<Step>>
    ensures { sum_by links_left steps.new.items + links_left result ≡ sum_by links_left steps.old.items }
{
    if place < steps.len() {
        steps[place].take()
    } else {
        None
    }
}
