// From the lines of a body to events.
ghost use Rattle.std.specs.Prelude.{◌≡◌, map};
ghost use Rattle.xt_build.specs.View.{located_of, ReadsEvents, IsReadOf};

use crate::fault::keep_least;
use crate::{BuildFault, Fault};
use std::alloc::Global;
use xt_base::EditCode;
use xt_io::Line;
use xt_pyx::{BadLine, Event, read_event};
use xt_text::Memory;

/// An event with the number of its line, from 1.
#[derive(Drop)]
pub(crate) struct Located {
    pub line: u64,
    pub event: Event,
}

// What one line is read as.
#[derive(Drop)]
enum ReadLine {
    Empty,
    Event(Event),
    NotUtf8,
    Bad,
}

/// The events of the lines; empty lines are skipped. Refused where a line is not UTF-8, or is not empty
/// and has no event.
pub(crate) fn read_events(alloc: Global, body: &[Line]) -> Result<Vec<Located>, BuildFault>
    ensures { ReadsEvents body.now result }
{
    let mut events = Vec::new(alloc);
    let mut found = None;
    for (i, line) in body.iter().enumerate() {
        let number = i as u64 + 1;
        match read_line(alloc, line.as_bytes())? {
            ReadLine::Empty => {}
            ReadLine::Event(event) => events.push(Located {
                line: number,
                event,
            })?,
            ReadLine::NotUtf8 => keep_least(
                &mut found,
                Fault {
                    code: EditCode::NotUtf8,
                    line: number,
                },
            ),
            ReadLine::Bad => keep_least(
                &mut found,
                Fault {
                    code: EditCode::BadLine,
                    line: number,
                },
            ),
        }
    }
    match found {
        None => Ok(events),
        Some(fault) => Err(BuildFault::Refused(fault)),
    }
}

fn read_line(alloc: Global, bytes: &[u8]) -> Result<ReadLine, Memory>
    ensures { IsReadOf bytes.now result }
{
    let Ok(text) = str::from_utf8(bytes) else {
        return Ok(ReadLine::NotUtf8);
    };
    if text.is_empty() {
        return Ok(ReadLine::Empty);
    }
    match read_event(alloc, text) {
        Ok(event) => Ok(ReadLine::Event(event)),
        Err(BadLine::Bad) => Ok(ReadLine::Bad),
        Err(BadLine::Memory) => Err(Memory),
    }
}
