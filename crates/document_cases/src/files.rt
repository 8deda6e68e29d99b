// Sources, lines and sinks. `reader LIMIT MOST FAILS BYTES ACTION..` reads the lines of bytes of which at most LIMIT may be
// taken; a read gives at most MOST bytes, and the reads with the numbers in FAILS fail (`2,4`, or `-`). An
// action is `next`, which gives the next line, or `skip`, which gives the first 7 bytes of it. At the end
// stands how many reads failed. `sure-reader LIMIT BYTES ACTION..` does so over a source that never fails.
//
// `source MOST FAILS BYTES SIZE..` reads pieces of these sizes. `sink ROOM FAILS PIECE..` writes pieces,
// and gives what was written and how many writes failed; `sure-sink ROOM PIECE..` what is told of them.

ghost use Rattle.std.specs.Prelude.{◌≤◌};

use cases::{
    Fault, Word, behind, number_at, number_of, part, push_bytes, push_number, push_part, text_at,
    text_of,
};
use std::alloc::Global;
use xt_io::{
    LineFault, Lines, MemSink, MemSource, Sink, SkipFault, Source, SureSink, SureSource, write_all,
};
use xt_text::{Memory, Text};

/// Answers the call, if it is one of these.
pub fn answer(alloc: Global, out: &mut Text, call: &str, words: &[Word]) -> Result<bool, Fault> {
    match call {
        "reader" => push_reader(alloc, out, words)?,
        "sure-reader" => push_sure_reader(alloc, out, words)?,
        "source" => push_reads(alloc, out, words)?,
        "sink" => push_written(alloc, out, words)?,
        "sure-sink" => push_told(alloc, out, words)?,
        _ => return Ok(false),
    }
    Ok(true)
}

fn push_reader(alloc: Global, out: &mut Text, words: &[Word]) -> Result<(), Fault> {
    let limit = number_at(words, 0)?;
    let mut from = source(alloc, behind(words, 1))?;
    push_lines(alloc, out, limit, &mut from, behind(words, 4))?;
    push_count(out, from.fault_count())?;
    Ok(())
}

fn push_sure_reader(alloc: Global, out: &mut Text, words: &[Word]) -> Result<(), Fault> {
    let limit = number_at(words, 0)?;
    let mut from = SureSource::new(alloc, bytes_at(words, 1)?)?;
    push_lines(alloc, out, limit, &mut from, behind(words, 2))
}

fn bytes_at(words: &[Word], index: usize) -> Result<&[u8], Fault> {
    if index < words.len() {
        Ok(words[index].as_slice())
    } else {
        Err(Fault::NoCase)
    }
}

// The numbers that commas part; `-` is none.
fn numbers(alloc: Global, text: &str) -> Result<Vec<u64>, Fault> {
    let mut numbers = Vec::new(alloc);
    if text == "-" {
        return Ok(numbers);
    }
    for number in text.split(',') {
        let number = number_of(number)?;
        numbers.push(number)?;
    }
    Ok(numbers)
}

// The source that the words MOST FAILS BYTES make.
fn source(alloc: Global, words: &[Word]) -> Result<MemSource, Fault> {
    let most = number_at(words, 0)? as usize;
    let bytes = bytes_at(words, 2)?;
    let fails = numbers(alloc, text_at(words, 1)?)?;
    if most == 0 {
        return Err(Fault::NoCase);
    }
    Ok(MemSource::new(alloc, bytes, fails.as_slice())?.in_pieces(most))
}

fn push_count(out: &mut Text, faults: u64) -> Result<(), Memory> {
    push_part(out, "faults ")?;
    push_number(out, faults)
}

fn push_lines<I: Source>(
    alloc: Global,
    out: &mut Text,
    limit: u64,
    from: &mut I,
    actions: &[Word],
) -> Result<(), Fault> {
    let mut lines = Lines::new(alloc, limit)?;
    for action in actions {
        push_action(out, &mut lines, from, action)?;
    }
    Ok(())
}

fn push_action<I: Source>(
    out: &mut Text,
    lines: &mut Lines,
    from: &mut I,
    action: &Word,
) -> Result<(), Fault> {
    match text_of(action)? {
        "next" => Ok(push_next(out, lines, from)?),
        "skip" => Ok(push_skipped(out, lines, from)?),
        _ => Err(Fault::NoCase),
    }
}

fn push_next<I: Source>(out: &mut Text, lines: &mut Lines, from: &mut I) -> Result<(), Memory> {
    match lines.next_line(from) {
        Ok(None) => push_part(out, "end"),
        Ok(Some(line)) => {
            part(out)?;
            push_bytes(out, line.as_bytes())
        }
        Err(LineFault::Memory) => Err(Memory),
        Err(LineFault::Failed) => push_part(out, "failed"),
        Err(LineFault::Over) => push_part(out, "over"),
    }
}

fn push_skipped<I: Source>(out: &mut Text, lines: &mut Lines, from: &mut I) -> Result<(), Memory> {
    match lines.skip_line(from) {
        Ok(None) => push_part(out, "end"),
        Ok(Some(head)) => {
            part(out)?;
            push_bytes(out, head.as_bytes())
        }
        Err(SkipFault::Failed) => push_part(out, "failed"),
        Err(SkipFault::Over) => push_part(out, "over"),
    }
}

// The greatest piece that `source` reads.
const MOST: usize = 64;

fn push_reads(alloc: Global, out: &mut Text, words: &[Word]) -> Result<(), Fault> {
    let mut from = source(alloc, words)?;
    for size in behind(words, 3) {
        push_sized(out, &mut from, size)?;
    }
    push_count(out, from.fault_count())?;
    Ok(())
}

fn push_sized(out: &mut Text, from: &mut MemSource, size: &Word) -> Result<(), Fault> {
    let size = number_of(text_of(size)?)? as usize;
    push_read(out, from, size.min(MOST))?;
    Ok(())
}

fn push_read(out: &mut Text, from: &mut MemSource, size: usize) -> Result<(), Memory>
    requires { size ≤ MOST }
{
    let mut buffer = [0; MOST];
    match from.read(&mut buffer[..size]) {
        Ok(count) => {
            part(out)?;
            push_bytes(out, &buffer[..count])
        }
        Err(_) => push_part(out, "failed"),
    }
}

fn push_written(alloc: Global, out: &mut Text, words: &[Word]) -> Result<(), Fault> {
    let mut sink = sink(alloc, words)?;
    push_writes(out, &mut sink, behind(words, 2))?;
    push_taken(out, sink.written(), sink.fault_count())?;
    Ok(())
}

// The sink that the words ROOM FAILS make.
fn sink(alloc: Global, words: &[Word]) -> Result<MemSink, Fault> {
    let room = number_at(words, 0)? as usize;
    let fails = numbers(alloc, text_at(words, 1)?)?;
    Ok(MemSink::new(alloc, room, fails.as_slice())?)
}

fn push_taken(out: &mut Text, written: &[u8], faults: u64) -> Result<(), Memory> {
    part(out)?;
    push_bytes(out, written)?;
    push_count(out, faults)
}

fn push_told(alloc: Global, out: &mut Text, words: &[Word]) -> Result<(), Fault> {
    let room = number_at(words, 0)? as usize;
    let mut sink = SureSink::new(alloc, room)?;
    push_writes(out, &mut sink, behind(words, 1))?;
    push_bytes_told(out, sink.written())?;
    Ok(())
}

fn push_bytes_told(out: &mut Text, told: Option<&[u8]>) -> Result<(), Memory> {
    match told {
        None => push_part(out, "untold"),
        Some(bytes) => {
            part(out)?;
            push_bytes(out, bytes)
        }
    }
}

fn push_writes<O: Sink>(out: &mut Text, sink: &mut O, pieces: &[Word]) -> Result<(), Memory> {
    for piece in pieces {
        push_write(out, sink, piece.as_slice())?;
    }
    Ok(())
}

fn push_write<O: Sink>(out: &mut Text, sink: &mut O, piece: &[u8]) -> Result<(), Memory> {
    match write_all(sink, piece) {
        Ok(()) => push_part(out, "ok"),
        Err(_) => push_part(out, "failed"),
    }
}
