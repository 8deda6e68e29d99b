// Sessions, one after another.

use crate::line::push_line;
use crate::one_byte::{Giver, Taker};
use crate::setting::Setting;
use crate::show::push_bytes;
use std::alloc::Global;
use xt_io::{MemSink, MemSource, Sink, Source, StdSink, StdSource};
use xt_session::{run, serve};
use xt_text::Memory;

/// The session whose lines are being read, and what was answered and is not printed yet.
#[derive(Drop)]
pub struct Sessions {
    // what stands behind `== ` in its first line, where there is a session
    head: Option<String>,
    input: Vec<u8>,
    // how many empty lines came last
    empty: u64,
    out: String,
}

impl Sessions {
    /// No session.
    pub fn new(alloc: Global) -> Sessions {
        Sessions {
            head: None,
            input: Vec::new(alloc),
            empty: 0,
            out: String::new(alloc),
        }
    }

    /// Takes the next line.
    pub fn take_line(&mut self, alloc: Global, line: &str) -> Result<(), Memory> {
        if line.is_empty() {
            self.empty = self.empty.saturating_add(1);
            return Ok(());
        }
        match line.strip_prefix("== ") {
            Some(head) => self.begin(alloc, head),
            None if line.starts_with("#") => self.remark(alloc, line),
            None => {
                self.take_empty()?;
                push_line(&mut self.input, line)
            }
        }
    }

    // Ends the session before, and begins one.
    fn begin(&mut self, alloc: Global, head: &str) -> Result<(), Memory> {
        self.end(alloc)?;
        self.head = Some(String::from_str(alloc, head)?);
        Ok(())
    }

    // Ends the session before, and prints a comment.
    fn remark(&mut self, alloc: Global, line: &str) -> Result<(), Memory> {
        self.end(alloc)?;
        self.out.push_str(line)?;
        Ok(self.out.push('\n')?)
    }

    // The empty lines that came last are lines of the session.
    fn take_empty(&mut self) -> Result<(), Memory> {
        for _ in 0..self.empty {
            self.input.push(b'\n')?;
        }
        self.empty = 0;
        Ok(())
    }

    /// Runs the session, where there is one, and prints the empty lines behind it.
    pub fn end(&mut self, alloc: Global) -> Result<(), Memory> {
        if let Some(head) = self.head.take() {
            answer(alloc, &mut self.out, head.as_str(), self.input.as_slice())?;
        }
        self.input.clear();
        for _ in 0..self.empty {
            self.out.push('\n')?;
        }
        self.empty = 0;
        Ok(())
    }

    /// What was answered since it was cleared last.
    pub fn answers(&self) -> &str {
        self.out.as_str()
    }

    /// Forgets the answers.
    pub fn clear(&mut self) {
        self.out.clear();
    }
}

fn answer(alloc: Global, out: &mut String, head: &str, input: &[u8]) -> Result<(), Memory> {
    out.push_str("== ")?;
    out.push_str(head)?;
    out.push('\n')?;
    match head.split_once(" | ") {
        None => play(alloc, out, Some(Setting::new(alloc)), input),
        Some((_, options)) => play(alloc, out, Setting::read(alloc, options)?, input),
    }
}

fn play(
    alloc: Global,
    out: &mut String,
    setting: Option<Setting>,
    input: &[u8],
) -> Result<(), Memory> {
    match setting {
        None => Ok(out.push_str("?\n")?),
        Some(setting) if setting.is_over_std => play_over_std(alloc, out, &setting, input),
        Some(setting) => play_over_memory(alloc, out, &setting, input),
    }
}

fn play_over_memory(
    alloc: Global,
    out: &mut String,
    setting: &Setting,
    input: &[u8],
) -> Result<(), Memory> {
    let mut from = source(alloc, setting, input)?;
    let mut to = MemSink::new(alloc, setting.room, setting.writes.as_slice())?;
    let status = served(alloc, setting, &mut from, &mut to);
    push_end(alloc, out, status, to.written())
}

fn source(alloc: Global, setting: &Setting, input: &[u8]) -> Result<MemSource, Memory> {
    let source = MemSource::new(alloc, input, setting.reads.as_slice())?;
    if setting.pieces > 0 {
        Ok(source.in_pieces(setting.pieces))
    } else {
        Ok(source)
    }
}

fn play_over_std(
    alloc: Global,
    out: &mut String,
    setting: &Setting,
    input: &[u8],
) -> Result<(), Memory> {
    let mut written = Vec::new(alloc);
    let mut from = StdSource::new(Giver { rest: input });
    let mut to = StdSink::new(Taker {
        taken: &mut written,
    });
    let status = served(alloc, setting, &mut from, &mut to);
    push_end(alloc, out, status, written.as_slice())
}

// Serves the session, and gives its status.
fn served<I: Source, O: Sink>(alloc: Global, setting: &Setting, from: &mut I, to: &mut O) -> u8 {
    match &setting.words {
        None => serve(alloc, from, to, setting.limit),
        Some(words) => run(alloc, words.as_slice(), from, to),
    }
}

fn push_end(alloc: Global, out: &mut String, status: u8, written: &[u8]) -> Result<(), Memory> {
    out.push_str("status ")?;
    out.push_str(itoa::Buffer::new().format(status))?;
    out.push('\n')?;
    push_bytes(alloc, out, written)
}
