// Sinks over memory.
ghost use Rattle.std.specs.Prelude.{◌≡◌, ◌↔◌, ◌⊎◌, ◌<◌, ◌+◌, [], Some, None, length, IfOk, OnOk, OnErr, IsOk, IsErr, Contains, MatchOption};
ghost use Rattle.spec_lines.specs.Outside.{HasCause};
ghost use Rattle.xt_io.specs.Memory.{MemorySink, MemoryTold, one_more, after_write, after_failed_write, told_after};

use crate::fault::Failed;
use crate::sink::Sink;
use std::alloc::Global;
use std::marker::Model;
use xt_text::Memory;

/// A sink over memory that never fails. Past its room it still takes bytes, but from then on it no
/// longer tells what was written. Contracts see its room and what it tells.
#[derive(Drop)]
pub struct SureSink {
    bytes: Vec<u8>,
    room: usize,
    is_over: bool,
}

impl Model for SureSink {
    ghost use Rattle.std.specs.Prelude.{Some, None, ◌≤◌, vec_len, vec_capacity, if◌then◌else◌};
    ghost use Rattle.xt_io.specs.Memory.{MemoryTold};

    ghost Value = { MemoryTold };

    ghost view = { λ s. record { written = if s.is_over then None else Some s.bytes.items; room = s.room } };

    ghost invariant = { λ s. (vec_len s.bytes ≤ s.room) × (s.room ≤ vec_capacity s.bytes) };
}

impl SureSink {
    /// An empty sink, with its room taken.
    pub fn new(alloc: Global, room: usize) -> Result<SureSink, Memory>
        ensures { IfOk result (λ sink. sink ≡ record { written = Some []; room = room }) }
    {
        Ok(SureSink {
            bytes: Vec::with_capacity(alloc, room)?,
            room,
            is_over: false,
        })
    }

    /// What was written, if that is still told.
    pub fn written(&self) -> Option<&[u8]>
        ensures { MatchOption result (self.now.written ≡ None) (λ bytes. self.now.written ≡ Some bytes.now) }
    {
        if self.is_over {
            None
        } else {
            Some(self.bytes.as_slice())
        }
    }
}

impl Sink for SureSink {
    ghost written = { λ sink. sink.written };

    ghost faults = { λ _. 0 };

    /// Takes the whole piece. Takes no memory.
    fn write(&mut self, piece: &[u8]) -> Result<usize, Failed>
        ensures sure { IsOk result }
        ensures all { IfOk result (λ count. count ≡ length piece.now) }
        ensures told { (self.new.room ≡ self.old.room) × (self.new.written ≡ told_after self.old piece.now) }
    {
        if self.is_over || piece.len() > self.room - self.bytes.len() {
            self.is_over = true;
        } else {
            self.bytes.extend_from_slice(piece).unwrap();
        }
        Ok(piece.len())
    }
}

/// A sink over memory of which some writes fail. Contracts see the bytes written, its room, the
/// numbers of the writes that fail, the number of the last write and how many failed (each at most
/// 2^64 - 1).
#[derive(Drop)]
pub struct MemSink {
    bytes: Vec<u8>,
    room: usize,
    fails: Vec<u64>,
    calls: u64,
    faults: u64,
}

impl Model for MemSink {
    ghost use Rattle.std.specs.Prelude.{◌≤◌, vec_len, vec_capacity};
    ghost use Rattle.xt_io.specs.Memory.{MemorySink};

    ghost Value = { MemorySink };

    ghost view = { λ s. record { bytes = s.bytes.items; room = s.room; fails = s.fails.items; calls = s.calls; faults = s.faults } };

    ghost invariant = { λ s. (vec_len s.bytes ≤ s.room) × (s.room ≤ vec_capacity s.bytes) };
}

impl MemSink {
    /// An empty sink, with its room taken; the writes with these numbers, counted from 1, fail.
    pub fn new(alloc: Global, room: usize, fails: &[u64]) -> Result<MemSink, Memory>
        ensures { IfOk result (λ sink. sink ≡ record { bytes = []; room = room; fails = fails.now; calls = 0; faults = 0 }) }
    {
        Ok(MemSink {
            bytes: Vec::with_capacity(alloc, room)?,
            room,
            fails: Vec::from_slice(alloc, fails)?,
            calls: 0,
            faults: 0,
        })
    }

    /// What was written.
    pub fn written(&self) -> &[u8]
        ensures { result.now ≡ self.now.bytes }
    {
        self.bytes.as_slice()
    }

    /// How often it has failed.
    pub fn fault_count(&self) -> u64
        ensures { result ≡ self.now.faults }
    {
        self.faults
    }
}

impl Sink for MemSink {
    ghost written = { λ sink. Some sink.bytes };

    ghost faults = { λ sink. sink.faults };

    /// Fails exactly where the number of this write is listed, or the piece has no place in the room
    /// that is left, and counts one fault more; else takes the whole piece. Takes no memory.
    fn write(&mut self, piece: &[u8]) -> Result<usize, Failed>
        ensures fails { IsErr result ↔ (Contains self.old.fails (one_more self.old.calls) ⊎ (self.old.room < length self.old.bytes + length piece.now)) }
        ensures all { IfOk result (λ count. count ≡ length piece.now) }
        ensures written { OnOk result (self.new ≡ after_write self.old piece.now) }
        ensures unwritten { OnErr result (self.new ≡ after_failed_write self.old) }
        ensures cause { HasCause self.old.faults self.new.faults result }
    {
        self.calls = self.calls.saturating_add(1);
        if self.fails.as_slice().contains(&self.calls)
            || piece.len() > self.room - self.bytes.len()
        {
            self.faults = self.faults.saturating_add(1);
            return Err(Failed);
        }
        self.bytes.extend_from_slice(piece).unwrap();
        Ok(piece.len())
    }
}
