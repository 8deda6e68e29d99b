// Sources over memory.
ghost use Rattle.std.specs.Prelude.{◌≡◌, ◌↔◌, ◌<◌, Some, [], length, min, take, drop, IfOk, OnErr, IsOk, IsErr, Contains};
ghost use Rattle.spec_lines.specs.Outside.{HasCause};
ghost use Rattle.xt_io.specs.Memory.{MemorySource, one_more, after_read, after_failed_read};

use crate::fault::Failed;
use crate::source::Source;
use std::alloc::Global;
use std::marker::Model;
use xt_text::Memory;

/// A source over memory that never fails. Contracts see the bytes left.
#[derive(Drop)]
pub struct SureSource {
    bytes: Vec<u8>,
    used: usize,
}

impl Model for SureSource {
    ghost use Rattle.std.specs.Prelude.{ℕ, ◌≤◌, List, drop, vec_len};

    ghost Value = { List ℕ };

    ghost view = { λ source. drop source.used source.bytes.items };

    ghost invariant = { λ source. source.used ≤ vec_len source.bytes };
}

impl SureSource {
    /// A source of these bytes.
    pub fn new(alloc: Global, bytes: &[u8]) -> Result<SureSource, Memory>
        ensures { IfOk result (λ source. source ≡ bytes.now) }
    {
        Ok(SureSource {
            bytes: Vec::from_slice(alloc, bytes)?,
            used: 0,
        })
    }

    // Gives as many bytes as there are and as the piece has place for.
    fn give(&mut self, into: &mut [u8]) -> usize
        ensures count { result ≡ min (length into.old) (length self.old) }
        ensures bytes { take result into.new ≡ take result self.old }
        ensures rest { self.new ≡ drop result self.old }
    {
        let left = &self.bytes.as_slice()[self.used..];
        let count = into.len().min(left.len());
        into[..count].copy_from_slice(&left[..count]);
        self.used += count;
        count
    }
}

impl Source for SureSource {
    ghost remaining = { λ source. Some source };

    ghost faults = { λ _. 0 };

    /// Always gives as many bytes as there are and as the piece has place for. Takes no memory.
    fn read(&mut self, into: &mut [u8]) -> Result<usize, Failed>
        ensures sure { IsOk result }
        ensures count { IfOk result (λ count. count ≡ min (length into.old) (length self.old)) }
        ensures bytes { IfOk result (λ count. take count into.new ≡ take count self.old) }
        ensures rest { IfOk result (λ count. self.new ≡ drop count self.old) }
    {
        Ok(self.give(into))
    }
}

/// A source over memory of which some reads fail. Contracts see the bytes left, the numbers of the
/// reads that fail, the number of the last read and how many failed (each at most 2^64 - 1), and
/// how many bytes a read gives at most.
#[derive(Drop)]
pub struct MemSource {
    source: SureSource,
    fails: Vec<u64>,
    calls: u64,
    faults: u64,
    most: usize,
}

impl Model for MemSource {
    ghost use Rattle.std.specs.Prelude.{◌<◌};
    ghost use Rattle.xt_io.specs.Memory.{MemorySource};

    ghost Value = { MemorySource };

    ghost view = { λ s. record { left = s.source; fails = s.fails.items; calls = s.calls; faults = s.faults; most = s.most } };

    ghost invariant = { λ s. 0 < s.most };
}

impl MemSource {
    /// A source of these bytes; the reads with these numbers, counted from 1, fail.
    pub fn new(alloc: Global, bytes: &[u8], fails: &[u64]) -> Result<MemSource, Memory>
        ensures { IfOk result (λ source. source ≡ record { left = bytes.now; fails = fails.now; calls = 0; faults = 0; most = usize.MAX }) }
    {
        Ok(MemSource {
            source: SureSource::new(alloc, bytes)?,
            fails: Vec::from_slice(alloc, fails)?,
            calls: 0,
            faults: 0,
            most: usize::MAX,
        })
    }

    /// The same source, of which a read gives at most so many bytes.
    pub fn in_pieces(self, most: usize) -> MemSource
        requires { 0 < most }
        ensures { result ≡ record self { most = most } }
    {
        MemSource { most, ..self }
    }

    /// How often it has failed.
    pub fn fault_count(&self) -> u64
        ensures { result ≡ self.now.faults }
    {
        self.faults
    }
}

impl Source for MemSource {
    ghost remaining = { λ source. Some source.left };

    ghost faults = { λ source. source.faults };

    /// Fails exactly where the number of this read is listed, and counts one fault more; else gives as many bytes as there are,
    /// as the piece has place for, and as a read gives at most. Takes no memory.
    fn read(&mut self, into: &mut [u8]) -> Result<usize, Failed>
        ensures fails { IsErr result ↔ Contains self.old.fails (one_more self.old.calls) }
        ensures count { IfOk result (λ count. count ≡ min (min (length into.old) self.old.most) (length self.old.left)) }
        ensures bytes { IfOk result (λ count. take count into.new ≡ take count self.old.left) }
        ensures rest { IfOk result (λ count. self.new ≡ after_read self.old count) }
        ensures end { IfOk result (λ count. count ≡ 0 → 0 < length into.old → self.old.left ≡ []) }
        ensures unread { OnErr result (self.new ≡ after_failed_read self.old) }
        ensures cause { HasCause self.old.faults self.new.faults result }
    {
        self.calls = self.calls.saturating_add(1);
        if self.fails.as_slice().contains(&self.calls) {
            self.faults = self.faults.saturating_add(1);
            return Err(Failed);
        }
        let most = into.len().min(self.most);
        Ok(self.source.give(&mut into[..most]))
    }
}
