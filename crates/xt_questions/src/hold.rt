// Reads that are asked again.
ghost use Rattle.std.specs.Prelude.{◌≡◌, ◌+◌, ◌-◌, ◌^◌, ◌<◌, min, map, length, true, false, IfOk, IfSome, OnErr};
ghost use Rattle.spec_meaning.specs.Program.{State};
ghost use Rattle.xt_questions.specs.View.{read_of};
ghost use Rattle.xt_questions.specs.Change.{Stands, Changes, IsFirstChange, asked_by, asked_in, asked_until};

use crate::{Read, World};
use std::alloc::Global;
use xt_base::Steps;
use xt_text::Memory;

/// The first read that has another answer in this world, which is asked again what was asked, in that
/// order; what was seen of the run is not asked. None exactly where each question has its answer. What is
/// asked is counted; after want of memory the count is as before.
pub fn holds<W: World>(
    alloc: Global,
    reads: &[Read],
    world: &mut W,
    steps: &mut Steps,
) -> Result<Option<usize>, Memory>
    ensures first { IfOk result (λ i. IsFirstChange (W.state world.old).truth (map read_of reads.now) i) }
    ensures asked { IfOk result (λ i. steps.new ≡ record steps.old { asked = min (steps.old.asked + asked_until (map read_of reads.now) i) (2 ^ 64 - 1) }) }
    ensures truth { (W.state world.new).truth ≡ (W.state world.old).truth }
    ensures name { W.name world.new ≡ W.name world.old }
    ensures err { OnErr result (steps.new ≡ steps.old) }
{
    let change = first_change(alloc, reads, world)?;
    let asked = count_until(reads, change);
    steps.add_asked(asked);
    Ok(change)
}

fn first_change<W: World>(
    alloc: Global,
    reads: &[Read],
    world: &mut W,
) -> Result<Option<usize>, Memory>
    ensures first { IfOk result (λ i. IsFirstChange (W.state world.old).truth (map read_of reads.now) i) }
    ensures within { IfOk result (λ i. IfSome i (λ k. k < length reads.now)) }
    ensures truth { (W.state world.new).truth ≡ (W.state world.old).truth }
    ensures name { W.name world.new ≡ W.name world.old }
{
    for (index, read) in reads.iter().enumerate() {
        if !stands(alloc, read, world)? {
            return Ok(Some(index));
        }
    }
    Ok(None)
}

/// Whether the world answers as it did when this was read.
fn stands<W: World>(alloc: Global, read: &Read, world: &mut W) -> Result<bool, Memory>
    ensures stands { IfOk result (λ b. b ≡ true → Stands (W.state world.old).truth (read_of read.now)) }
    ensures changes { IfOk result (λ b. b ≡ false → Changes (W.state world.old).truth (read_of read.now)) }
    ensures truth { (W.state world.new).truth ≡ (W.state world.old).truth }
    ensures name { W.name world.new ≡ W.name world.old }
{
    match read {
        Read::Saw(_, _, _) => Ok(true),
        Read::Asked(question, answer) => {
            let now = world.ask(question)?;
            let same = now.same(alloc, answer);
            drop(now);
            same
        }
    }
}

/// How many of the reads are asked up to this one, or in all.
fn count_until(reads: &[Read], last: Option<usize>) -> u64
    requires { IfSome last (λ k. k < length reads.now) }
    ensures { result ≡ asked_until (map read_of reads.now) last }
{
    match last {
        None => count_asked(reads),
        Some(index) => count_asked(&reads[..index + 1]),
    }
}

/// How many of the reads are asked.
fn count_asked(reads: &[Read]) -> u64
    ensures { result ≡ asked_in (map read_of reads.now) }
{
    let mut count = 0;
    for read in reads {
        count += asked_by(read);
    }
    count
}

fn asked_by(read: &Read) -> u64
    ensures { result ≡ asked_by (read_of read.now) }
{
    match read {
        Read::Asked(_, _) => 1,
        Read::Saw(_, _, _) => 0,
    }
}
