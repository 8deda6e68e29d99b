// A demonstration: the generated session of a size is answered, and the summary of its replies is written.
ghost use Rattle.std.specs.Prelude.{◌≡◌, ◌≢◌, ◌≤◌, ◌<◌, ℕ, List, None, take, IfOk, OnErr};
ghost use Rattle.spec_lines.specs.Outside.{Appends, HasRisen};
ghost use Rattle.spec_run.specs.Documents.{no_documents};
ghost use Rattle.spec_session.specs.Served.{Demonstrates};
ghost use Rattle.xt_held.specs.View.{IsCurrent, made_of, pending_of, present_of};
ghost use Rattle.xt_session.specs.State.{state_of};
ghost use Rattle.xt_session.specs.Counting.{HasAnswered, IsSmall, Turns};

use crate::answer::answer;
use crate::command::Command;
use crate::counts::Counts;
use crate::session::NO_MEMORY;
use crate::summary::summary;
use std::alloc::Global;
use xt_demo::{Gen, GeneratedCommand};
use xt_held::Held;
use xt_io::{Sink, write_all};
use xt_text::Memory;

/// Answers the commands of the generated session of this size, and writes the summary of the replies.
///
/// | Status | Comes |
/// |---|---|
/// | 0 | where the summary is written |
/// | 2 | only where the sink has failed: what is written is a front of the summary |
/// | 3 | for want of memory, but for that of a command, which is answered: nothing is written |
pub(crate) fn demonstrate<O: Sink>(alloc: Global, size: u16, output: &mut O) -> u8
    requires least { 1 ≤ size }
    requires most { size ≤ 1000 }
    ensures demo { result ≢ 2 → result ≢ 3 → (result ≡ 0) × ((text : List ℕ) × Demonstrates size text × Appends (O.written output.old) (O.written output.new) text) }
    ensures cut { result ≡ 2 → (text : List ℕ) × Demonstrates size text × ((count : ℕ) × Appends (O.written output.old) (O.written output.new) (take count text)) }
    ensures untouched { result ≡ 3 → output.new ≡ output.old }
    ensures write_failed { result ≡ 2 → HasRisen (O.faults output.old) (O.faults output.new) }
    ensures no_write_failed { result ≢ 2 → O.faults output.new ≡ O.faults output.old }
{
    let Ok(text) = summarize(alloc, size) else {
        return 3;
    };
    match write_all(output, text.as_slice()) {
        Ok(()) => 0,
        Err(_) => 2,
    }
}

// The summary of the replies to the session of this size.
fn summarize(alloc: Global, size: u16) -> Result<Vec<u8>, Memory>
    requires least { 1 ≤ size }
    requires most { size ≤ 1000 }
    ensures { IfOk result (λ text. Demonstrates size text.items) }
{
    let counts = answer_all(alloc, size)?;
    summary(alloc, size, counts)
}

// Answers all commands of the session of this size, and counts the replies.
fn answer_all(alloc: Global, size: u16) -> Result<Counts, Memory>
    requires least { 1 ≤ size }
    requires most { size ≤ 1000 }
    ensures { IfOk result (λ counts. HasAnswered size counts) }
{
    let mut held = Held::new(alloc);
    let counts = answer_by(alloc, size, &mut held);
    drop(held);
    counts
}

// Answers them all by what holds nothing yet.
fn answer_by(alloc: Global, size: u16, held: &mut Held) -> Result<Counts, Memory>
    requires least { 1 ≤ size }
    requires most { size ≤ 1000 }
    requires present { present_of held.old ≡ no_documents }
    requires pending { pending_of held.old ≡ None }
    requires made { made_of held.old ≡ 0 }
    requires current { IsCurrent held.old }
    ensures { IfOk result (λ counts. HasAnswered size counts) }
{
    let mut commands = Gen::new(size);
    let mut counts = Counts::new();
    while let Some(command) = commands.next(alloc)? {
        answer_one(alloc, held, command, &mut counts);
    }
    Ok(counts)
}

// Answers a command, and counts its reply.
fn answer_one(alloc: Global, held: &mut Held, command: GeneratedCommand, counts: &mut Counts)
    requires current { IsCurrent held.old }
    requires small { IsSmall counts.old }
    requires room { counts.old.all < 65535 }
    ensures turns { Turns (state_of held.old) counts.old command (state_of held.new) counts.new }
    ensures current { IsCurrent held.new }
    ensures small { IsSmall counts.new }
{
    let GeneratedCommand { line, body } = command;
    match answer(alloc, held, Command::new(line, body)) {
        Ok(text) => counts.count(text.as_str().as_bytes()),
        Err(_) => counts.count(NO_MEMORY),
    }
}
