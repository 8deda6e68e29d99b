// Serves a session.
ghost use Rattle.std.specs.Prelude.{◌≡◌, ◌≢◌};
ghost use Rattle.spec_lines.specs.Outside.{Appends, HasRisen};
ghost use Rattle.spec_session.specs.Served.{Serves};
ghost use Rattle.xt_session.specs.Turn.{Turns, Writes, HasInputCause, HasOutputCause};
ghost use Rattle.xt_held.specs.View.{IsCurrent};

use crate::answer::answer;
use crate::command::Taken;
use crate::take::take_command;
use std::alloc::Global;
use xt_held::Held;
use xt_io::{Lines, Sink, Source, write_all};

/// The bytes of the reply for want of memory.
pub(crate) const NO_MEMORY: &[u8] = b"no 1\n";

/// Reads commands from the input up to its end or `quit`, and answers each but `quit` with one
/// reply, before the next line is taken. No more than `limit` bytes are taken, and one more to see
/// whether the input goes on.
///
/// | Status | Comes |
/// |---|---|
/// | 0 | at the end of the input outside a body, or at `quit` |
/// | 1 | only where the source has failed: the whole commands among the bytes taken, at most `limit`, are answered, and `quit` is not among them |
/// | 2 | only where the sink has failed: what is written is a prefix of the replies |
/// | 3 | for want of memory at the start: nothing is read and nothing written |
/// | 4 | where the input ends inside a body |
/// | 5 | where a line or body is not whole within `limit` bytes and the input goes on |
pub fn serve<I: Source, O: Sink>(alloc: Global, input: &mut I, output: &mut O, limit: u64) -> u8
    // The headline: the bytes written are the replies of a run of the machine over the whole commands, and what `stats`
    // tells in them is what the changes cost.
    ensures session { Serves limit (I.remaining input.old) (I.remaining input.new) (O.written output.old) (O.written output.new) result }

    // Want of memory at the start leaves source and sink as they were.
    ensures untouched { result ≡ 3 → (input.new ≡ input.old) × (output.new ≡ output.old) }

    // Each status has its cause.
    ensures read_failed { result ≡ 1 → HasRisen (I.faults input.old) (I.faults input.new) }
    ensures no_read_failed { result ≢ 1 → I.faults input.new ≡ I.faults input.old }
    ensures write_failed { result ≡ 2 → HasRisen (O.faults output.old) (O.faults output.new) }
    ensures no_write_failed { result ≢ 2 → O.faults output.new ≡ O.faults output.old }
{
    let Ok(mut lines) = Lines::new(alloc, limit) else {
        return 3;
    };
    let mut held = Held::new(alloc);
    loop {
        match take_turn(alloc, &mut lines, &mut held, input, output) {
            Turn::Answered => {}
            Turn::Stopped(status) => return status,
            Turn::ReadFailed => return 1,
            Turn::WriteFailed => return 2,
        }
    }
}

/// How one turn of a session went.
#[derive(Drop)]
pub(crate) enum Turn {
    /// A command was answered.
    Answered,
    /// No whole command is left, and the session ends with this status.
    Stopped(u8),
    /// The source failed before a command was whole.
    ReadFailed,
    /// The sink failed in a reply.
    WriteFailed,
}

// Takes one command and answers it.
fn take_turn<I: Source, O: Sink>(
    alloc: Global,
    lines: &mut Lines,
    held: &mut Held,
    input: &mut I,
    output: &mut O,
) -> Turn
    requires { IsCurrent held.old }
    ensures turns { Turns lines.old (I.remaining input.old) held.old (O.written output.old) result lines.new (I.remaining input.new) held.new (O.written output.new) }
    ensures current { IsCurrent held.new }
    ensures input_cause { HasInputCause (I.faults input.old) (I.faults input.new) result }
    ensures output_cause { HasOutputCause (O.faults output.old) (O.faults output.new) result }
{
    match take_command(alloc, lines, input) {
        Taken::Command(command) => match answer(alloc, held, command) {
            Ok(text) => write_reply(text.as_str().as_bytes(), output),
            Err(_) => write_reply(NO_MEMORY, output),
        },
        Taken::Skipped => write_reply(NO_MEMORY, output),
        Taken::Stopped(status) => Turn::Stopped(status),
        Taken::Failed => Turn::ReadFailed,
    }
}

// Writes the bytes of a reply.
fn write_reply<O: Sink>(reply: &[u8], output: &mut O) -> Turn
    ensures writes { Writes reply.now (O.written output.old) result (O.written output.new) }
    ensures output_cause { HasOutputCause (O.faults output.old) (O.faults output.new) result }
{
    match write_all(output, reply) {
        Ok(()) => Turn::Answered,
        Err(_) => Turn::WriteFailed,
    }
}
