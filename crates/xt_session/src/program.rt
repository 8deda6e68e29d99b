// What the program does.
ghost use Rattle.std.specs.Prelude.{◌≡◌, ◌≢◌, ℕ, List, map, take, string_bytes, IsTrue, IsFalse};
ghost use Rattle.spec_lines.specs.Outside.{Appends, HasRisen};
ghost use Rattle.spec_session.specs.declared.kinds.Asked.TheVariants.{Demonstration, Nothing};
ghost use Rattle.spec_session.specs.Asked.{asked_of, asks_session, usage_line};
ghost use Rattle.spec_session.specs.Served.{Demonstrates, Serves, session_limit};

use crate::demo::demonstrate;
use crate::session::serve;
use spec_session::Asked;
use std::alloc::Global;
use xt_arguments::read_words;
use xt_io::{Sink, Source, write_all};

const USAGE: &str = "usage: xt session | demo N\n";

const SESSION_LIMIT: u64 = 1 << 48;

/// Does all that the program does. The words are those of the command line, the program's name first.
///
/// `xt session` serves a session of at most 2^48 bytes, with the statuses of `serve`. `xt demo N`, for N from 1 to
/// 1000, answers the generated session of that size, reads nothing, and writes the summary of the replies: the status is
/// 0, or 2 where the sink fails. Any other words write the usage line, and the status is 64, or 2 where the sink fails.
/// Want of memory outside a command's work is the status 3, and then nothing is read and nothing written.
pub fn run<I: Source, O: Sink>(alloc: Global, words: &[String], input: &mut I, output: &mut O) -> u8
    // The headline.
    ensures session { IsTrue (asks_session (map string_bytes words.now)) →
        Serves session_limit (I.remaining input.old) (I.remaining input.new) (O.written output.old) (O.written output.new) result }

    // A demonstration writes the summary of the replies of a run of the machine, or at a fault of the sink a front of it.
    ensures demo { (n : ℕ) → asked_of (map string_bytes words.now) ≡ Demonstration n → result ≢ 2 → result ≢ 3 →
        (result ≡ 0) × ((text : List ℕ) × Demonstrates n text × Appends (O.written output.old) (O.written output.new) text) }
    ensures demo_cut { (n : ℕ) → asked_of (map string_bytes words.now) ≡ Demonstration n → result ≡ 2 →
        (text : List ℕ) × Demonstrates n text × ((count : ℕ) × Appends (O.written output.old) (O.written output.new) (take count text)) }

    // Only a session reads.
    ensures unread { IsFalse (asks_session (map string_bytes words.now)) → input.new ≡ input.old }

    // Want of memory outside a command's work leaves source and sink as they were.
    ensures untouched { result ≡ 3 → (input.new ≡ input.old) × (output.new ≡ output.old) }

    // Other words are answered by the usage line.
    ensures usage { asked_of (map string_bytes words.now) ≡ Nothing → result ≢ 2 → result ≢ 3 → (result ≡ 64) × Appends (O.written output.old) (O.written output.new) usage_line }
    ensures usage_cut { asked_of (map string_bytes words.now) ≡ Nothing → result ≡ 2 → (count : ℕ) × Appends (O.written output.old) (O.written output.new) (take count usage_line) }
    ensures not_asked { result ≡ 64 → asked_of (map string_bytes words.now) ≡ Nothing }

    // Each fault has its cause.
    ensures read_failed { result ≡ 1 → HasRisen (I.faults input.old) (I.faults input.new) }
    ensures no_read_failed { result ≢ 1 → I.faults input.new ≡ I.faults input.old }
    ensures write_failed { result ≡ 2 → HasRisen (O.faults output.old) (O.faults output.new) }
    ensures no_write_failed { result ≢ 2 → O.faults output.new ≡ O.faults output.old }
{
    match read_words(alloc, words) {
        Ok(Asked::Session) => serve(alloc, input, output, SESSION_LIMIT),
        Ok(Asked::Demonstration(size)) => demonstrate(alloc, size, output),
        Ok(Asked::Nothing) => usage(output),
        Err(_) => 3,
    }
}

// Writes the usage line.
fn usage<O: Sink>(output: &mut O) -> u8
    ensures all { result ≢ 2 → (result ≡ 64) × Appends (O.written output.old) (O.written output.new) usage_line }
    ensures cut { result ≡ 2 → (count : ℕ) × Appends (O.written output.old) (O.written output.new) (take count usage_line) }
    ensures write_failed { result ≡ 2 → HasRisen (O.faults output.old) (O.faults output.new) }
    ensures no_write_failed { result ≢ 2 → O.faults output.new ≡ O.faults output.old }
{
    match write_all(output, USAGE.as_bytes()) {
        Ok(()) => 64,
        Err(_) => 2,
    }
}
