//! Sessions as data: runs sessions, one after another, each over a source and a sink in memory, and prints its
//! status and what it wrote.
//!
//! A session is a line `== NAME`, and behind it the lines of its input up to the next line that begins with
//! `==` or `#`; empty lines before that belong to none. A comment (`#`) is printed as it is.
//!
//! A line stands for its bytes and one LF. In a line that begins with `%` the rest counts: `%` and two
//! hexadecimal digits stand for that byte, and with `%.` at its end no LF follows. `%*N LINE` stands for N
//! times LINE. What a session wrote is printed in the same form.
//!
//! Behind the name, after ` | `, may stand: `limit N`, how many bytes are taken at most; `pieces N`, how many
//! bytes a read gives at most; `reads N,N` and `writes N,N`, the numbers of the calls that fail; `room N`, how
//! many bytes the sink has place for; `over std`, that source and sink are a reader and a writer of std, which
//! move one byte a call and never fail; and last `words WORD..`, the words of a command line behind the
//! program's name. With these `run` is called, else `serve`.
#![tactic(auto)]

mod line;
mod one_byte;
mod session;
mod setting;
mod show;

use session::Sessions;
use std::alloc::Global;
use std::io;
use xt_text::Memory;

/// Runs the sessions of the text, and prints what each answers.
pub fn play_all(rt: &impl Print, alloc: Global, text: &str) -> io::Result<()> {
    let mut sessions = Sessions::new(alloc);
    play_lines(rt, alloc, text, &mut sessions)
}

fn play_lines(
    rt: &impl Print,
    alloc: Global,
    text: &str,
    sessions: &mut Sessions,
) -> io::Result<()> {
    for line in text.lines() {
        let taken = sessions.take_line(alloc, line);
        print(rt, sessions, taken)?;
    }
    let ended = sessions.end(alloc);
    print(rt, sessions, ended)
}

// Prints what was answered since the last call.
fn print(rt: &impl Print, sessions: &mut Sessions, done: Result<(), Memory>) -> io::Result<()> {
    if done.is_err() {
        rt.println("memory")?;
    }
    rt.print(sessions.answers())?;
    sessions.clear();
    Ok(())
}
