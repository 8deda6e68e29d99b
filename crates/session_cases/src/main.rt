//! Cases of whole sessions: reads sessions from standard input in the form that the crate `session_scripts` tells,
//! runs each, and prints its status and what it wrote. What is wanted stands in the file `stdout`.
#![tactic(auto)]

use std::io;

fn main(rt: HostRuntime) -> io::Result<()> {
    let text = io::read_to_string(rt.alloc(), rt.reader())?;
    session_scripts::play_all(&rt, rt.alloc(), text.as_str())
}
