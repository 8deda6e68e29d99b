//! What the words of a command line ask of the program, as `clap` reads them: `xt session` a session, and `xt demo N` a
//! demonstration of a size from 1 to 1000.
//!
//! ```text
//! match read_words(alloc, &words)? {
//!     Asked::Session => serve(..),
//!     Asked::Demonstration(size) => demonstrate(size),
//!     Asked::Nothing => usage(),
//! }
//! ```
#![tactic(auto)]

mod words;

pub use words::read_words;
