//! What xt believes about the text of numbers, as xsl:number writes it (XSLT 1.0, section 7.7.1): what a format is cut into,
//! the text of a list of numbers by a format, and which text is a size of groups. Laws stand on functions without a body.
//!
//! Read `specs/Format.antt`, and `specs/Examples.antt` for worked examples.
#![tactic(auto)]

mod laws;

pub use laws::a_format_is_cut_into_its_runs;

/// A token of a format, with the run of other characters that stands before it. `T` is the type of its texts.
#[derive(Drop)]
pub struct Part<T> {
    /// What stands before the token.
    pub before: T,
    /// The token: letters and digits alone, one at least.
    pub token: T,
}
