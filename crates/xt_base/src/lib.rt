//! What the expressions and the session of xt stand on: numbers, places, counts of steps, and the codes of
//! all refusals.
//!
//! ```text
//! let seven = Num::read(" 7 ")?;
//! seven.div(Num::whole(2)?)           // Err(NumFault::Fraction)
//! ```
#![tactic(auto)]

mod codes;
mod num;
mod place;
mod reading;
mod steps;

pub use codes::EditCode;
pub use num::{GREATEST, Num, NumFault};
pub use place::Place;
pub use reading::numeral;
pub use spec_expression::{Code, DynCode, StaticCode};
pub use steps::Steps;
