// The codes of refused texts.

use cases::push_number;
use xt_base::StaticCode;
use xt_text::{Memory, Text};

/// Adds the code of a refusal, in two digits, as `S03` or `S10`.
pub fn push_code(out: &mut Text, code: StaticCode) -> Result<(), Memory> {
    let number = code.number();
    out.push_str(if number < 10 { "S0" } else { "S" })?;
    push_number(out, u64::from(number))
}
