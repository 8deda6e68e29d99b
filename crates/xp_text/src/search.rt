// Where one text stands in another.
ghost use Rattle.std.specs.Prelude.{◌≡◌, IfOk};
ghost use Rattle.std.specs.Str.{chars};
ghost use Rattle.spec_expression.specs.Strings.{begins_with, is_within, text_before, text_after};

use std::alloc::Global;
use xt_text::{Memory, Text};

/// Whether the text begins with this start (`starts-with`). Every text begins with the empty one.
pub fn starts_with(text: &str, start: &str) -> bool
    ensures { result ≡ begins_with (chars text.now) (chars start.now) }
{
    text.starts_with(start)
}

/// Whether the part stands anywhere in the text (`contains`). The empty part stands in every text.
pub fn contains(text: &str, part: &str) -> bool
    ensures { result ≡ is_within (chars part.now) (chars text.now) }
{
    text.contains(part)
}

/// What stands before the first place of the part (`substring-before`), and nothing where it has none.
pub fn before(alloc: Global, text: &str, part: &str) -> Result<Text, Memory>
    ensures { IfOk result (λ t. t ≡ text_before (chars text.now) (chars part.now)) }
{
    match text.split_once(part) {
        Some((front, _)) => Text::from_str(alloc, front),
        None => Ok(Text::new(alloc)),
    }
}

/// What stands after the first place of the part (`substring-after`), and nothing where it has none.
pub fn after(alloc: Global, text: &str, part: &str) -> Result<Text, Memory>
    ensures { IfOk result (λ t. t ≡ text_after (chars text.now) (chars part.now)) }
{
    match text.split_once(part) {
        Some((_, back)) => Text::from_str(alloc, back),
        None => Ok(Text::new(alloc)),
    }
}
