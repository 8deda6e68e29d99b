// The order of texts.
ghost use Rattle.std.specs.Prelude.{◌≡◌};
ghost use Rattle.std.specs.Ordering.{nat_cmp};
ghost use Rattle.std.specs.Cmp.Lexicographic.{slice_cmp};
ghost use Rattle.std.specs.Str.{chars};

use std::cmp::Ordering;

/// How the texts stand in the order of their characters' code points. Takes no memory.
pub fn compare(first: &str, second: &str) -> Ordering
    ensures { result ≡ slice_cmp nat_cmp (chars first.now) (chars second.now) }
{
    first.chars().cmp(second.chars())
}
