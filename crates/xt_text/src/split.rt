// Texts in two parts.
ghost use Rattle.std.specs.Prelude.{◌≡◌, ◌==◌, false, true, MatchOption};
ghost use Rattle.std.specs.List.{list_any, before_first, after_first};
ghost use Rattle.std.specs.Str.{chars};

/// What stands before the first `mark` and what stands behind it. None where there is no such
/// character. Takes no memory.
pub fn split_first(text: &str, mark: char) -> Option<(&str, &str)>
    ensures { MatchOption result (list_any (λ c. c == mark) (chars text.now) ≡ false)
        (λ parts. (list_any (λ c. c == mark) (chars text.now) ≡ true)
        × (chars parts.0.now ≡ before_first (λ c. c == mark) (chars text.now))
        × (chars parts.1.now ≡ after_first (λ c. c == mark) (chars text.now))) }
{
    text.split_once(mark)
}
