// What stands at the front of a text, character by character.
ghost use Rattle.std.specs.Prelude.{◌≡◌, [], ◌∷◌, MatchOption, false};
ghost use Rattle.std.specs.Str.{chars};
ghost use Rattle.spec_expression.specs.Token.{begins};
ghost use Rattle.xt_avt.specs.Front.{IsBehind};

/// The first character, and the text behind it. None of the empty text.
pub fn first_of(text: &str) -> Option<(char, &str)>
    ensures { MatchOption result (text.now ≡ []) (λ first. IsBehind first.0 first.1.now text.now) }
{
    let mut characters = text.chars();
    match characters.next() {
        Some(first) => Some((first, characters.as_str())),
        None => None,
    }
}

/// The text behind this character, where the text begins with it.
pub fn past(mark: char, text: &str) -> Option<&str>
    ensures { MatchOption result (begins mark (chars text.now) ≡ false) (λ rest. chars text.now ≡ mark ∷ chars rest.now) }
{
    match first_of(text) {
        Some((first, rest)) if first == mark => Some(rest),
        _ => None,
    }
}
