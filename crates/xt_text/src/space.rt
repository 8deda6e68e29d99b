// White space.
ghost use Rattle.std.specs.Prelude.{◌≡◌};
ghost use Rattle.spec_document.specs.Character as spec;

/// Whether it is white space (XML 1.0, production 3): space, tab, carriage return or line feed.
pub fn is_space(character: char) -> bool
    ensures { result ≡ spec.is_space character }
{
    matches!(character, ' ' | '\t' | '\r' | '\n')
}
