// Languages of nodes.
ghost use Rattle.std.specs.Prelude.{◌≡◌};
ghost use Rattle.std.specs.Str.{chars};
ghost use Rattle.spec_expression.specs.Strings.{is_language};

/// Whether a node of the language `lang` has the wanted one (XPath 1.0, 4.3, `lang`): `lang` is it, or begins
/// with it and `-`. The case of ASCII letters is ignored.
pub fn lang_matches(lang: &str, wanted: &str) -> bool
    ensures { result ≡ is_language (chars lang.now) (chars wanted.now) }
{
    let (lang, wanted) = (lang.as_bytes(), wanted.as_bytes());
    if lang.len() < wanted.len() {
        return false;
    }
    let (front, rest) = lang.split_at(wanted.len());
    front.eq_ignore_ascii_case(wanted) && (rest.is_empty() || rest[0] == b'-')
}
