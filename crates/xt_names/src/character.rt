// Classes of characters (XML 1.0, fifth edition, productions 2 to 4a).
ghost use Rattle.std.specs.Prelude.{◌≡◌};
ghost use Rattle.spec_document.specs.Character as spec;

/// Whether it is an XML Char (production 2).
#[tactic(auto, unfolding(spec_document::specs::Character::is_char))]
pub fn is_char(character: char) -> bool
    ensures { result ≡ spec.is_char character }
{
    matches!(
        character,
        '\u{9}' | '\u{A}' | '\u{D}' | '\u{20}'..='\u{D7FF}' | '\u{E000}'..='\u{FFFD}' | '\u{10000}'..='\u{10FFFF}'
    )
}

/// Whether an NCName may begin with it (production 4, without the colon).
#[tactic(auto, unfolding(spec_document::specs::Character::is_name_start))]
pub fn is_name_start(character: char) -> bool
    ensures { result ≡ spec.is_name_start character }
{
    matches!(
        character,
        'A'..='Z'
            | '_'
            | 'a'..='z'
            | '\u{C0}'..='\u{D6}'
            | '\u{D8}'..='\u{F6}'
            | '\u{F8}'..='\u{2FF}'
            | '\u{370}'..='\u{37D}'
            | '\u{37F}'..='\u{1FFF}'
            | '\u{200C}'..='\u{200D}'
            | '\u{2070}'..='\u{218F}'
            | '\u{2C00}'..='\u{2FEF}'
            | '\u{3001}'..='\u{D7FF}'
            | '\u{F900}'..='\u{FDCF}'
            | '\u{FDF0}'..='\u{FFFD}'
            | '\u{10000}'..='\u{EFFFF}'
    )
}

/// Whether it may follow in an NCName (production 4a, without the colon).
#[tactic(auto, unfolding(spec_document::specs::Character::is_name_part))]
pub fn is_name_part(character: char) -> bool
    ensures { result ≡ spec.is_name_part character }
{
    is_name_start(character)
        || matches!(
            character,
            '-' | '.' | '0'..='9' | '\u{B7}' | '\u{300}'..='\u{36F}' | '\u{203F}'..='\u{2040}'
        )
}
