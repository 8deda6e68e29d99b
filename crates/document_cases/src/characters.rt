// Classes of characters: `is-char`, `is-space`, `is-name-start`, `is-name-part`, each of code points in
// hexadecimal digits. A surrogate is no character: `none`.

use cases::{Fault, Word, push_part, push_yes, text_of};
use xt_names::{is_char, is_name_part, is_name_start};
use xt_text::{Text, is_space};

#[derive(Clone, Copy)]
enum Class {
    Char,
    Space,
    NameStart,
    NamePart,
}

/// Answers the call, if it is one of these.
pub fn answer(out: &mut Text, call: &str, words: &[Word]) -> Result<bool, Fault> {
    match class_of(call) {
        None => Ok(false),
        Some(class) => {
            for word in words {
                push_belongs(out, class, text_of(word)?)?;
            }
            Ok(true)
        }
    }
}

fn class_of(call: &str) -> Option<Class> {
    match call {
        "is-char" => Some(Class::Char),
        "is-space" => Some(Class::Space),
        "is-name-start" => Some(Class::NameStart),
        "is-name-part" => Some(Class::NamePart),
        _ => None,
    }
}

fn push_belongs(out: &mut Text, class: Class, digits: &str) -> Result<(), Fault> {
    let code = u32::from_str_radix(digits, 16).map_err(|_| Fault::NoCase)?;
    match char::from_u32(code) {
        None => push_part(out, "none")?,
        Some(character) => push_yes(out, belongs(class, character))?,
    }
    Ok(())
}

fn belongs(class: Class, character: char) -> bool {
    match class {
        Class::Char => is_char(character),
        Class::Space => is_space(character),
        Class::NameStart => is_name_start(character),
        Class::NamePart => is_name_part(character),
    }
}
