// The names of the templates of contents.
ghost use Rattle.std.specs.Prelude.{◌≡◌, ◌++◌, ◌∷◌, IfOk, OnOk, decimal};
ghost use Rattle.std.specs.Str.{chars};
ghost use Rattle.spec_items.specs.Lifted as lifted;
ghost use Rattle.xt_syntax.specs.PartView.{place_of};

use itoa::Buffer;
use std::alloc::Global;
use xt_base::Place;
use xt_names::Expanded;
use xt_text::{Memory, Path, Text};

/// The name of the template of the xsl:for-each at this place.
pub(crate) fn item_name(alloc: Global, place: &Place) -> Result<Expanded, Memory>
    ensures { IfOk result (λ name. name ≡ lifted.item_name (place_of place.now)) }
{
    let uri = reserved_uri(alloc, &place.module)?;
    let local = path_text(alloc, &place.path)?;
    Ok(Expanded::new(uri, local))
}

// A URI that no document can write: the name of the module behind a character that is none of XML.
fn reserved_uri(alloc: Global, name: &Option<Text>) -> Result<Text, Memory>
    ensures { IfOk result (λ uri. uri ≡ 0 ∷ lifted.text_of name.now) }
{
    let mut uri = Text::new(alloc);
    uri.push('\0')?;
    uri.push_str(name_text(name))?;
    Ok(uri)
}

fn name_text(name: &Option<Text>) -> &str
    ensures { chars result.now ≡ lifted.text_of name.now }
{
    match name {
        None => "",
        Some(name) => name.as_str(),
    }
}

// The numbers of a path, each behind a slash.
fn path_text(alloc: Global, path: &Path) -> Result<Text, Memory>
    ensures { IfOk result (λ text. text ≡ lifted.path_text path.now) }
{
    let mut text = Text::new(alloc);
    for position in path.positions() {
        push_step(&mut text, *position)?;
    }
    Ok(text)
}

fn push_step(text: &mut Text, position: u64) -> Result<(), Memory>
    ensures { OnOk result (text.new ≡ text.old ++ (0x2F ∷ decimal position)) }
{
    text.push('/')?;
    push_number(text, position)
}

// Adds the decimal digits of a number.
fn push_number(text: &mut Text, number: u64) -> Result<(), Memory>
    ensures { OnOk result (text.new ≡ text.old ++ decimal number) }
{
    text.push_str(Buffer::new().format(number))
}
