// From what stands behind the word of an edit to the edit.
ghost use Rattle.std.specs.Prelude.{[]};
ghost use Rattle.spec_session.specs.Request.{attribute_form, delete_form, insert_form, move_form, rename_form, text_form, unattribute_form};
ghost use Rattle.xt_wire.specs.View.{HasForm, rest_of};

use crate::command::Command;
use crate::fault::WireFault;
use crate::path::read_path;
use crate::target::{Target, read_target};
use crate::word::{next_word, only_word, read_value};
use std::alloc::Global;
use xt_io::Line;
use xt_text::Text;

/// `insert` with a body: a document and a path, and nothing behind them.
pub(crate) fn read_insert(
    alloc: Global,
    rest: Option<&str>,
    body: Vec<Line>,
) -> Result<Command, WireFault>
    ensures { HasForm result (insert_form (rest_of rest.entry) body.items) }
{
    let Target {
        document,
        path,
        rest,
    } = read_target(alloc, rest)?;
    if rest.is_some() {
        return Err(WireFault::BadArguments);
    }
    Ok(Command::Insert(document, path, body))
}

/// `delete`: a document and a path, and nothing behind them.
pub(crate) fn read_delete(alloc: Global, rest: Option<&str>) -> Result<Command, WireFault>
    ensures { HasForm result (delete_form (rest_of rest.entry) []) }
{
    let Target {
        document,
        path,
        rest,
    } = read_target(alloc, rest)?;
    if rest.is_some() {
        return Err(WireFault::BadArguments);
    }
    Ok(Command::Delete(document, path))
}

/// `text`: a document, a path and a value.
pub(crate) fn read_set_text(alloc: Global, rest: Option<&str>) -> Result<Command, WireFault>
    ensures { HasForm result (text_form (rest_of rest.entry) []) }
{
    let Target {
        document,
        path,
        rest,
    } = read_target(alloc, rest)?;
    let value = read_value(alloc, rest)?;
    Ok(Command::SetText(document, path, value))
}

/// `attr`: a document, a path, a name and a value.
pub(crate) fn read_set_attribute(alloc: Global, rest: Option<&str>) -> Result<Command, WireFault>
    ensures { HasForm result (attribute_form (rest_of rest.entry) []) }
{
    let Target {
        document,
        path,
        rest,
    } = read_target(alloc, rest)?;
    let Some(words) = next_word(rest) else {
        return Err(WireFault::BadArguments);
    };
    let name = Text::from_str(alloc, words.first)?;
    let value = read_value(alloc, words.rest)?;
    Ok(Command::SetAttribute(document, path, name, value))
}

/// `unattr`: a document, a path and a name, and nothing behind them.
pub(crate) fn read_remove_attribute(alloc: Global, rest: Option<&str>) -> Result<Command, WireFault>
    ensures { HasForm result (unattribute_form (rest_of rest.entry) []) }
{
    let Target {
        document,
        path,
        rest,
    } = read_target(alloc, rest)?;
    let Some(name) = only_word(rest) else {
        return Err(WireFault::BadArguments);
    };
    let name = Text::from_str(alloc, name)?;
    Ok(Command::RemoveAttribute(document, path, name))
}

/// `rename`: a document, a path and a name, and nothing behind them.
pub(crate) fn read_rename(alloc: Global, rest: Option<&str>) -> Result<Command, WireFault>
    ensures { HasForm result (rename_form (rest_of rest.entry) []) }
{
    let Target {
        document,
        path,
        rest,
    } = read_target(alloc, rest)?;
    let Some(name) = only_word(rest) else {
        return Err(WireFault::BadArguments);
    };
    let name = Text::from_str(alloc, name)?;
    Ok(Command::Rename(document, path, name))
}

/// `move`: a document and two paths, and nothing behind them.
pub(crate) fn read_move(alloc: Global, rest: Option<&str>) -> Result<Command, WireFault>
    ensures { HasForm result (move_form (rest_of rest.entry) []) }
{
    let Target {
        document,
        path,
        rest,
    } = read_target(alloc, rest)?;
    let Some(place) = only_word(rest) else {
        return Err(WireFault::BadArguments);
    };
    let Some(other) = read_path(alloc, place)? else {
        return Err(WireFault::BadArguments);
    };
    Ok(Command::Move {
        document,
        path,
        other,
    })
}
