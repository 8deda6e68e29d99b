// Lines that are not UTF-8.
ghost use Rattle.std.specs.Prelude.{◌≡◌};
ghost use Rattle.std.specs.Option.{option_map};
ghost use Rattle.std.specs.Str.{is_utf8};
ghost use Rattle.spec_document.specs.Fault.{least};
ghost use Rattle.spec_edit.specs.Edit.{unread_lines};
ghost use Rattle.xt_edit.specs.View.{edit_of};
ghost use Rattle.xt_held.specs.Unread.{first_unread, unread_at};

use xt_edit::Edit;
use xt_io::Line;

/// The first line of the edit's body that is not UTF-8, from 1, where there is one.
pub(crate) fn unread_line(edit: &Edit) -> Option<u64>
    ensures { option_map unread_at result ≡ least (unread_lines (edit_of edit.now)) }
{
    match edit {
        Edit::Insert { body, .. } => first_unread(body.as_slice()),
        _ => None,
    }
}

fn first_unread(lines: &[Line]) -> Option<u64>
    ensures { result ≡ first_unread 1 lines.now }
{
    for (i, line) in lines.iter().enumerate() {
        if !is_text(line.as_bytes()) {
            return Some(i as u64 + 1);
        }
    }
    None
}

fn is_text(bytes: &[u8]) -> bool
    ensures { result ≡ is_utf8 bytes.now }
{
    str::from_utf8(bytes).is_ok()
}
