// What may stand directly under a root: one element, and no text but white space.
ghost use Rattle.std.specs.Prelude.{◌≡◌, not, IfOk, OnOk};
ghost use Rattle.std.specs.List.{list_all};
ghost use Rattle.spec_document.specs.Character.{is_space};
ghost use Rattle.spec_document.specs.Fault.{least, fault_if};
ghost use Rattle.spec_document.specs.Top.{top_faults, elements_at_top, element_faults, text_faults};
ghost use Rattle.xt_build.specs.Least.{merged};
ghost use Rattle.xt_build.specs.Piece.{forest_in, IsWhole};
ghost use Rattle.xt_build.specs.View.{found_of, pieces_of};

use crate::Fault;
use crate::fault::keep_if;
use crate::piece::Piece;
use std::alloc::Global;
use xt_base::EditCode;
use xt_text::{Memory, Text, is_space};
use xt_tree::Content;

/// Finds the faults of siblings under a root that has so many elements besides; below an element, where
/// no number is said, there are none.
pub(crate) fn check_top(
    alloc: Global,
    pieces: &[Piece],
    others: Option<u64>,
    found: &mut Option<Fault>,
) -> Result<(), Memory>
    requires { IsWhole (pieces_of pieces.now) }
    ensures { OnOk result (found_of found.new ≡ merged (found_of found.old) (least (top_faults others (forest_in (pieces_of pieces.now))))) }
{
    let Some(others) = others else {
        return Ok(());
    };
    let elements = element_lines(alloc, pieces)?;
    check_elements(others, elements.as_slice(), found);
    check_texts(pieces, found);
    Ok(())
}

// The lines of the elements at the top.
fn element_lines(alloc: Global, pieces: &[Piece]) -> Result<Vec<u64>, Memory>
    requires { IsWhole (pieces_of pieces.now) }
    ensures { IfOk result (λ lines. lines.items ≡ elements_at_top (forest_in (pieces_of pieces.now))) }
{
    let mut lines = Vec::new(alloc);
    let mut level: usize = 0;
    for piece in pieces {
        match piece {
            Piece::Ends => level -= 1,
            Piece::Begins { line, content, .. } => {
                if let Content::Element { .. } = content {
                    if level == 0 {
                        lines.push(*line)?;
                    }
                    level += 1;
                }
            }
        }
    }
    Ok(lines)
}

// With the others there is to be one element. The first that is one too many has the fault, or no line
// where there is none.
fn check_elements(others: u64, lines: &[u64], found: &mut Option<Fault>)
    ensures { found_of found.new ≡ merged (found_of found.old) (least (element_faults others lines.now)) }
{
    let is_wrong = others.saturating_add(lines.len() as u64) != 1;
    let line = lines
        .get(1_u64.saturating_sub(others) as usize)
        .copied()
        .unwrap_or(0);
    keep_if(found, is_wrong, EditCode::Unbalanced, line);
}

// Finds the texts at the top that are not white space.
fn check_texts(pieces: &[Piece], found: &mut Option<Fault>)
    requires { IsWhole (pieces_of pieces.now) }
    ensures { found_of found.new ≡ merged (found_of found.old) (least (text_faults (forest_in (pieces_of pieces.now)))) }
{
    let mut level: usize = 0;
    for piece in pieces {
        match piece {
            Piece::Ends => level -= 1,
            Piece::Begins { line, content, .. } => match content {
                Content::Element { .. } => level += 1,
                Content::Text { text } => {
                    if level == 0 {
                        check_text(text, *line, found);
                    }
                }
                _ => {}
            },
        }
    }
}

// Finds the fault of a text at the top that begins on this line, where it is not white space.
fn check_text(text: &Text, line: u64, found: &mut Option<Fault>)
    ensures { found_of found.new ≡ merged (found_of found.old) (least (fault_if (not (list_all is_space text.now)) 9 line)) }
{
    keep_if(found, !is_white(text), EditCode::Unbalanced, line);
}

fn is_white(text: &Text) -> bool
    ensures { result ≡ list_all is_space text.now }
{
    text.as_str().chars().all(|c| is_space(c))
}
