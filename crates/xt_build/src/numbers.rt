// The numbers of nodes, which are below 2^62.
ghost use Rattle.std.specs.Prelude.{◌≡◌, ◌==◌, ◌&&◌, ◌∷◌, [], map, is_some};
ghost use Rattle.spec_document.specs.Forest.{labels};
ghost use Rattle.spec_document.specs.Fault.{least};
ghost use Rattle.spec_document.specs.Top.{kept};
ghost use Rattle.spec_document.specs.Numbering.{number_faults};
ghost use Rattle.xt_build.specs.Least.{merged};
ghost use Rattle.xt_build.specs.Left.{is_text};
ghost use Rattle.xt_build.specs.Piece.{forest_in, IsWhole};
ghost use Rattle.xt_build.specs.View.{found_of, pieces_of};
ghost use Rattle.xt_tree.specs.View.{content_of};

use crate::Fault;
use crate::fault::keep_if;
use crate::piece::Piece;
use xt_base::EditCode;
use xt_tree::Content;

// The first number that no node may have.
const NUMBER_LIMIT: u64 = 1 << 62;

/// Finds the nodes for which no number is left, where they are numbered from `first` on. Under a root,
/// which is said by the number of its other elements, texts at the top are dropped and have none.
pub(crate) fn check_numbers(
    pieces: &[Piece],
    others: Option<u64>,
    first: u64,
    found: &mut Option<Fault>,
)
    requires { IsWhole (pieces_of pieces.now) }
    ensures { found_of found.new ≡ merged (found_of found.old) (least (number_faults first (map (λ l. l.first) (labels (kept others (forest_in (pieces_of pieces.now))))))) }
{
    let mut next = first;
    let mut level: usize = 0;
    for piece in pieces {
        match piece {
            Piece::Ends => level -= 1,
            Piece::Begins { line, content, .. } => {
                if !is_dropped(others, level, content) {
                    check_number(next, *line, found);
                    next = next.saturating_add(1);
                }
                if let Content::Element { .. } = content {
                    level += 1;
                }
            }
        }
    }
}

/// Whether a node is a text at the top of a root.
pub(crate) fn is_dropped(others: Option<u64>, level: usize, content: &Content) -> bool
    ensures { result ≡ (is_text (content_of content.now) && (level == 0) && is_some others) }
{
    match content {
        Content::Text { .. } => level == 0 && others.is_some(),
        Content::Element { .. } | Content::Comment { .. } | Content::Instruction { .. } => false,
    }
}

/// Finds the fault of a node that begins on this line, where this is no number for it.
pub(crate) fn check_number(number: u64, line: u64, found: &mut Option<Fault>)
    ensures { found_of found.new ≡ merged (found_of found.old) (least (number_faults number (line ∷ []))) }
{
    let is_beyond = number >= NUMBER_LIMIT;
    keep_if(found, is_beyond, EditCode::TooManyNodes, line);
}
