// From pieces to nodes.
ghost use Rattle.std.specs.Prelude.{◌≡◌, ◌+◌, ◌<◌, ◌^◌, IfOk};
ghost use Rattle.spec_document.specs.Forest.{numbered, size};
ghost use Rattle.spec_document.specs.Top.{kept};
ghost use Rattle.xt_build.specs.Piece.{forest_in, IsWhole};
ghost use Rattle.xt_build.specs.View.{pieces_of};

use crate::BuiltNodes;
use crate::numbers::is_dropped;
use crate::piece::Piece;
use std::alloc::Global;
use xt_text::Memory;
use xt_tree::{Content, Kind, NodeId, Nodes};

// An element that is open: its number, what it is, and the siblings before it.
#[derive(Drop)]
struct Open {
    number: u64,
    content: Content,
    before: Nodes,
}

/// The nodes of the pieces, numbered in document order from `first` on, and the next number. Texts at
/// the top of a root are dropped.
pub(crate) fn make_nodes(
    alloc: Global,
    pieces: Vec<Piece>,
    others: Option<u64>,
    first: u64,
) -> Result<BuiltNodes, Memory>
    requires whole { IsWhole (pieces_of pieces.items) }
    requires numbers { first + size (kept others (forest_in (pieces_of pieces.items))) < 2 ^ 64 }
    ensures nodes { IfOk result (λ built. built.nodes ≡ numbered first (kept others (forest_in (pieces_of pieces.items)))) }
    ensures next { IfOk result (λ built. built.next.number ≡ first + size (kept others (forest_in (pieces_of pieces.items)))) }
{
    let mut next = first;
    let mut open: Vec<Open> = Vec::new(alloc);
    let mut nodes = Nodes::new(alloc);
    for piece in pieces {
        match piece {
            Piece::Ends => {
                if let Some(element) = open.pop() {
                    let id = NodeId {
                        number: element.number,
                    };
                    let children = nodes;
                    nodes = element.before;
                    nodes.push(alloc, id, element.content, children)?;
                }
            }
            Piece::Begins {
                line: _line,
                attribute_lines: _lines,
                content,
            } => {
                if is_dropped(others, open.len(), &content) {
                    continue;
                }
                if content.kind() == Kind::Element {
                    open.push(Open {
                        number: next,
                        content,
                        before: nodes,
                    })?;
                    nodes = Nodes::new(alloc);
                } else {
                    let id = NodeId { number: next };
                    nodes.push(alloc, id, content, Nodes::new(alloc))?;
                }
                next += 1;
            }
        }
    }
    Ok(BuiltNodes {
        nodes,
        next: NodeId { number: next },
    })
}
