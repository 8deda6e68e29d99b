// Nodes in the order of their keys.
ghost use Rattle.std.specs.Prelude.{◌≡◌, map, IfOk};
ghost use Rattle.spec_transform.specs.Sorted as plain;
ghost use Rattle.xt_sort.specs.View.{criterion_of, row_of};

use crate::comparing::compare_rows;
use crate::row::{Criterion, Row};
use std::alloc::Global;
use xt_text::Memory;
use xt_tree::NodeRef;

/// The nodes in the order of their keys (XSLT 1.0, section 10); nodes whose keys tie stay in the order of the
/// rows. Takes k log k comparisons for k rows, and k where they stand in order already, as those without a key.
pub fn nodes_in_order(
    alloc: Global,
    criteria: &[Criterion],
    rows: Vec<Row>,
) -> Result<Vec<NodeRef>, Memory>
    ensures { IfOk result (λ nodes. nodes.items ≡ plain.nodes_in_order (map criterion_of criteria.now) (map row_of rows.items)) }
{
    let rows = in_order(criteria, rows)?;
    nodes_of(alloc, rows.as_slice())
}

// The rows in order.
fn in_order(criteria: &[Criterion], mut rows: Vec<Row>) -> Result<Vec<Row>, Memory>
    ensures { IfOk result (λ sorted. map row_of sorted.items ≡ plain.in_order (map criterion_of criteria.now) (map row_of rows.items)) }
{
    rows.sort_by(|first, second| compare_rows(criteria, first, second))?;
    Ok(rows)
}

// The nodes without their keys.
fn nodes_of(alloc: Global, rows: &[Row]) -> Result<Vec<NodeRef>, Memory>
    ensures { IfOk result (λ nodes. nodes.items ≡ map (λ r. r.node) (map row_of rows.now)) }
{
    let mut nodes = Vec::with_capacity(alloc, rows.len())?;
    for row in rows {
        nodes.push(row.node)?;
    }
    Ok(nodes)
}
