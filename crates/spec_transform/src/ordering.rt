// Laws of sorting.
ghost use Rattle.std.specs.Prelude.{◌≡◌, ℕ, List};
ghost use Rattle.spec_transform.specs.Sorted.{Criterion, IsSorted, Row, in_order};

/// Sorting leaves all rows: none comes before its neighbour in front, and those that no key tells apart stay as they
/// stood (XSLT 1.0, section 10).
pub fn rows_are_sorted()
    ensures { (criteria : List Criterion) (rows : List (Row ℕ)) → IsSorted criteria rows (in_order criteria rows) }
{}

/// There is no other such list.
pub fn sorted_rows_are_one()
    ensures { (criteria : List Criterion) (rows one other : List (Row ℕ)) → IsSorted criteria rows one → IsSorted criteria rows other → one ≡ other }
{}
