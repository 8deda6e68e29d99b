// Where records stand in a search.
ghost use Rattle.std.specs.Prelude.{◌≡◌, ◌<◌, ◌++◌, ℕ, List};
ghost use Rattle.std.specs.declared.rc.Rc.{Rc};
ghost use Rattle.std.specs.declared.alloc.Global.{Global};
ghost use Rattle.xt_record.specs.Asked.{Judges};
ghost use Rattle.xt_record.specs.Search.{StandOn, Stands};
ghost use Rattle.xt_record.specs.declared.record.Record.{Record};

use crate::Reuse;

/// No two records stand at one place, and each stands where it stood, whatever is judged and kept after it.
pub fn a_record_stands(before: &Reuse<'_>, after: &Reuse<'_>)
    ensures above { (at : ℕ) (r : Record) → Stands before.now at r → 0 < at }
    ensures once { (at : ℕ) (one other : Record) → Stands before.now at one → Stands before.now at other → one ≡ other }
    ensures judged { Judges before.now after.now → StandOn before.now after.now }
    ensures kept { (more : List (Rc Record Global)) → after.now.last ≡ before.now.last → after.now.kept.records.items ≡ before.now.kept.records.items ++ more → StandOn before.now after.now }
{
    // No list is so long that a place is 0.
    let _ = before.last.count();
    let _ = after;
}
