// What is kept of an instantiation.
ghost use Rattle.spec_run.specs.Trail.{IsTrue};
ghost use Rattle.spec_node.specs.Naming.{same_ref};
ghost use Rattle.xt_engine.specs.View.{call_of};
ghost use Rattle.xt_engine.specs.Advances.{ran_of};
ghost use Rattle.xt_record.specs.Kept.{kept_with};

use xt_engine::{Call, Ran};

/// What is kept of an instantiation that came to its end: its call, and what it came to. It goes along the plan of its
/// call, which looks at no world, so this never goes stale; only what was read may no longer hold.
#[derive(Drop)]
pub struct Record {
    pub call: Call,
    pub ran: Ran,
    pub ghost lasting: { ∥ IsTrue same_ref (kept_with (call_of call) (ran_of ran)) ∥₁ },
}
