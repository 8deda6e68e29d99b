// Records of what calls came to.
ghost use Rattle.std.specs.Prelude.{◌≡◌};
ghost use Rattle.spec_run.specs.Trail.{IsTrue};
ghost use Rattle.spec_node.specs.Naming.{same_ref};
ghost use Rattle.xt_engine.specs.View.{call_of};
ghost use Rattle.xt_engine.specs.Advances.{ran_of};
ghost use Rattle.xt_record.specs.Kept.{kept_with};
ghost use Rattle.xt_record.specs.View.{kept_in};

use crate::Record;
use xt_engine::{Call, Ran};

impl Record {
    /// Keeps what a call came to. Takes no memory.
    pub fn new(call: Call, mut ran: Ran) -> Record
        requires lasting { IsTrue same_ref (kept_with (call_of call) (ran_of ran)) }
        ensures { kept_in result ≡ kept_with (call_of call) (ran_of ran) }
    {
        // Records are many and stay, so they hold no room for more.
        ran.events.shrink_to_fit();
        Record { call, ran }
    }
}

/// A record goes along the plan of its call, whatever changes.
pub fn a_record_lasts(kept: &Record)
    ensures { IsTrue same_ref (kept_in kept.now) }
{
    let _ = kept;
}
