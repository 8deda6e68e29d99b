// What runs instantiations.
ghost use Rattle.std.specs.Prelude.{◌≡◌, ℕ, suc, IfOk, OnOk, OnErr};
ghost use Rattle.xt_engine.specs.View.{call_of};
ghost use Rattle.xt_engine.specs.Progress.{Progress, started};
ghost use Rattle.xt_engine.specs.Advances.{Advances, gift_of};

use crate::{Call, Entered, RunFault, Turn};
use std::alloc::Global;
use xt_questions::World;
use xt_text::Memory;

/// What runs instantiations, each as far as the next that it enters, or the next global that it needs.
pub trait Engine {
    type Run: Drop;

    /// How far a run has come, and what is left of it.
    ghost progress: { Self.Run → Progress };

    /// How many were started.
    ghost entered: { Self → ℕ };

    /// Starts one instantiation, with so many levels below its own.
    fn start(&mut self, alloc: Global, call: &Call, room: u64) -> Result<Self::Run, Memory>
        ensures started { IfOk result (λ run. progress run ≡ started (call_of call.now) room) }
        ensures ok { OnOk result (entered self.new ≡ suc (entered self.old)) }
        ensures err { OnErr result (entered self.new ≡ entered self.old) };

    /// Goes on with what was wanted last, up to the end, to the next instantiation that is entered, or to the
    /// next global that an expression needs and that is not at hand. After its end, and after an error, the
    /// run is over.
    fn resume<W: World>(
        &mut self,
        alloc: Global,
        run: &mut Self::Run,
        given: Option<Entered>,
        world: &mut W,
    ) -> Result<Turn, RunFault>
        ensures advances { Advances (W.state world.old).truth (gift_of given) (progress run.old) (progress run.new) result }
        ensures truth { (W.state world.new).truth ≡ (W.state world.old).truth }
        ensures name { W.name world.new ≡ W.name world.old }
        ensures entered { entered self.new ≡ entered self.old };
}
