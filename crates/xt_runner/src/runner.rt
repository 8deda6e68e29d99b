// The engine.
ghost use Rattle.std.specs.Prelude.{◌≡◌};
ghost use Rattle.xt_engine.specs.Advances.{Advances, gift_of};
ghost use Rattle.xt_frames.specs.Left.{progress_of};

use crate::go::{go, go_on_call, go_on_global, start};
use std::alloc::Global;
use std::mem;
use xt_engine::{Call, Engine, Entered, RunFault, Turn};
use xt_frames::{Run, Waiting};
use xt_questions::World;
use xt_text::Memory;

/// An engine that runs instantiations step by step, and counts those that it starts, and the instructions that these
/// perform.
#[derive(Drop)]
pub struct Runner {
    pub entered: u64,
    /// How many instructions were performed. The count stays at its greatest value.
    pub did: u64,
}

impl Runner {
    ghost use Rattle.std.specs.Prelude.{◌≡◌};

    /// Nothing is started yet.
    pub const fn new() -> Runner
        ensures entered { result.entered ≡ 0 }
        ensures did { result.did ≡ 0 }
    {
        Runner { entered: 0, did: 0 }
    }
}

/// Goes on with what was wanted last.
fn resume<W: World>(
    alloc: Global,
    run: &mut Run,
    given: Option<Entered>,
    world: &mut W,
) -> Result<Turn, RunFault>
    ensures advances { Advances (W.state world.old).truth (gift_of given) (progress_of run.old) (progress_of run.new) result }
    ensures truth { (W.state world.new).truth ≡ (W.state world.old).truth }
    ensures name { W.name world.new ≡ W.name world.old }
{
    match mem::replace(&mut run.waiting, Waiting::Nothing) {
        Waiting::Nothing => {
            drop(given);
            go(alloc, run, world)
        }
        Waiting::ForCall(call, depth) => go_on_call(alloc, run, call, depth, given, world),
        Waiting::ForGlobal(name, depth, place) => {
            go_on_global(alloc, run, name, depth, place, given, world)
        }
    }
}

impl Engine for Runner {
    type Run = Run;

    ghost use Rattle.xt_frames.specs.Left.{progress_of};

    ghost progress = { progress_of };

    ghost entered = { λ r. r.entered };

    fn start(&mut self, alloc: Global, call: &Call, room: u64) -> Result<Run, Memory> {
        if self.entered == u64::MAX {
            return Err(Memory);
        }
        let run = start(alloc, call, room)?;
        self.entered += 1;
        Ok(run)
    }

    fn resume<W: World>(
        &mut self,
        alloc: Global,
        run: &mut Run,
        given: Option<Entered>,
        world: &mut W,
    ) -> Result<Turn, RunFault> {
        let turn = resume(alloc, run, given, world);
        self.did = self.did.saturating_add(run.did);
        run.did = 0;
        turn
    }
}
