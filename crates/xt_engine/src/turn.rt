// What a run is given, and what it wants.
use crate::{Call, Ran, Refused};
use std::alloc::{AllocError, AllocFailed};
use std::rc::Rc;
use xt_base::Place;
use xt_names::Expanded;
use xt_text::Memory;
use xt_tree::{Items, Value};

/// What a run is given for what it wanted last.
#[derive(Drop)]
pub enum Entered {
    /// The stream of the instantiation.
    Stream(Rc<Items>),
    /// The value of the global.
    Value(Value),
    /// The instantiation or the global was refused; with the stream before the refusal.
    Refused(Refused, Rc<Items>),
    /// The global is being evaluated.
    UnderWay,
}

/// How far a run came.
#[derive(Drop)]
pub enum Turn {
    /// To an instantiation that it enters, from a content so deep below its level.
    Want(Rc<Call>, u64),
    /// To a global that an expression at this element needs, in a content so deep.
    WantGlobal(Expanded, u64, Place),
    /// To its end.
    Done(Ran),
}

/// Why a run ends with nothing.
#[derive(Drop)]
pub enum RunFault {
    /// Want of memory.
    Memory,
    /// A refusal, with the stream before it, in which nothing is a hole.
    Refused(Refused, Rc<Items>),
}

impl From<Memory> for RunFault {
    ghost use Rattle.std.specs.Prelude.{◌≡◌};
    ghost use Rattle.xt_engine.specs.declared.turn.RunFault.TheVariants as fault;

    ghost from_gives = { λ _ e. e ≡ fault.Memory };

    fn from(_error: Memory) -> Self {
        RunFault::Memory
    }
}

impl From<AllocError> for RunFault {
    ghost use Rattle.std.specs.Prelude.{◌≡◌};
    ghost use Rattle.xt_engine.specs.declared.turn.RunFault.TheVariants as fault;

    ghost from_gives = { λ _ e. e ≡ fault.Memory };

    fn from(_error: AllocError) -> Self {
        RunFault::Memory
    }
}

impl<T: Drop> From<AllocFailed<T>> for RunFault {
    ghost use Rattle.std.specs.Prelude.{◌≡◌};
    ghost use Rattle.xt_engine.specs.declared.turn.RunFault.TheVariants as fault;

    ghost from_gives = { λ _ e. e ≡ fault.Memory };

    fn from(_error: AllocFailed<T>) -> Self {
        RunFault::Memory
    }
}
