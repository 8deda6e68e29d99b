// The generator of a session's commands.
ghost use Rattle.std.specs.Prelude.{◌≡◌, ◌≤◌, ◌∷◌, [], IfOk, IfSome, IfNone, OnErr};
ghost use Rattle.spec_session.specs.Generated.{generated};

use crate::change::Place;
use crate::command::GeneratedCommand;
use crate::draws::Draws;
use crate::first::{module, show, source};
use std::alloc::Global;
use std::marker::Model;
use xt_text::Memory;

/// What comes next in a session.
#[derive(Clone, Copy)]
pub(crate) enum Next {
    /// The stylesheet of a session of this size.
    Module(u16),
    /// The source of a session of this size.
    Source(u16),
    /// The changes that are left, and the request to show the result.
    Changes(Place),
    /// Nothing.
    Nothing,
}

/// Gives the commands of a generated session, one after another. Contracts see those that are left.
#[derive(Drop)]
pub struct Gen {
    next: Next,
}

impl Model for Gen {
    ghost use Rattle.std.specs.Prelude.{List};
    ghost use Rattle.spec_session.specs.Command.{Command};
    ghost use Rattle.xt_demo.specs.Left.{IsReady, commands_left};

    ghost Value = { List Command };

    ghost view = { λ commands. commands_left commands.next };

    ghost invariant = { λ commands. IsReady commands.next };
}

impl Gen {
    /// All commands of the session of this size, from 1 to 1000.
    pub fn new(size: u16) -> Gen
        requires least { 1 ≤ size }
        requires most { size ≤ 1000 }
        ensures { result ≡ generated size }
    {
        Gen {
            next: Next::Module(size),
        }
    }

    /// The next command, or none behind the last. After want of memory the same command is next.
    pub fn next(&mut self, alloc: Global) -> Result<Option<GeneratedCommand>, Memory>
        ensures some { IfOk result (λ next. IfSome next (λ command. self.old ≡ command ∷ self.new)) }
        ensures none { IfOk result (λ next. IfNone next ((self.old ≡ []) × (self.new ≡ []))) }
        ensures err { OnErr result (self.new ≡ self.old) }
    {
        match self.next {
            Next::Module(size) => {
                let command = module(alloc)?;
                self.next = Next::Source(size);
                Ok(Some(command))
            }
            Next::Source(size) => {
                let mut draws = Draws::new(size);
                let rows = 20 * u32::from(size);
                let command = source(alloc, rows, &mut draws)?;
                self.next = Next::Changes(Place {
                    number: 1,
                    left: 10 * u32::from(size),
                    draws,
                    rows,
                });
                Ok(Some(command))
            }
            Next::Changes(place) if place.left > 0 => {
                let (command, place) = place.change(alloc)?;
                self.next = Next::Changes(place);
                Ok(Some(command))
            }
            Next::Changes(_) => {
                let command = show(alloc)?;
                self.next = Next::Nothing;
                Ok(Some(command))
            }
            Next::Nothing => Ok(None),
        }
    }
}
