// Laws of the machine, which hold of the definitions alone.
ghost use Rattle.std.specs.Prelude.{◌≡◌, ◌≢◌, List, Ok};
ghost use Rattle.spec_session.specs.Command.{Command};
ghost use Rattle.spec_session.specs.Machine.{initial, Run, State, Step};
ghost use Rattle.spec_session.specs.Reply.{No, Reply};
ghost use Rattle.spec_session.specs.Request.{Statistics, request_of};

use spec_run::{no_want_of_outcome, one_outcome};

/// No command lacks a step from a state that a run comes to, other than for want of memory. Which step a change (an
/// edit by path is one), `show`, `write` or `messages` has follows from whether texts are expressions, which is not
/// decided here: it cannot be that there is none.
pub fn each_command_has_a_step()
    ensures { (commands : List Command) (replies : List Reply) (old : State) (command : Command) → Run initial commands replies old → ¬ (¬ ((reply : Reply) × (new : State) × Step old command reply new × (reply ≢ No 1))) }
{
    no_want_of_outcome();
}

/// Two steps of one state and command, neither for want of memory, have one new state, and for each other command than `stats`
/// one reply. Which numbers `stats` tells is left open.
pub fn steps_agree()
    ensures replies { (old : State) (command : Command) (reply other : Reply) (new another : State) → request_of command ≢ Ok Statistics →
        Step old command reply new → Step old command other another → reply ≢ No 1 → other ≢ No 1 → reply ≡ other }
    ensures states { (old : State) (command : Command) (reply other : Reply) (new another : State) →
        Step old command reply new → Step old command other another → reply ≢ No 1 → other ≢ No 1 → new ≡ another }
{
    one_outcome();
}
