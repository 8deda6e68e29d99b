// What a change has cost, in numbers.
ghost use Rattle.std.specs.Prelude.{◌≡◌};
ghost use Rattle.xt_held.specs.OutcomeView.{no_counts};

use xt_record::Steps;

/// What the last change has cost.
#[derive(Clone, Copy, Debug, PartialEq, Eq)]
pub struct Counts {
    /// How many instantiations were run.
    pub ran: u64,
    /// How many reads were asked again.
    pub asked: u64,
    /// How many instructions were done.
    pub did: u64,
}

/// What it takes to run nothing.
pub(crate) fn no_counts() -> Counts
    ensures { result ≡ no_counts }
{
    Counts {
        ran: 0,
        asked: 0,
        did: 0,
    }
}

/// What a run of so many steps took, whose engine did so many instructions.
pub(crate) fn counts_of(steps: Steps, did: u64) -> Counts
    ensures { result ≡ record { ran = steps.ran; asked = steps.asked; did = did } }
{
    Counts {
        ran: steps.ran,
        asked: steps.asked,
        did,
    }
}
