// Counts of what a change cost.
ghost use Rattle.std.specs.Prelude.{◌≡◌, ◌+◌, ◌-◌, ◌^◌, min};

/// What the last change cost.
#[derive(Clone, Copy, Debug, Default, PartialEq, Eq)]
pub struct Steps {
    /// How many instantiations were entered.
    pub ran: u64,
    /// How many reads were asked again.
    pub asked: u64,
}

impl Steps {
    /// Counts so many more instantiations. The count stays at its greatest value.
    pub fn add_ran(&mut self, more: u64)
        ensures { self.new ≡ record self.old { ran = min (self.old.ran + more) (2 ^ 64 - 1) } }
    {
        self.ran = self.ran.saturating_add(more);
    }

    /// Counts so many more reads. The count stays at its greatest value.
    pub fn add_asked(&mut self, more: u64)
        ensures { self.new ≡ record self.old { asked = min (self.old.asked + more) (2 ^ 64 - 1) } }
    {
        self.asked = self.asked.saturating_add(more);
    }
}
