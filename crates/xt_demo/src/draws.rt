// Numbers that are drawn.
ghost use Rattle.std.specs.Prelude.{◌≡◌, ◌<◌, ◌+◌};
ghost use Rattle.spec_session.specs.Generated.{drawn, next_state, row_drawn};

/// Draws numbers, each from the state that the one before left.
#[derive(Clone, Copy)]
pub(crate) struct Draws {
    state: u32,
}

impl Draws {
    /// The draws of a session of this size.
    pub(crate) fn new(size: u16) -> Draws
        ensures { result.state ≡ size }
    {
        Draws {
            state: u32::from(size),
        }
    }

    // A number below the bound.
    fn draw(&mut self, bound: u32) -> u32
        requires { 0 < bound }
        ensures state { self.new.state ≡ next_state self.old.state }
        ensures number { result ≡ drawn self.new.state bound }
        ensures below { result < bound }
    {
        let next = (u64::from(self.state) * 1_103_515_245 + 12_345) % 2_147_483_648;
        self.state = next as u32;
        self.state / 65_536 % bound
    }

    /// A value of three digits.
    pub(crate) fn value(&mut self) -> u32
        ensures state { self.new.state ≡ next_state self.old.state }
        ensures value { result ≡ 100 + drawn self.new.state 900 }
    {
        100 + self.draw(900)
    }

    /// The number of one of so many rows, from 1.
    pub(crate) fn row(&mut self, rows: u32) -> u32
        requires { 0 < rows }
        ensures state { self.new.state ≡ next_state self.old.state }
        ensures row { result ≡ row_drawn self.new.state rows }
    {
        1 + self.draw(rows)
    }
}
