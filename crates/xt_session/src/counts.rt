// Counts of replies.
ghost use Rattle.std.specs.Prelude.{◌≡◌, ◌<◌};
ghost use Rattle.xt_session.specs.Counting.{Counted, IsSmall};

/// How many replies there are, how many of them begin with `ok ` and with `no `, and how many bytes they have.
#[derive(Clone, Copy)]
pub(crate) struct Counts {
    pub all: u16,
    pub accepted: u16,
    pub refused: u16,
    pub bytes: u128,
}

impl Counts {
    /// No replies.
    pub(crate) fn new() -> Counts
        ensures none { result ≡ record { all = 0; accepted = 0; refused = 0; bytes = 0 } }
        ensures small { IsSmall result }
    {
        Counts {
            all: 0,
            accepted: 0,
            refused: 0,
            bytes: 0,
        }
    }

    /// Counts a reply of these bytes.
    pub(crate) fn count(&mut self, reply: &[u8])
        requires small { IsSmall self.old }
        requires room { self.old.all < 65535 }
        ensures counted { Counted self.old reply.now self.new }
        ensures small { IsSmall self.new }
    {
        self.all += 1;
        self.accepted += u16::from(reply.starts_with(b"ok "));
        self.refused += u16::from(reply.starts_with(b"no "));
        self.bytes += reply.len() as u128;
    }
}
