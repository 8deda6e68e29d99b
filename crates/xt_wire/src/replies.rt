// Replies.
use xt_base::{Code, EditCode, Place};
use xt_text::Text;

/// Why the transformation is refused, and where.
#[derive(Drop)]
pub struct Refusal {
    /// Why.
    pub code: Code,
    /// At which node of a module, or at none.
    pub place: Place,
}

/// A reply to one command.
#[derive(Drop)]
pub enum Reply {
    /// An accepted change; the transformation has a result.
    OkDone,
    /// An accepted change; the transformation is refused.
    OkRefused(Refusal),
    /// A change that is accepted in a batch, or a batch that is opened.
    OkPending,
    /// A batch that is dropped.
    OkDropped,
    /// There is no result to show: the transformation is refused.
    Refused(Refusal),
    /// The lines of a result or a document.
    Shown(Vec<Text>),
    /// The text of a result.
    Written(Text),
    /// How many instantiations were run, how many reads were asked again, and how many instructions were done.
    Counted { ran: u64, asked: u64, did: u64 },
    /// The command is refused.
    No(EditCode),
}
