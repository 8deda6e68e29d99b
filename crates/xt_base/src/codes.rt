// The codes of refused commands. Each variant stands for one number of the replies.
ghost use Rattle.std.specs.Prelude.{◌≡◌};
ghost use Rattle.xt_base.specs.Code.{edit_number};

/// Why a command is refused: the reply is `no` and the number.
#[derive(Clone, Copy, Debug, PartialEq, Eq)]
pub enum EditCode {
    /// Want of memory.
    Memory = 1,
    /// The command's line or a line of its body is not UTF-8.
    NotUtf8 = 2,
    /// The first word is no command.
    UnknownCommand = 3,
    /// The arguments do not have the command's form.
    BadArguments = 4,
    /// The named document is not held.
    NoDocument = 5,
    /// The path leaves the raw tree, or what it names there is not there.
    NoPlace = 6,
    /// The node at the path has a kind that the command does not allow.
    WrongKind = 7,
    /// A line begins with none of the marks of PYX, or a character is no XML Char.
    BadLine = 8,
    /// The lines are not balanced, or the document would not have one document element and white space alone beside it.
    Unbalanced = 9,
    /// A name is no QName, a prefix has no declaration in scope, or a declaration is barred.
    BadName = 10,
    /// An element would stand below the greatest depth.
    TooDeep = 11,
    /// No number is left for a new node.
    TooManyNodes = 12,
    /// An element would have two attributes or declarations of one name.
    DoubleAttribute = 14,
    /// A node would move below itself.
    MoveBelowItself = 15,
    /// A batch is open already.
    BatchOpen = 16,
    /// No batch is open.
    NoBatch = 17,
    /// A shared module would change while a batch is open.
    SharedInBatch = 18,
    /// Nothing is to undo.
    NothingToUndo = 19,
    /// Nothing is to redo.
    NothingToRedo = 20,
}

impl EditCode {
    /// The number in the reply, from 1 to 20; 13 is none.
    pub fn number(self) -> u8
        ensures { result ≡ edit_number self }
    {
        self as u8
    }
}
