// Events, over texts of any type: definitions take lists of characters, the code its own texts.

/// What one PYX line says of a document. `T` is the type of its texts.
#[derive(Drop)]
pub enum Event<T> {
    /// The start of an element of this name.
    Start { name: T },
    /// An attribute, or a namespace declaration, of the element just started.
    Attribute { name: T, value: T },
    /// Character data.
    Data { text: T },
    /// A processing instruction.
    Instruction { target: T, text: T },
    /// The end of the element of this name.
    End { name: T },
    /// A comment.
    Comment { text: T },
}
