// Output methods, over names of any type.

/// An output method (XSLT 1.0, section 16). `E` is the type of expanded names.
#[derive(Drop)]
pub enum Method<E> {
    Xml,
    Html,
    Text,
    /// A name with a prefix.
    Other(E),
}
