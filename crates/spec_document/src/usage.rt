// What names of attributes are for, over texts and names of any type.

/// What the name of an attribute, as written, is for (Namespaces in XML 1.0, section 3). `T` is the type of
/// texts and `Q` that of QNames.
#[derive(Drop)]
pub enum AttributeUse<T, Q> {
    /// A namespace declaration: `xmlns`, for which the prefix is empty, or `xmlns:prefix`.
    Declares { prefix: T },
    /// An attribute of this name.
    Names { name: Q },
    /// The name is no QName.
    NoName,
}
