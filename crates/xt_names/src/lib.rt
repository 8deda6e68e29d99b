//! Characters and names of XML, and the namespaces in scope (XML 1.0, fifth edition; Namespaces in
//! XML 1.0).
//!
//! ```text
//! let mut scope = Scope::root(alloc)?;
//! scope.bind(alloc, "p", "urn:plants")?;             // xmlns:p="urn:plants"
//! let name = QName::read("p:rose");                  // Some: the prefix p, the local part rose
//! let uri = scope.resolve("p");                      // Some: urn:plants
//! ```
#![tactic(auto)]

mod attribute_names;
mod barred;
mod character;
mod declaration;
mod name;
mod namespace;
mod scope;
mod search_tree;
mod uri;

pub use attribute_names::AttributeNames;
pub use barred::{is_barred, is_reserved_target};
pub use character::{is_char, is_name_part, is_name_start};
pub use declaration::{AttributeUse, is_declaration, use_of};
pub use name::{Expanded, QName, copy_name, copy_name_if, is_ncname};
pub use namespace::Namespace;
pub use scope::Scope;
pub use uri::{XML_URI, XMLNS_URI, XSLT_URI};
