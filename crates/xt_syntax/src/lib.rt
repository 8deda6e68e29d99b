//! The trees of the language (XPath 1.0, sections 2 and 3; XSLT 1.0, sections 2 to 16).
//!
//! Contracts see an expression as the tree that `expr_of` gives, a step as `step_of` and a node test
//! as `test_of` (`specs/View.antt`), whose types are those of the definition of the grammar. What
//! holds expressions is seen likewise, as the trees of `spec_stylesheet`: `specs/PartView.antt`,
//! `InstrView.antt` and `SheetView.antt`.
//!
//! ```text
//! let one = Expr::Number(1);
//! one.same(&Expr::Number(1))        // true, without memory
//! ```
#![tactic(auto)]

mod alike;
mod avt;
mod count;
mod expr;
mod instr;
mod literal;
mod names;
mod pattern;
mod rule;
mod rules;
mod sheet;
mod site;
mod sort_key;
mod space_rules;
mod unit;
mod with_content;
mod without_content;

pub use avt::{Avt, AvtPart};
pub use count::Count;
pub use expr::{Expr, Link, Step, Test};
pub use instr::{Binding, Branch, Control, Form, Instr, Selection};
pub use literal::{LiteralAttribute, LiteralTag};
pub use names::MadeName;
pub use pattern::{Alternative, Pattern, PatternStep, Start};
pub use rule::Rule;
pub use rules::Rules;
pub use sheet::{Alias, Method, Sheet};
pub use site::Site;
pub use sort_key::SortKey;
pub use space_rules::{SpaceRule, SpaceRules};
pub use spec_document::Axis;
pub use spec_expression::{NodeType, Operator};
pub use spec_stylesheet::{NumberLevel, Separator};
pub use unit::{AttributeSet, Declared, GlobalBinding, Key, Template, Unit};
pub use with_content::WithContent;
pub use without_content::{NumberSource, Numbering, WithoutContent};
pub use xt_base::Place;
pub use xt_names::Namespace;
