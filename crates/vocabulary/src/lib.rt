//! The names of a rule book: kinds, labels, and the table that numbers them.
#![tactic(auto)]

mod fault;
mod kind;
mod label;
mod name;
mod table;

pub use fault::{NameFault, NoSuchName};
pub use kind::Kind;
pub use label::Label;
pub use name::{Name, NameId};
pub use table::{MOST_NAMES, Vocabulary};
