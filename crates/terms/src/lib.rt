//! Terms and axioms of the description logic: their shapes, the table they lie in, and the codes of their format.
#![tactic(auto)]

mod axiom;
mod code;
mod count;
mod fault;
mod table;
mod term;

pub use axiom::{Axiom, AxiomKind};
pub use code::{Code, Direction, UnknownCode};
pub use count::Count;
pub use fault::ItemFault;
pub use table::{MOST_NODES, Terms};
pub use term::{MOST_LEVELS, RoleItem, Term, TermId};
