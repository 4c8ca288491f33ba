//! The rule book: its contents, and the calls that a draft and a frozen book allow.
#![tactic(auto)]

mod book;
mod draft;
mod fault;
mod frozen;

pub use book::{AxiomId, Book, Filed, MOST_AXIOMS, MOST_BYTES};
pub use draft::Draft;
pub use fault::{AxiomFault, FileFault, NoSuchAxiom};
pub use frozen::{AtRest, Frozen};
