//! Writes the bodies of axioms, and bytes of all sorts, into a buffer, or counts them.
#![tactic(auto)]

mod axioms;
mod sink;

pub use axioms::{put_axiom, write_axiom};
pub use sink::{Cursor, Length, Sink};
