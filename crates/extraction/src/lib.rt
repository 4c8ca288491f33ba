//! Module extraction: which axioms of a book at rest are kept for its signature.
#![tactic(auto)]

mod extractor;
mod marking;
mod mentions;
mod pile;
mod rounds;
mod stage;
mod start;
mod tables;
mod whole;

pub use extractor::Extractor;
pub use marking::{MarkFault, Marking, is_too_short, is_unseeded, mark, mark_pile, mark_stage};
pub use pile::Pile;
pub use stage::Stage;
pub use start::seeded_names;
pub use tables::{Flags, Tables};
pub use whole::Whole;
