//! Reads the bodies of axioms and of seeds.
#![tactic(auto)]

mod body;
mod parsed;
mod reader;
mod term_reader;

pub use body::{Body, LONGEST_BODY};
pub use parsed::{Parsed, ParsedName, read_axiom, read_name_number};
