//! Locality: which axioms hold wherever the names outside a list have a default.
#![tactic(auto)]

mod checks;
mod defaults;
mod facts;
mod locality_test;
mod test;

pub use defaults::{ConceptDefault, RoleDefault};
pub use facts::{single_terms, small_worlds};
pub use locality_test::LocalityTest;
pub use test::Test;
