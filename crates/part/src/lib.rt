//! The part of a book: a set of its axioms with all its names, written as a file of records.
#![tactic(auto)]

mod writing;

pub use writing::write;
