//! Worked cases on one small book.
#![tactic(auto)]

mod worked;

pub use worked::worked_cases;
