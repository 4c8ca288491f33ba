//! Books, refusals and markings, as text for a reader.
#![tactic(auto)]

mod lines;
mod lists;
mod report;
mod shown;
mod tally;
mod told;
mod verdicts;

pub use lists::Listing;
pub use report::Report;
pub use tally::Tally;
pub use told::Told;
pub use verdicts::Verdicts;
