//! Lists of calls on a book: what they do, what follows from them alone, and marking and writing then.
#![tactic(auto)]

mod call;
mod outcome;
mod state;

pub use call::{Call, Edit};
pub use outcome::{Answer, CallFault, Done, Outcome};
pub use state::{Cut, State, freeze_after};
