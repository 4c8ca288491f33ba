//! Scripts: lines of text that ask for calls on a book, and the text that answers each.
#![tactic(auto)]

mod bytes;
mod halt;
mod marks;
mod piles;
mod request;
mod script;
mod verb;
mod words;

pub use halt::{Halt, LineFault, ScriptFault};
pub use piles::{MOST_STAGES, NamedPile, Worded};
pub use script::perform_lines;
