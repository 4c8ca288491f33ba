//! Files of records, and loading them into a draft.
#![tactic(auto)]

mod fault;
mod kind;
mod load_fault;
mod loading;
mod reader;
mod stopped;
mod taking;

pub use fault::{RecordFault, SeedFault};
pub use kind::RecordKind;
pub use load_fault::LoadFault;
pub use loading::load;
pub use stopped::Stopped;
