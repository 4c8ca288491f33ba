//! How a call is refused: the reason, its number, its layer, and the place of the fault.
#![tactic(auto)]

mod layer;
mod reason;
mod refusal;

pub use layer::Layer;
pub use reason::Reason;
pub use refusal::Refusal;
