use book::{Draft, Frozen};

mod cutting;
mod freezing;
mod marking;
mod performing;
mod writing;

pub use cutting::Cut;
pub use freezing::freeze_after;

/// A book that calls are performed on, as a draft or frozen.
#[derive(Drop)]
pub enum State {
    /// A draft.
    Draft(Draft),
    /// A frozen book.
    Frozen(Frozen),
}
