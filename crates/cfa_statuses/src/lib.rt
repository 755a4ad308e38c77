//! The statuses that classes were raised to, and the value of a class expression by them.
#![tactic(auto)]

mod levels;
mod raising;
mod valuing;

pub use levels::Status;
pub use raising::Statuses;
pub use valuing::value;
