// The coordinator's record of a live transaction: who joined, who voted, who acknowledged, and how it is decided.
#![tactic(auto)]

mod allowing;
mod kinds;
mod machine;

pub use kinds::{Allowed, Event, Transaction};
