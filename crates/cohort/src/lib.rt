// A cell's record of a transaction that joined it: what it is there, what it holds, and what it does with an order.
#![tactic(auto)]

mod ballots;
mod holds;
mod kinds;
mod machine;

pub use ballots::ballot;
pub use holds::clash;
pub use kinds::{Access, Cohort, Ending, Event, Mode, Reaction, State, Timing};
