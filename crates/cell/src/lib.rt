// A cell: a store, a clock, a spread, a time LAST, and the transactions that joined it.
#![tactic(auto)]

mod parts;

pub use parts::Cell;
