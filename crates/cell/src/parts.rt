use cohort::{Cohort, Timing};
use protocol::LIVE_LIMIT;
use store::Store;
use table::Table;

mod calls;
mod orders;

// No `impl Model`: what a cell means has functions of the item, and a function has no code, which a `Value` needs.
#[derive(Drop)]
pub struct Cell<S: Store> {
    store: S,
    timing: Timing,
    cohorts: Table<Cohort, LIVE_LIMIT>,
}
