// What every layer speaks of: sites and ranges, messages, answers and faults, the bounds of the protocol, and its formulas.
#![tactic(auto)]

mod answers;
mod calls;
mod faults;
mod formulas;
mod limits;
mod messages;
mod sites;

pub use answers::{Delivery, Stage};
pub use calls::{Answer, Call};
pub use faults::{CellFault, Fault, Layer};
pub use formulas::{cast_vote, tally, worked_ranges_hold};
pub use limits::{
    ITEM_LIMIT, LAST_TICK, LIVE_LIMIT, OPENED_LIMIT, POST_LIMIT, ROW_LIMIT, WIDEST_SPREAD,
};
pub use messages::{Body, Decision, Message, Order, Range, Report, Vote};
pub use sites::{PerSite, Site, count_marked, lacking_marks};
