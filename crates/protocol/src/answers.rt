// What calls of the line answer, besides numbers and payloads.
use crate::messages::{Decision, Range};

// Where a transaction stands with the coordinator; the answer of `fate`.
#[derive(Clone, Copy, Debug, Default, PartialEq, Eq)]
pub enum Stage {
    #[default]
    Open,
    Polling,
    Decided(Decision),
}

// What a delivery came to.
#[derive(Clone, Copy, Debug, PartialEq, Eq)]
pub enum Delivery {
    // The cell votes yes with this range.
    Ranged(Range),
    // The cell votes no.
    Declined,
    // A vote or an acknowledgement was recorded, and more are missing.
    Noted,
    // The vote was the last, and the transaction commits at this tick.
    Committed(u64),
    // The vote decided that the transaction aborts.
    Aborted,
    // The cell carried out the decision, now or before.
    Settled,
    // The message changes nothing any more.
    Stale,
    // The acknowledgement was the last one missing, and the transaction closed.
    Closed,
}
