// The bounds of the protocol. Definitions speak of them by the names of specs/Limits.antt.

// A time is a whole number of ticks (milliseconds) from 0 to this one.
pub const LAST_TICK: u64 = 1_000_000_000_000;

// A spread, the length of the range that a cell votes, counts as this one where it is above it.
pub const WIDEST_SPREAD: u64 = 3_600_000;

// How many transactions may be live at once.
pub const LIVE_LIMIT: usize = 16;

// How many transactions can be opened in the life of a line.
pub const OPENED_LIMIT: u64 = 1_000_000;

// How many messages may wait in the post.
pub const POST_LIMIT: usize = 64;

// A store has from 1 to this many items.
pub const ITEM_LIMIT: usize = 64;

// A store has from 0 to this many rows.
pub const ROW_LIMIT: usize = 4_096;
