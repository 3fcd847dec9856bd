// A store, known by its meaning alone: for each item a row of versions with rising times and at most one staged payload, and a
// capacity in rows. specs/Meaning.antt says what each call answers and leaves.
#![tactic(auto)]

ghost use Rattle.std.specs.Prelude.{◌≡◌, ℕ, ◌<◌, ◌≤◌, min, true, List, [], is_ok, if◌then◌else◌, Some, None, Option, MatchResult};
ghost use Rattle.protocol.specs.Limits.{row_limit};
ghost use Rattle.store.specs.declared.Unmade.TheVariants.{Memory};
ghost use Rattle.store.specs.declared.Version.{Version};
ghost use Rattle.store.specs.Meaning.{with, used, rising, newest_answer, staged_answer, stage_answer, unstage_answer, install_answer, grown, later as later_than};

use protocol::{ITEM_LIMIT, ROW_LIMIT};
use std::alloc::AllocError;
use std::error::Error;
use std::fmt;

// A payload, and the tick at which it was committed.
#[derive(Clone, Copy, PartialEq, Eq, Debug)]
pub struct Version<P> {
    pub time: u64,
    pub payload: P,
}

// Why a store refuses; a refusal changes nothing.
#[derive(Clone, Copy, PartialEq, Eq, Debug)]
pub enum Refusal {
    NoItem,
    // Nothing is staged there, and no row is free.
    NoRow,
    NotStaged,
    // The time is not later than the newest version's.
    NotLater,
}

impl fmt::Display for Refusal {
    fn fmt<W: fmt::Write>(&self, f: &mut fmt::Formatter<W>) -> fmt::Result {
        match self {
            Refusal::NoItem => write!(f, "no such item"),
            Refusal::NoRow => write!(f, "no row is free"),
            Refusal::NotStaged => write!(f, "nothing is staged"),
            Refusal::NotLater => write!(f, "not later than the newest"),
        }
    }
}

impl Error for Refusal {}

// Why a store cannot be made.
#[derive(Clone, Copy, PartialEq, Eq, Debug)]
pub enum Unmade {
    // There is no memory for its rows.
    Memory,
    // The number of items is not from 1 to 64.
    ItemCount,
}

impl fmt::Display for Unmade {
    fn fmt<W: fmt::Write>(&self, f: &mut fmt::Formatter<W>) -> fmt::Result {
        match self {
            Unmade::Memory => write!(f, "no memory"),
            Unmade::ItemCount => write!(f, "item count out of range"),
        }
    }
}

impl Error for Unmade {}

impl From<AllocError> for Unmade {
    ghost from_gives = { λ _ e. e ≡ Memory };

    fn from(_error: AllocError) -> Self {
        Self::Memory
    }
}

pub trait Store: Sized {
    type Payload: Copy;

    // The number of items.
    const K: usize;

    ghost K: { ℕ };

    ghost versions: { Self → ℕ → List (Version Self.Payload) };

    ghost stagings: { Self → ℕ → Option Self.Payload };

    ghost capacity: { Self → ℕ };

    // The item's last version, or none.
    fn newest(&self, item: usize) -> Result<Option<Version<Self::Payload>>, Refusal>
        ensures { result ≡ newest_answer K (versions self.now) item };

    // The item's staged payload, or none.
    fn staged(&self, item: usize) -> Result<Option<Self::Payload>, Refusal>
        ensures { result ≡ staged_answer K (stagings self.now) item };

    // Sets the item's staged payload, in the place of an earlier one.
    fn stage(&mut self, item: usize, payload: Self::Payload) -> Result<(), Refusal>
        ensures value { result ≡ stage_answer K (capacity self.old) (versions self.old) (stagings self.old) item }
        ensures stagings { stagings self.new ≡ (if is_ok result then with (stagings self.old) item (Some payload) else stagings self.old) }
        ensures versions { versions self.new ≡ versions self.old }
        ensures capacity { capacity self.new ≡ capacity self.old };

    // Removes the item's staged payload, if there is one; its row is free again.
    fn unstage(&mut self, item: usize) -> Result<(), Refusal>
        ensures value { result ≡ unstage_answer K (stagings self.old) item }
        ensures stagings { stagings self.new ≡ (if is_ok result then with (stagings self.old) item None else stagings self.old) }
        ensures versions { versions self.new ≡ versions self.old }
        ensures capacity { capacity self.new ≡ capacity self.old };

    // Makes the item's staged payload its newest version.
    fn install(&mut self, item: usize, time: u64) -> Result<(), Refusal>
        ensures value { result ≡ install_answer K (versions self.old) (stagings self.old) item time }
        ensures stagings { stagings self.new ≡ (if is_ok result then with (stagings self.old) item None else stagings self.old) }
        ensures versions { versions self.new ≡ (if is_ok result then with (versions self.old) item (grown (versions self.old item) time (stagings self.old item)) else versions self.old) }
        ensures capacity { capacity self.new ≡ capacity self.old };

    // Removes every version and every staged payload.
    fn clear(&mut self)
        ensures stagings { stagings self.new ≡ (λ _. None) }
        ensures versions { versions self.new ≡ (λ _. []) }
        ensures capacity { capacity self.new ≡ capacity self.old };

    // What holds of every store at any time.
    ghost wide: { (s : Self) → (1 ≤ K) × (K ≤ 64) };

    ghost fits: { (s : Self) → used (versions s) (stagings s) K ≤ capacity s };

    ghost rises: { (s : Self) (i : ℕ) → rising (versions s i) ≡ true };
}

// The rows of a store of so many items: those asked for, of which at most 4,096 are used.
pub fn row_count<const N: usize>(rows: usize) -> Result<usize, Unmade>
    ensures { MatchResult result (λ n. (1 ≤ N) × (N ≤ 64) × (n ≡ min rows row_limit)) (λ e. (e ≡ Unmade.ItemCount) × (1 ≤ N → N ≤ 64 → ⊥)) }
{
    if (1..=ITEM_LIMIT).contains(&N) {
        Ok(rows.min(ROW_LIMIT))
    } else {
        Err(Unmade::ItemCount)
    }
}

// Refuses an item that is not among the first `count`.
pub fn check_item(item: usize, count: usize) -> Result<(), Refusal>
    ensures { MatchResult result (λ _. item < count) (λ e. (e ≡ Refusal.NoItem) × (count ≤ item)) }
{
    if item < count {
        Ok(())
    } else {
        Err(Refusal::NoItem)
    }
}

// Whether a version at the time would come after the newest.
pub fn is_later<P: Copy>(newest: Option<Version<P>>, time: u64) -> bool
    ensures { result ≡ later_than newest time }
{
    newest.is_none_or(|version| version.time < time)
}
