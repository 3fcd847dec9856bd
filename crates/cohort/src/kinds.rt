ghost use Rattle.std.specs.Prelude.{ℕ};

use items::ItemSet;
use protocol::{Order, Range, Report, Vote};
use table::Numbered;

// What a transaction is at a cell.
#[derive(Clone, Copy, Debug, Default, PartialEq, Eq)]
pub enum State {
    // It reads and writes; with the cell's clock when it joined.
    Active(u64),
    // It voted yes with this range, and its read holds only delay others.
    Voted(Range),
    // It left, or voted no.
    Out,
    // A decision was carried out.
    #[default]
    Done,
}

#[derive(Clone, Copy, Debug, Default, PartialEq, Eq)]
pub struct Cohort {
    pub tx: u64,
    pub state: State,
    pub reads: ItemSet,
    pub writes: ItemSet,
}

impl Numbered for Cohort {
    ghost number = { λ c. c.tx };

    fn number(&self) -> u64 {
        self.tx
    }
}

// How an item is used.
#[derive(Clone, Copy, Debug, PartialEq, Eq)]
pub enum Mode {
    Read,
    Write,
}

// A use of an item by a transaction.
#[derive(Clone, Copy, Debug, PartialEq, Eq)]
pub struct Access {
    pub tx: u64,
    pub item: usize,
    pub mode: Mode,
}

// What a vote takes from its cell: the greatest time committed there, the clock, and the length of the range that it votes.
#[derive(Clone, Copy, Debug, PartialEq, Eq)]
pub struct Timing {
    pub last: u64,
    pub clock: u64,
    pub spread: u64,
}

// What happens to a cohort.
#[derive(Clone, Copy, Debug, PartialEq, Eq)]
pub enum Event {
    // An accepted read or write of the item.
    Read(usize),
    Write(usize),
    Leave,
    // A message, and the vote to cast if it asks for one.
    Receive(Order, Vote),
}

// What becomes of the payloads that a cohort staged.
#[derive(Clone, Copy, Debug, PartialEq, Eq)]
pub enum Ending {
    Keep,
    // Those of these items are unstaged.
    Unstage(ItemSet),
    // Those of these items are installed at the time.
    Install(ItemSet, u64),
}

// What a cohort does at an event: it may send a report, and its staged payloads may end.
#[derive(Clone, Copy, Debug, PartialEq, Eq)]
pub struct Reaction {
    pub report: Option<Report>,
    pub ending: Ending,
}
