// Why a call is refused. specs/Faults.antt gives each case its number, layer and detail.
ghost use Rattle.std.specs.Prelude.{◌≡◌};
ghost use Rattle.protocol.specs.Faults.{number_of, layer_of, detail_of};

use crate::limits::{LIVE_LIMIT, OPENED_LIMIT};
use crate::sites::Site;

// Who refuses.
#[derive(Clone, Copy, Debug, PartialEq, Eq)]
pub enum Layer {
    Line,
    Cell,
    Store,
}

// Refusals that arise at a cell.
#[derive(Clone, Copy, Debug, PartialEq, Eq)]
pub enum CellFault {
    // The transaction is not Active there; for a join, it has joined already.
    NotActive,
    // The store has no such item.
    NoItem(usize),
    // This transaction, the smallest of those in the way, holds the item.
    Held(u64),
    // The store has no row for another payload.
    NoRow(usize),
}

#[derive(Clone, Copy, Debug, PartialEq, Eq)]
pub enum Fault {
    // No live transaction has the number.
    NotLive(u64),
    NoCell(usize),
    // The coordinator has the transaction at a stage that the call does not allow.
    WrongStage(u64),
    NoneJoined(u64),
    AtCell(Site, CellFault),
    // So many places are missing in the post.
    NoRoom(usize),
    TooManyLive,
    NumbersUsed,
    NoMessage(usize),
    TooLate(u64),
}

// The numbers that the output has for each fault: methods, since callers match on the fault and only the output wants its numbers.
impl Fault {
    pub fn number(self) -> u64
        ensures { result ≡ number_of self }
    {
        match self {
            Fault::NotLive(_) => 1,
            Fault::NoCell(_) => 2,
            Fault::WrongStage(_) => 3,
            Fault::NoneJoined(_) => 4,
            Fault::AtCell(_, CellFault::NotActive) => 5,
            Fault::AtCell(_, CellFault::NoItem(_)) => 6,
            Fault::AtCell(_, CellFault::Held(_)) => 7,
            Fault::AtCell(_, CellFault::NoRow(_)) => 8,
            Fault::NoRoom(_) => 9,
            Fault::TooManyLive => 10,
            Fault::NumbersUsed => 11,
            Fault::NoMessage(_) => 12,
            Fault::TooLate(_) => 13,
        }
    }

    pub fn layer(self) -> Layer
        ensures { result ≡ layer_of self }
    {
        match self {
            Fault::AtCell(_, CellFault::NoRow(_)) => Layer::Store,
            Fault::AtCell(_, _) => Layer::Cell,
            _ => Layer::Line,
        }
    }

    pub fn detail(self) -> u64
        ensures { result ≡ detail_of self }
    {
        match self {
            Fault::NotLive(tx) => tx,
            Fault::NoCell(cell) => cell as u64,
            Fault::WrongStage(tx) => tx,
            Fault::NoneJoined(tx) => tx,
            Fault::AtCell(site, CellFault::NotActive) => u64::from(site),
            Fault::AtCell(_, CellFault::NoItem(item)) => item as u64,
            Fault::AtCell(_, CellFault::Held(tx)) => tx,
            Fault::AtCell(_, CellFault::NoRow(item)) => item as u64,
            Fault::NoRoom(places) => places as u64,
            Fault::TooManyLive => LIVE_LIMIT as u64,
            Fault::NumbersUsed => OPENED_LIMIT,
            Fault::NoMessage(place) => place as u64,
            Fault::TooLate(time) => time,
        }
    }
}
