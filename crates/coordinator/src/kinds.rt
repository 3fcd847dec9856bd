ghost use Rattle.std.specs.Prelude.{ℕ};

use protocol::{PerSite, Range, Report, Site, Stage};
use table::Numbered;

#[derive(Clone, Copy, Debug, Default, PartialEq, Eq)]
pub struct Transaction {
    pub number: u64,
    pub stage: Stage,
    pub joined: PerSite<bool>,
    // The range of each yes that was recorded.
    pub votes: PerSite<Option<Range>>,
    pub acks: PerSite<bool>,
}

impl Numbered for Transaction {
    ghost number = { λ d. d.number };

    fn number(&self) -> u64 {
        self.number
    }
}

// What happens to a transaction at the coordinator.
#[derive(Clone, Copy, Debug, PartialEq, Eq)]
pub enum Event {
    Join(Site),
    Submit,
    GiveUp,
    // A message from a cell.
    Receive(Site, Report),
}

// The stages at which a call is allowed.
// An enum and no closure: the rules of the twelve calls name these four, and what is said of a call speaks of them.
#[derive(Clone, Copy, Debug, PartialEq, Eq)]
pub enum Allowed {
    OnlyOpen,
    // Open or Polling.
    Undecided,
    // Polling or Decided.
    Submitted,
    AnyStage,
}
