// What travels through the post.
use crate::sites::Site;

// The ticks from `earliest` to `latest`, both included.
#[derive(Clone, Copy, Debug, PartialEq, Eq)]
pub struct Range {
    pub earliest: u64,
    pub latest: u64,
}

// What a cell answers to PREPARE.
// This and the next three are no Option: what travels keeps its own words, and an Option in an Option would not say what it is.
#[derive(Clone, Copy, Debug, PartialEq, Eq)]
pub enum Vote {
    Yes(Range),
    No,
}

// How a transaction ends: committed at a tick, or aborted.
#[derive(Clone, Copy, Debug, PartialEq, Eq)]
pub enum Decision {
    Commit(u64),
    Abort,
}

// What the coordinator sends to a cell: PREPARE or DECISION.
#[derive(Clone, Copy, Debug, PartialEq, Eq)]
pub enum Order {
    Prepare,
    Decide(Decision),
}

// What a cell sends to the coordinator: VOTE or ACK.
#[derive(Clone, Copy, Debug, PartialEq, Eq)]
pub enum Report {
    Cast(Vote),
    Ack,
}

#[derive(Clone, Copy, Debug, PartialEq, Eq)]
pub enum Body {
    ToCell(Order),
    ToCoordinator(Report),
}

// By hand, since a derive takes a variant without fields.
impl Default for Body {
    ghost use Rattle.std.specs.Prelude.{◌≡◌};
    ghost use Rattle.protocol.specs.declared.messages.Body.TheVariants.{ToCoordinator};
    ghost use Rattle.protocol.specs.declared.messages.Report.TheVariants.{Ack};

    ghost is_default = { λ b. b ≡ ToCoordinator Ack };

    fn default() -> Self {
        Body::ToCoordinator(Report::Ack)
    }
}

// A message of a transaction, to or from a cell.
#[derive(Clone, Copy, Debug, Default, PartialEq, Eq)]
pub struct Message {
    pub tx: u64,
    pub site: Site,
    pub body: Body,
}
