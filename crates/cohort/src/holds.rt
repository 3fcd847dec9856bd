ghost use Rattle.std.specs.Prelude.{◌≡◌, None};
ghost use Rattle.cohort.specs.Holds.{is_active, writes_in, blocking, blockers, smallest, lesser};

use crate::kinds::{Access, Cohort, Mode, State};

impl State {
    pub fn is_active(self) -> bool
        ensures { result ≡ is_active self }
    {
        matches!(self, State::Active(_))
    }
}

impl Cohort {
    // Whether this one stands in the way of the access.
    fn blocks(&self, access: Access) -> bool
        ensures { result ≡ blocking access.tx access.item (writes_in access.mode) self.now }
    {
        self.tx != access.tx
            && (self.writes.contains(access.item)
                || (access.mode == Mode::Write
                    && (self.reads.contains(access.item) && self.state.is_active())))
    }
}

// The lesser of the smallest so far, if there is one, and a transaction. A function with a clause of its own and no `min` of the chain,
// since what is the lesser is then said where it is chosen, and not in a proof of the whole chain.
fn lesser_of(best: Option<u64>, tx: u64) -> Option<u64>
    ensures { result ≡ lesser best tx }
{
    match best {
        Some(other) => Some(other.min(tx)),
        None => Some(tx),
    }
}

// The smallest transaction in the way of the access.
pub fn clash(cohorts: &[Cohort], access: Access) -> Option<u64>
    ensures { result ≡ smallest None (blockers access.tx access.item (writes_in access.mode) cohorts.now) }
{
    cohorts
        .iter()
        .filter(|cohort| cohort.blocks(access))
        .map(|cohort| cohort.tx)
        .fold(None, lesser_of)
}
