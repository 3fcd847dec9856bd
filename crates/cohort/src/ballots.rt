ghost use Rattle.std.specs.Prelude.{◌≡◌, max};
ghost use Rattle.protocol.specs.Formulas.{greatest, vote_of, Open, Spans};
ghost use Rattle.cohort.specs.Holds.{delays, only};

use crate::kinds::{Cohort, State, Timing};
use protocol::{Vote, cast_vote};

// The greater of `most` and LATEST, where the cohort delays the voter.
fn most_with(most: u64, cohort: &Cohort, voter: &Cohort) -> u64
    ensures { result ≡ greatest most (delays voter.now.tx voter.now.writes (only cohort.now)) }
{
    match cohort.state {
        State::Voted(range) if cohort.tx != voter.tx && cohort.reads.meets(voter.writes) =>
            most.max(range.latest),
        _ => most,
    }
}

// The greatest of LAST and the LATEST of each transaction that delays the voter.
#[tactic(auto, using(crate::proofs::Walks::greatest_turn))]
fn greatest_delay(last: u64, cohorts: &[Cohort], voter: &Cohort) -> u64
    ensures { result ≡ greatest last (delays voter.now.tx voter.now.writes cohorts.now) }
{
    let mut most = last;
    // An index and no chain, as a rule of the project has it: over the cell's records, carrying the running maximum.
    for i in 0..cohorts.len() {
        most = most_with(most, &cohorts[i], voter);
    }
    most
}

// The vote of a transaction that joined at the tick `start`: the least and the greatest tick that its cell may promise.
#[tactic(auto, using(protocol::proofs::VoteMeans::vote_means))]
pub fn ballot(cohorts: &[Cohort], timing: Timing, voter: &Cohort, start: u64) -> Vote
    ensures value { result ≡ vote_of timing.last (delays voter.now.tx voter.now.writes cohorts.now) start timing.clock timing.spread }
    ensures means { Spans (Open timing.last (delays voter.now.tx voter.now.writes cohorts.now) start timing.clock timing.spread) result }
{
    let greatest = greatest_delay(timing.last, cohorts, voter);
    cast_vote(greatest, start, timing.clock, timing.spread)
}
