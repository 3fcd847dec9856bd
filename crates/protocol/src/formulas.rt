ghost use Rattle.std.specs.Prelude.{◌≡◌, ◌+◌, min, max};
ghost use Rattle.protocol.specs.Formulas.{earliest_tick, latest_tick, vote_over, floor_of, under, time_over, under_all, tallied, Tallies};
ghost use Rattle.protocol.specs.Worked.{AllHold};

use crate::limits::LAST_TICK;
use crate::messages::{Decision, Range, Vote};
use crate::sites::PerSite;

// The vote of a transaction that joined at the tick `start`, where `greatest` is the greatest of LAST and the LATEST of each
// transaction that delays it.
pub fn cast_vote(greatest: u64, start: u64, clock: u64, spread: u64) -> Vote
    ensures { result ≡ vote_over (earliest_tick (greatest + 1) start) (latest_tick clock spread) }
{
    let conflict = greatest.saturating_add(1);
    let earliest = conflict.max(start);
    let latest = clock.saturating_add(spread).min(LAST_TICK);
    if earliest <= latest {
        Vote::Yes(Range { earliest, latest })
    } else {
        Vote::No
    }
}

fn floor(vote: Option<Range>) -> u64
    ensures { result ≡ floor_of vote }
{
    vote.map_or(0, |range| range.earliest)
}

fn allows(vote: Option<Range>, time: u64) -> bool
    ensures { result ≡ under vote time }
{
    vote.is_none_or(|range| time <= range.latest)
}

// The greatest EARLIEST voted.
fn first_time(votes: &PerSite<Option<Range>>) -> u64
    ensures { result ≡ time_over votes.now }
{
    votes
        .map(floor)
        .into_array()
        .iter()
        .fold(0, |time, floor| time.max(*floor))
}

// Whether the tick is at most the least LATEST voted.
fn all_allow(votes: &PerSite<Option<Range>>, time: u64) -> bool
    ensures { result ≡ under_all votes.now time }
{
    votes.into_array().iter().all(|vote| allows(*vote, time))
}

// The decision over votes that are all yes: the first tick that lies in every range, or an abort where there is none.
#[tactic(auto, using(crate::proofs::TallyMeans::first_in, crate::proofs::TallyMeans::first_least, crate::proofs::TallyMeans::first_none))]
pub fn tally(votes: &PerSite<Option<Range>>) -> Decision
    ensures value { result ≡ tallied votes.now }
    ensures means { Tallies votes.now result }
{
    let time = first_time(votes);
    if all_allow(votes, time) {
        Decision::Commit(time)
    } else {
        Decision::Abort
    }
}

// The worked ranges are what the formulas give.
pub fn worked_ranges_hold()
    ensures { AllHold }
{}
