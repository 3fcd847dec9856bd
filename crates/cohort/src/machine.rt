ghost use Rattle.std.specs.Prelude.{◌≡◌, Some, None};
ghost use Rattle.protocol.specs.declared.messages.Report.TheVariants.{Ack};
ghost use Rattle.cohort.specs.declared.kinds.Ending.TheVariants.{Keep};
ghost use Rattle.cohort.specs.declared.kinds.State.TheVariants.{Done};
ghost use Rattle.cohort.specs.Steps.{reacts, ended, voted, vote_reaction, received, reaction, step_to, step_reply};

use crate::kinds::{Cohort, Ending, Event, Reaction, State};
use items::ItemSet;
use protocol::{Decision, Order, Report, Vote};
use table::{Machine, Numbered};

impl Reaction {
    // A report alone.
    fn only(report: Report) -> Self
        ensures { result ≡ reacts (Some report) Keep }
    {
        Reaction {
            report: Some(report),
            ending: Ending::Keep,
        }
    }

    fn none() -> Self
        ensures { result ≡ reacts None Keep }
    {
        Reaction {
            report: None,
            ending: Ending::Keep,
        }
    }
}

impl Cohort {
    // Ends the holds; answers the items that were held for writing.
    fn end(&mut self, state: State) -> ItemSet
        ensures value { result ≡ self.old.writes }
        ensures after { self.new ≡ ended self.old state }
    {
        let writes = self.writes;
        self.state = state;
        self.reads = ItemSet::new();
        self.writes = ItemSet::new();
        writes
    }

    // Casts the vote.
    fn vote(&mut self, ballot: Vote) -> Reaction
        ensures value { result ≡ vote_reaction self.old ballot }
        ensures after { self.new ≡ voted self.old ballot }
    {
        match ballot {
            Vote::Yes(range) => {
                self.state = State::Voted(range);
                Reaction::only(Report::Cast(ballot))
            }
            Vote::No => {
                let writes = self.end(State::Out);
                Reaction {
                    report: Some(Report::Cast(ballot)),
                    ending: Ending::Unstage(writes),
                }
            }
        }
    }

    // Carries a decision out: the holds end, and what was staged comes to the ending.
    fn settle(&mut self, ending: Ending) -> Reaction
        ensures value { result ≡ reacts (Some Ack) ending }
        ensures after { self.new ≡ ended self.old Done }
    {
        self.end(State::Done);
        Reaction {
            report: Some(Report::Ack),
            ending,
        }
    }

    // Acts on an order by the state that it finds.
    fn receive(&mut self, order: Order, ballot: Vote) -> Reaction
        ensures value { result ≡ reaction self.old self.old.state order ballot }
        ensures after { self.new ≡ received self.old self.old.state order ballot }
    {
        match (self.state, order) {
            (State::Active(_), Order::Prepare) => self.vote(ballot),
            (State::Voted(range), Order::Prepare) => Reaction::only(Report::Cast(Vote::Yes(range))),
            (State::Out, Order::Prepare) => Reaction::only(Report::Cast(Vote::No)),
            (State::Done, Order::Prepare) => Reaction::none(),
            (State::Done, Order::Decide(_)) => Reaction::only(Report::Ack),
            (_, Order::Decide(Decision::Commit(time))) => self.settle(Ending::Install(
                self.writes,
                time,
            )),
            (_, Order::Decide(Decision::Abort)) => self.settle(Ending::Unstage(self.writes)),
        }
    }
}

impl Machine for Cohort {
    type Event = Event;

    type Reply = Reaction;

    ghost reply = { step_reply };

    ghost next = { step_to };

    fn step(&mut self, event: Event) -> Reaction {
        match event {
            Event::Read(item) => {
                self.reads.insert(item);
                Reaction::none()
            }
            Event::Write(item) => {
                self.writes.insert(item);
                Reaction::none()
            }
            Event::Leave => {
                let writes = self.end(State::Out);
                Reaction {
                    report: None,
                    ending: Ending::Unstage(writes),
                }
            }
            Event::Receive(order, ballot) => self.receive(order, ballot),
        }
    }
}
