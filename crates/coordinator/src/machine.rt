ghost use Rattle.std.specs.Prelude.{◌≡◌, ◌≤◌, true, is_some};
ghost use Rattle.protocol.specs.declared.messages.Report.TheVariants.{Ack};
ghost use Rattle.protocol.specs.Sites.{put_at, lacking};
ghost use Rattle.coordinator.specs.Steps.{opened, cast_by, all_voted, all_acked, awaits as awaits_vote, decision_answer, counted, count_answer, heard, heard_answer, step_to, step_reply, sends_for, missing as missing_at, repeated, is_empty, announced};

use crate::kinds::{Event, Transaction};
use protocol::{
    Decision, Delivery, Order, PerSite, Range, Report, Site, Stage, Vote, count_marked,
    lacking_marks, tally,
};
use table::{Machine, Numbered};

// The cells whose vote is recorded.
fn voters(votes: &PerSite<Option<Range>>) -> PerSite<bool>
    ensures { result ≡ cast_by votes.now }
{
    votes.map(|vote| vote.is_some())
}

// What a delivery came to that decided the transaction.
fn announce(decision: Decision) -> Delivery
    ensures { result ≡ decision_answer decision }
{
    match decision {
        Decision::Commit(time) => Delivery::Committed(time),
        Decision::Abort => Delivery::Aborted,
    }
}

// Whether no cell is marked in `marks` and not in `others`.
fn none_lacks(marks: &PerSite<bool>, others: &PerSite<bool>) -> bool
    ensures { result ≡ is_empty (lacking marks.now others.now) }
{
    count_marked(&lacking_marks(marks, others)) == 0
}

impl Transaction {
    // A transaction that was just opened.
    pub fn new(number: u64) -> Self
        ensures { result ≡ opened number }
    {
        Transaction {
            number,
            stage: Stage::Open,
            joined: PerSite::all(false),
            votes: PerSite::all(None),
            acks: PerSite::all(false),
        }
    }

    fn all_voted(&self) -> bool
        ensures { result ≡ all_voted self.now }
    {
        none_lacks(&self.joined, &voters(&self.votes))
    }

    fn all_acked(&self) -> bool
        ensures { result ≡ all_acked self.now }
    {
        none_lacks(&self.joined, &self.acks)
    }

    // Whether the cell's vote is waited for.
    fn awaits(&self, site: Site) -> bool
        ensures { result ≡ awaits_vote self.now self.now.stage site }
    {
        self.stage == Stage::Polling && self.votes.get(site).is_none()
    }

    // With one more vote recorded: tallied if it was the last one missing.
    fn count(&mut self) -> Delivery
        ensures value { result ≡ count_answer self.old }
        ensures after { self.new ≡ counted self.old }
    {
        if !self.all_voted() {
            return Delivery::Noted;
        }
        let decision = tally(&self.votes);
        self.stage = Stage::Decided(decision);
        announce(decision)
    }

    fn hear_ack(&mut self, site: Site) -> Delivery
        ensures value { result ≡ heard_answer self.old site Ack }
        ensures after { self.new ≡ heard self.old site Ack }
    {
        if self.acks.get(site) {
            return Delivery::Stale;
        }
        self.acks.put(site, true);
        if self.all_acked() {
            Delivery::Closed
        } else {
            Delivery::Noted
        }
    }

    // Acts on a report by the stage that it finds.
    fn receive(&mut self, site: Site, report: Report) -> Delivery
        ensures value { result ≡ heard_answer self.old site report }
        ensures after { self.new ≡ heard self.old site report }
    {
        let awaited = self.awaits(site);
        match (self.stage, report) {
            (Stage::Polling, Report::Cast(Vote::Yes(range))) if awaited => {
                self.votes.put(site, Some(range));
                self.count()
            }
            (Stage::Polling, Report::Cast(Vote::No)) if awaited => {
                self.stage = Stage::Decided(Decision::Abort);
                Delivery::Aborted
            }
            (_, Report::Ack) => self.hear_ack(site),
            _ => Delivery::Stale,
        }
    }

    // Whether the cell's vote is the only one missing.
    fn is_last(&self, site: Site) -> bool
        ensures { result ≡ is_empty (lacking self.now.joined (put_at (cast_by self.now.votes) site true)) }
    {
        let mut marks = voters(&self.votes);
        marks.put(site, true);
        none_lacks(&self.joined, &marks)
    }

    // Whether the report would decide the transaction.
    #[tactic(auto, using(crate::proofs::Announces::late_silent, crate::proofs::Announces::told_by))]
    fn would_decide(&self, site: Site, report: Report) -> bool
        ensures { result ≡ is_some (announced (heard_answer self.now site report)) }
    {
        if !self.awaits(site) {
            return false;
        }
        match report {
            Report::Cast(Vote::Yes(_)) => self.is_last(site),
            Report::Cast(Vote::No) => true,
            Report::Ack => false,
        }
    }

    // How many messages the report makes the coordinator send.
    pub fn sends(&self, site: Site, report: Report) -> usize
        ensures value { result ≡ sends_for self.now site report }
        ensures bound { result ≤ 4 }
    {
        if self.would_decide(site, report) {
            count_marked(&self.joined)
        } else {
            0
        }
    }

    // The cells that have not answered yet: whose vote or whose acknowledgement is missing.
    pub fn missing(&self) -> PerSite<bool>
        ensures { result ≡ missing_at self.now self.now.stage }
    {
        match self.stage {
            Stage::Open => PerSite::all(false),
            Stage::Polling => lacking_marks(&self.joined, &voters(&self.votes)),
            Stage::Decided(_) => lacking_marks(&self.joined, &self.acks),
        }
    }

    // What those cells were last sent.
    pub fn order(&self) -> Order
        ensures { result ≡ repeated self.now.stage }
    {
        match self.stage {
            Stage::Decided(decision) => Order::Decide(decision),
            _ => Order::Prepare,
        }
    }
}

impl Machine for Transaction {
    type Event = Event;

    type Reply = Delivery;

    ghost reply = { step_reply };

    ghost next = { step_to };

    fn step(&mut self, event: Event) -> Delivery {
        match event {
            Event::Join(site) => {
                self.joined.put(site, true);
                Delivery::Noted
            }
            Event::Submit => {
                self.stage = Stage::Polling;
                Delivery::Noted
            }
            Event::GiveUp => {
                self.stage = Stage::Decided(Decision::Abort);
                Delivery::Noted
            }
            Event::Receive(site, report) => self.receive(site, report),
        }
    }
}
