// Leaving, and orders of the coordinator.
ghost use Rattle.std.specs.Prelude.{◌≡◌, is_some};
ghost use Rattle.cohort.specs.Steps.{step_reply};
ghost use Rattle.model.specs.Cells.{acted, cohort_of, ended_by, ballot_for, report_in, report_of, receive_done, leave_told, leave_done};
ghost use Rattle.table.specs.Contents.{reply_in};
ghost use Rattle.cell.specs.View.{cell_view};

use crate::parts::Cell;
use cohort::{Cohort, Ending, Event, State, ballot};
use endings::{install_all, unstage_all};
use protocol::{CellFault, Order, Report, Vote};
use store::Store;
use table::Machine;

impl<S: Store> Cell<S> {
    // What becomes of staged payloads; a commit raises LAST.
    fn finish(&mut self, ending: Ending)
        ensures { cell_view S.Store self.new ≡ ended_by (cell_view S.Store self.old) ending }
    {
        match ending {
            Ending::Keep => {}
            Ending::Unstage(items) => unstage_all(&mut self.store, items),
            Ending::Install(items, time) => {
                install_all(&mut self.store, items, time);
                self.timing.last = self.timing.last.max(time);
            }
        }
    }

    // An event of the transaction's cohort, with what it ends.
    fn act(&mut self, tx: u64, event: Event) -> Option<Report>
        ensures value { result ≡ report_in (reply_in step_reply (cohort_of (cell_view S.Store self.old) tx) event) }
        ensures after { cell_view S.Store self.new ≡ acted (cell_view S.Store self.old) tx event }
    {
        let reaction = self.cohorts.step(tx, event)?;
        self.finish(reaction.ending);
        reaction.report
    }

    // The vote that the transaction would cast now.
    fn vote_now(&self, tx: u64) -> Vote
        ensures { result ≡ ballot_for (cell_view S.Store self.now) tx }
    {
        match self.cohorts.find(tx) {
            Some(
                voter @ Cohort {
                    state: State::Active(start),
                    ..
                },
            ) => ballot(self.cohorts.as_slice(), self.timing, &voter, start),
            _ => Vote::No,
        }
    }

    // Whether the order is answered with a report.
    pub fn replies(&self, tx: u64, order: Order) -> bool
        ensures { result ≡ is_some (report_of (cell_view S.Store self.now) tx order) }
    {
        self.cohorts.find(tx).is_some_and(|cohort| !matches!(
            (cohort.state, order),
            (State::Done, Order::Prepare)
        ))
    }

    // Acts on the order, and answers what is reported back.
    pub fn receive(&mut self, tx: u64, order: Order) -> Option<Report>
        ensures value { result ≡ report_of (cell_view S.Store self.old) tx order }
        ensures after { cell_view S.Store self.new ≡ receive_done (cell_view S.Store self.old) tx order }
    {
        let vote = self.vote_now(tx);
        self.act(tx, Event::Receive(order, vote))
    }

    // An Active transaction goes: its holds end here, and its staged payloads are unstaged.
    pub fn leave(&mut self, tx: u64) -> Result<(), CellFault>
        ensures value { result ≡ leave_told (cell_view S.Store self.old) tx }
        ensures after { cell_view S.Store self.new ≡ leave_done (cell_view S.Store self.old) tx }
    {
        self.active(tx)?;
        self.act(tx, Event::Leave);
        Ok(())
    }
}
