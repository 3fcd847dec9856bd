// Leaving, giving up, resending, losing, and a transaction's fate.
ghost use Rattle.std.specs.Prelude.{◌≡◌};
ghost use Rattle.protocol.specs.declared.calls.Call.TheVariants.{Leave, GiveUp, Resend, Lose, Fate};
ghost use Rattle.model.specs.Calls.{accepted, numbered, stands, told, did};
ghost use Rattle.line.specs.View.{line_view};

use crate::parts::Line;
use crate::parts::admitting::at_cell;
use cells::FourCells;
use coordinator::{Allowed, Event};
use protocol::{Decision, Fault, Order, Stage, count_marked};
use table::Machine;

impl<C: FourCells> Line<C> {
    pub(super) fn leave_step(&mut self, tx: u64, cell: usize) -> Result<(), Fault>
        ensures value { accepted result ≡ told (line_view C.view self.old) (Leave tx cell) }
        ensures after { line_view C.view self.new ≡ did (line_view C.view self.old) (Leave tx cell) }
    {
        let site = self.admit_at(tx, cell, Allowed::AnyStage)?;
        at_cell(site, self.cells.leave(site, tx))
    }

    pub(super) fn give_up_step(&mut self, tx: u64) -> Result<(), Fault>
        ensures value { accepted result ≡ told (line_view C.view self.old) (GiveUp tx) }
        ensures after { line_view C.view self.new ≡ did (line_view C.view self.old) (GiveUp tx) }
    {
        let transaction = self.admit(tx, Allowed::Undecided)?;
        if count_marked(&transaction.joined) == 0 {
            self.shut(tx);
            return Ok(());
        }
        self.post
            .send_orders(transaction.joined, tx, Order::Decide(Decision::Abort))?;
        self.transactions.step(tx, Event::GiveUp);
        Ok(())
    }

    pub(super) fn resend_step(&mut self, tx: u64) -> Result<usize, Fault>
        ensures value { numbered result ≡ told (line_view C.view self.old) (Resend tx) }
        ensures after { line_view C.view self.new ≡ did (line_view C.view self.old) (Resend tx) }
    {
        let transaction = self.admit(tx, Allowed::Submitted)?;
        let count = self
            .post
            .send_orders(transaction.missing(), tx, transaction.order())?;
        Ok(count)
    }

    pub(super) fn lose_step(&mut self, place: usize) -> Result<(), Fault>
        ensures value { accepted result ≡ told (line_view C.view self.old) (Lose place) }
        ensures after { line_view C.view self.new ≡ did (line_view C.view self.old) (Lose place) }
    {
        if place >= self.post.len() {
            return Err(Fault::NoMessage(place));
        }
        self.post.remove(place);
        Ok(())
    }

    pub(super) fn fate_step(&self, tx: u64) -> Result<Stage, Fault>
        ensures { stands result ≡ told (line_view C.view self.now) (Fate tx) }
    {
        let transaction = self.live(tx)?;
        Ok(transaction.stage)
    }
}
