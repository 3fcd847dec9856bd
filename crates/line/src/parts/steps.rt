// What each call does, for all input.
ghost use Rattle.std.specs.Prelude.{◌≡◌};
ghost use Rattle.protocol.specs.declared.calls.Call.TheVariants.{Open, Join, Read, Write, Submit, Clock};
ghost use Rattle.model.specs.Calls.{accepted, numbered, gave, told, did};
ghost use Rattle.line.specs.View.{line_view};

use crate::parts::Line;
use crate::parts::admitting::at_cell;
use cells::FourCells;
use coordinator::{Allowed, Event, Transaction};
use protocol::{Fault, LAST_TICK, LIVE_LIMIT, OPENED_LIMIT, Order, Site, count_marked};
use table::Machine;

impl<C: FourCells> Line<C> {
    pub(super) fn open_step(&mut self) -> Result<u64, Fault>
        ensures value { numbered result ≡ told (line_view C.view self.old) Open }
        ensures after { line_view C.view self.new ≡ did (line_view C.view self.old) Open }
    {
        if self.transactions.len() >= LIVE_LIMIT {
            return Err(Fault::TooManyLive);
        }
        if self.opens >= OPENED_LIMIT {
            return Err(Fault::NumbersUsed);
        }
        self.opens += 1;
        // There is room, as the first test showed.
        let _ = self.transactions.push(Transaction::new(self.opens));
        Ok(self.opens)
    }

    pub(super) fn join_step(&mut self, tx: u64, cell: usize) -> Result<(), Fault>
        ensures value { accepted result ≡ told (line_view C.view self.old) (Join tx cell) }
        ensures after { line_view C.view self.new ≡ did (line_view C.view self.old) (Join tx cell) }
    {
        let site = self.admit_at(tx, cell, Allowed::OnlyOpen)?;
        at_cell(site, self.cells.join(site, tx))?;
        self.transactions.step(tx, Event::Join(site));
        Ok(())
    }

    pub(super) fn read_step(
        &mut self,
        tx: u64,
        cell: usize,
        item: usize,
    ) -> Result<Option<C::Payload>, Fault>
        ensures value { gave result ≡ told (line_view C.view self.old) (Read tx cell item) }
        ensures after { line_view C.view self.new ≡ did (line_view C.view self.old) (Read tx cell item) }
    {
        let site = self.admit_at(tx, cell, Allowed::Undecided)?;
        at_cell(site, self.cells.read(site, tx, item))
    }

    pub(super) fn write_step(
        &mut self,
        tx: u64,
        cell: usize,
        item: usize,
        payload: C::Payload,
    ) -> Result<(), Fault>
        ensures value { accepted result ≡ told (line_view C.view self.old) (Write tx cell item payload) }
        ensures after { line_view C.view self.new ≡ did (line_view C.view self.old) (Write tx cell item payload) }
    {
        let site = self.admit_at(tx, cell, Allowed::Undecided)?;
        at_cell(site, self.cells.write(site, tx, item, payload))
    }

    pub(super) fn submit_step(&mut self, tx: u64) -> Result<usize, Fault>
        ensures value { numbered result ≡ told (line_view C.view self.old) (Submit tx) }
        ensures after { line_view C.view self.new ≡ did (line_view C.view self.old) (Submit tx) }
    {
        let transaction = self.admit(tx, Allowed::OnlyOpen)?;
        if count_marked(&transaction.joined) == 0 {
            return Err(Fault::NoneJoined(transaction.number));
        }
        let count = self
            .post
            .send_orders(transaction.joined, tx, Order::Prepare)?;
        self.transactions.step(tx, Event::Submit);
        Ok(count)
    }

    pub(super) fn clock_step(&mut self, cell: usize, time: u64) -> Result<(), Fault>
        ensures value { accepted result ≡ told (line_view C.view self.old) (Clock cell time) }
        ensures after { line_view C.view self.new ≡ did (line_view C.view self.old) (Clock cell time) }
    {
        let site = Site::try_from(cell)?;
        if time > LAST_TICK {
            return Err(Fault::TooLate(time));
        }
        self.cells.set_clock(site, time);
        Ok(())
    }
}
