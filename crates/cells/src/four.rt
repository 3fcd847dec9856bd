// What a line asks of its four cells.
ghost use Rattle.std.specs.Prelude.{◌≡◌, is_some};
ghost use Rattle.protocol.specs.declared.sites.PerSite.{PerSite};
ghost use Rattle.protocol.specs.Sites.{at, put_at};
ghost use Rattle.model.specs.Cells.{CellView, at_clock, join_told, join_done, read_told, read_done, write_told, write_done, leave_told, leave_done, report_of, receive_done};
ghost use Rattle.model.specs.Lines.{all_close};

use protocol::{CellFault, Order, Report, Site};

// Four cells with stores of one kind of payload. A call acts on the cell of its site, and leaves the other three as they are.
pub trait FourCells: Sized {
    type Payload: Copy;

    ghost view: { Self → PerSite (CellView Self.Payload) };

    fn set_clock(&mut self, site: Site, time: u64)
        ensures { view self.new ≡ put_at (view self.old) site (at_clock (at (view self.old) site) time) };

    fn join(&mut self, site: Site, tx: u64) -> Result<(), CellFault>
        ensures value { result ≡ join_told (at (view self.old) site) tx }
        ensures after { view self.new ≡ put_at (view self.old) site (join_done (at (view self.old) site) tx) };

    fn read(&mut self, site: Site, tx: u64, item: usize) -> Result<Option<Self::Payload>, CellFault>
        ensures value { result ≡ read_told (at (view self.old) site) tx item }
        ensures after { view self.new ≡ put_at (view self.old) site (read_done (at (view self.old) site) tx item) };

    fn write(
        &mut self,
        site: Site,
        tx: u64,
        item: usize,
        payload: Self::Payload,
    ) -> Result<(), CellFault>
        ensures value { result ≡ write_told (at (view self.old) site) tx item }
        ensures after { view self.new ≡ put_at (view self.old) site (write_done (at (view self.old) site) tx item payload) };

    fn leave(&mut self, site: Site, tx: u64) -> Result<(), CellFault>
        ensures value { result ≡ leave_told (at (view self.old) site) tx }
        ensures after { view self.new ≡ put_at (view self.old) site (leave_done (at (view self.old) site) tx) };

    // Whether the cell answers the order with a report.
    fn replies(&self, site: Site, tx: u64, order: Order) -> bool
        ensures { result ≡ is_some (report_of (at (view self.now) site) tx order) };

    fn receive(&mut self, site: Site, tx: u64, order: Order) -> Option<Report>
        ensures value { result ≡ report_of (at (view self.old) site) tx order }
        ensures after { view self.new ≡ put_at (view self.old) site (receive_done (at (view self.old) site) tx order) };

    // Every cell forgets a transaction that closed.
    fn close(&mut self, tx: u64)
        ensures { view self.new ≡ all_close (view self.old) tx };
}
