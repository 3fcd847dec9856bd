ghost use Rattle.std.specs.Prelude.{◌≡◌};
ghost use Rattle.cells.specs.View.{cells_view, fresh_cells};

use crate::four::FourCells;
use crate::parts::Cells;
use cell::Cell;
use protocol::{CellFault, Order, PerSite, Report, Site};
use store::Store;

// A call at the cell of the site. The four have types of their own, so that no value can stand for any one of them.
macro_rules! at_site {
    ($cells:ident, $site:ident, $call:ident($($with:ident),*)) => {
        match $site {
            Site::Cell0 => $cells.cell0.$call($($with),*),
            Site::Cell1 => $cells.cell1.$call($($with),*),
            Site::Cell2 => $cells.cell2.$call($($with),*),
            Site::Cell3 => $cells.cell3.$call($($with),*),
        }
    };
}

impl<
    S: Store,
    T: Store<Payload = S::Payload>,
    U: Store<Payload = S::Payload>,
    V: Store<Payload = S::Payload>,
> Cells<S, T, U, V> {
    // Four cells over four stores, which are cleared. Four parameters and no array, since the stores may be of four types.
    pub fn new(store0: S, store1: T, store2: U, store3: V, spreads: PerSite<u64>) -> Self
        ensures { cells_view S.Store T.Store U.Store V.Store result ≡ fresh_cells S.Store T.Store U.Store V.Store store0 store1 store2 store3 spreads }
    {
        Cells {
            cell0: Cell::new(store0, spreads.cell0),
            cell1: Cell::new(store1, spreads.cell1),
            cell2: Cell::new(store2, spreads.cell2),
            cell3: Cell::new(store3, spreads.cell3),
        }
    }
}

impl<
    S: Store,
    T: Store<Payload = S::Payload>,
    U: Store<Payload = S::Payload>,
    V: Store<Payload = S::Payload>,
> FourCells for Cells<S, T, U, V> {
    type Payload = S::Payload;

    ghost view = { λ c. cells_view S.Store T.Store U.Store V.Store c };

    fn set_clock(&mut self, site: Site, time: u64) {
        at_site!(self, site, set_clock(time))
    }

    fn join(&mut self, site: Site, tx: u64) -> Result<(), CellFault> {
        at_site!(self, site, join(tx))
    }

    fn read(&mut self, site: Site, tx: u64, item: usize) -> Result<Option<S::Payload>, CellFault> {
        at_site!(self, site, read(tx, item))
    }

    fn write(
        &mut self,
        site: Site,
        tx: u64,
        item: usize,
        payload: S::Payload,
    ) -> Result<(), CellFault> {
        at_site!(self, site, write(tx, item, payload))
    }

    fn leave(&mut self, site: Site, tx: u64) -> Result<(), CellFault> {
        at_site!(self, site, leave(tx))
    }

    fn replies(&self, site: Site, tx: u64, order: Order) -> bool {
        at_site!(self, site, replies(tx, order))
    }

    fn receive(&mut self, site: Site, tx: u64, order: Order) -> Option<Report> {
        at_site!(self, site, receive(tx, order))
    }

    // One by one, and by no loop, since the four are of types of their own.
    fn close(&mut self, tx: u64) {
        self.cell0.close(tx);
        self.cell1.close(tx);
        self.cell2.close(tx);
        self.cell3.close(tx);
    }
}
