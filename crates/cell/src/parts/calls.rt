// Joining, reading and writing.
ghost use Rattle.std.specs.Prelude.{◌≡◌, ◌<◌, true, is_ok};
ghost use Rattle.cohort.specs.Holds.{writes_in};
ghost use Rattle.model.specs.Cells.{at_clock, cohort_of, join_told, join_done, may_use, value_for, read_told, read_done, write_told, write_done, close_done};
ghost use Rattle.cell.specs.View.{cell_view, fresh_cell, active_by};

use crate::parts::Cell;
use cohort::{Access, Cohort, Event, Mode, State, Timing, clash};
use items::ItemSet;
use protocol::{CellFault, WIDEST_SPREAD};
use store::Store;
use table::{Machine, Table};

impl<S: Store> Cell<S> {
    // A cell over the store, which is cleared.
    pub fn new(mut store: S, spread: u64) -> Self
        ensures { cell_view S.Store result ≡ fresh_cell S.Store store spread }
    {
        store.clear();
        Cell {
            store,
            timing: Timing {
                last: 0,
                clock: 0,
                spread: spread.min(WIDEST_SPREAD),
            },
            cohorts: Table::new(),
        }
    }

    pub fn set_clock(&mut self, time: u64)
        ensures { cell_view S.Store self.new ≡ at_clock (cell_view S.Store self.old) time }
    {
        self.timing.clock = time;
    }

    // The transaction becomes Active here.
    pub fn join(&mut self, tx: u64) -> Result<(), CellFault>
        ensures value { result ≡ join_told (cell_view S.Store self.old) tx }
        ensures after { cell_view S.Store self.new ≡ join_done (cell_view S.Store self.old) tx }
    {
        if self.cohorts.find(tx).is_some() {
            return Err(CellFault::NotActive);
        }
        let start = self.timing.clock;
        let _joined = self.cohorts.push(Cohort {
            tx,
            state: State::Active(start),
            reads: ItemSet::new(),
            writes: ItemSet::new(),
        });
        Ok(())
    }

    // The transaction's cohort, if it is Active here.
    pub(super) fn active(&self, tx: u64) -> Result<Cohort, CellFault>
        ensures { result ≡ active_by (cohort_of (cell_view S.Store self.now) tx) }
    {
        self.cohorts
            .find(tx)
            .filter(|cohort| cohort.state.is_active())
            .ok_or(CellFault::NotActive)
    }

    // The transaction's cohort, if it may use the item.
    fn may_use(&self, access: Access) -> Result<Cohort, CellFault>
        ensures value { result ≡ may_use (cell_view S.Store self.now) access.tx access.item (writes_in access.mode) }
        ensures within { is_ok result ≡ true → access.item < S.K }
    {
        let cohort = self.active(access.tx)?;
        if access.item >= S::K {
            return Err(CellFault::NoItem(access.item));
        }
        match clash(self.cohorts.as_slice(), access) {
            Some(other) => Err(CellFault::Held(other)),
            None => Ok(cohort),
        }
    }

    // What the cohort reads at the item: its own staged payload, else the newest version's.
    fn value(&self, cohort: &Cohort, item: usize) -> Option<S::Payload>
        requires { item < S.K }
        ensures { result ≡ value_for (cell_view S.Store self.now) cohort.now item }
    {
        if cohort.writes.contains(item) {
            self.store.staged(item).ok()?
        } else {
            let newest = self.store.newest(item).ok()?;
            newest.map(|version| version.payload)
        }
    }

    // Adds a read hold, and gives the reader's own staged payload, else the newest.
    pub fn read(&mut self, tx: u64, item: usize) -> Result<Option<S::Payload>, CellFault>
        ensures value { result ≡ read_told (cell_view S.Store self.old) tx item }
        ensures after { cell_view S.Store self.new ≡ read_done (cell_view S.Store self.old) tx item }
    {
        let cohort = self.may_use(Access {
            tx,
            item,
            mode: Mode::Read,
        })?;
        let value = self.value(&cohort, item);
        self.cohorts.step(tx, Event::Read(item));
        Ok(value)
    }

    // Adds a write hold, and stages the payload.
    pub fn write(&mut self, tx: u64, item: usize, payload: S::Payload) -> Result<(), CellFault>
        ensures value { result ≡ write_told (cell_view S.Store self.old) tx item }
        ensures after { cell_view S.Store self.new ≡ write_done (cell_view S.Store self.old) tx item payload }
    {
        self.may_use(Access {
            tx,
            item,
            mode: Mode::Write,
        })?;
        self.store
            .stage(item, payload)
            .map_err(|_| CellFault::NoRow(item))?;
        self.cohorts.step(tx, Event::Write(item));
        Ok(())
    }

    // Forgets a transaction that closed.
    pub fn close(&mut self, tx: u64)
        ensures { cell_view S.Store self.new ≡ close_done (cell_view S.Store self.old) tx }
    {
        self.cohorts.forget(tx);
    }
}
