// The calls of a line. Each takes any numbers in any state; `Does` says that its answer and the line after it are those of the
// rules, and that every run which led here goes on with it and is serially ordered. Each hands on to a step that has its code, since a
// step's clauses name the answer and the line after it, and the theorem is then cited once for each.
ghost use Rattle.std.specs.Prelude.{◌≡◌, []};
ghost use Rattle.protocol.specs.declared.calls.Call.TheVariants.{Open, Join, Read, Write, Leave, Submit, GiveUp, Resend, Deliver, Lose, Clock, Fate};
ghost use Rattle.model.specs.Calls.{accepted, numbered, gave, delivered, stands};
ghost use Rattle.serial.specs.Runs.{Reached, Does};
ghost use Rattle.cells.specs.View.{cells_view};
ghost use Rattle.line.specs.View.{line_view, fresh_line};

use crate::parts::Line;
use cells::{Cells, FourCells};
use post::Post;
use protocol::{Answer, Call, Delivery, Fault, PerSite, Stage};
use store::Store;
use table::Table;

impl<
    S: Store,
    T: Store<Payload = S::Payload>,
    U: Store<Payload = S::Payload>,
    V: Store<Payload = S::Payload>,
> Line<Cells<S, T, U, V>> {
    // Four parameters and no array, since the stores may be of four types.
    // A line over four stores, which are cleared; clocks and LAST are 0, and a spread above the widest counts as the widest.
    pub fn new(store0: S, store1: T, store2: U, store3: V, spreads: PerSite<u64>) -> Self
        ensures value { line_view (cells_view S.Store T.Store U.Store V.Store) result ≡ fresh_line S.Store T.Store U.Store V.Store store0 store1 store2 store3 spreads }
        ensures runs { Reached (line_view (cells_view S.Store T.Store U.Store V.Store) result) [] }
    {
        Line {
            cells: Cells::new(store0, store1, store2, store3, spreads),
            transactions: Table::new(),
            post: Post::new(),
            opens: 0,
        }
    }
}

impl<C: FourCells> Line<C> {
    // The number of a new transaction.
    pub fn open(&mut self) -> Result<u64, Fault>
        ensures { Does (line_view C.view self.old) Open (numbered result) (line_view C.view self.new) }
    {
        self.open_step()
    }

    // The transaction becomes Active at the cell.
    pub fn join(&mut self, tx: u64, cell: usize) -> Result<(), Fault>
        ensures { Does (line_view C.view self.old) (Join tx cell) (accepted result) (line_view C.view self.new) }
    {
        self.join_step(tx, cell)
    }

    // What the item holds for the transaction, which holds it for reading from now on.
    pub fn read(&mut self, tx: u64, cell: usize, item: usize) -> Result<Option<C::Payload>, Fault>
        ensures { Does (line_view C.view self.old) (Read tx cell item) (gave result) (line_view C.view self.new) }
    {
        self.read_step(tx, cell, item)
    }

    // Stages the payload; the transaction holds the item for writing from now on.
    pub fn write(
        &mut self,
        tx: u64,
        cell: usize,
        item: usize,
        payload: C::Payload,
    ) -> Result<(), Fault>
        ensures { Does (line_view C.view self.old) (Write tx cell item payload) (accepted result) (line_view C.view self.new) }
    {
        self.write_step(tx, cell, item, payload)
    }

    // The transaction gives up its part at the cell, where it is Active.
    pub fn leave(&mut self, tx: u64, cell: usize) -> Result<(), Fault>
        ensures { Does (line_view C.view self.old) (Leave tx cell) (accepted result) (line_view C.view self.new) }
    {
        self.leave_step(tx, cell)
    }

    // Asks each joined cell for its vote; answers how many.
    pub fn submit(&mut self, tx: u64) -> Result<usize, Fault>
        ensures { Does (line_view C.view self.old) (Submit tx) (numbered result) (line_view C.view self.new) }
    {
        self.submit_step(tx)
    }

    // Decides that the transaction aborts, and tells each joined cell; with none joined it closes.
    pub fn give_up(&mut self, tx: u64) -> Result<(), Fault>
        ensures { Does (line_view C.view self.old) (GiveUp tx) (accepted result) (line_view C.view self.new) }
    {
        self.give_up_step(tx)
    }

    // Repeats what the cells were sent that have not answered; answers how many.
    pub fn resend(&mut self, tx: u64) -> Result<usize, Fault>
        ensures { Does (line_view C.view self.old) (Resend tx) (numbered result) (line_view C.view self.new) }
    {
        self.resend_step(tx)
    }

    // Acts on the message at the place, and leaves it there.
    pub fn deliver(&mut self, place: usize) -> Result<Delivery, Fault>
        ensures { Does (line_view C.view self.old) (Deliver place) (delivered result) (line_view C.view self.new) }
    {
        self.deliver_step(place)
    }

    // Removes the message at the place; later ones move down by one.
    pub fn lose(&mut self, place: usize) -> Result<(), Fault>
        ensures { Does (line_view C.view self.old) (Lose place) (accepted result) (line_view C.view self.new) }
    {
        self.lose_step(place)
    }

    // Sets the cell's clock, forward or back.
    pub fn clock(&mut self, cell: usize, time: u64) -> Result<(), Fault>
        ensures { Does (line_view C.view self.old) (Clock cell time) (accepted result) (line_view C.view self.new) }
    {
        self.clock_step(cell, time)
    }

    // Where the transaction stands.
    pub fn fate(&self, tx: u64) -> Result<Stage, Fault>
        ensures { Does (line_view C.view self.now) (Fate tx) (stands result) (line_view C.view self.now) }
    {
        self.fate_step(tx)
    }

    // Any of the twelve.
    pub fn call(&mut self, call: Call<C::Payload>) -> Result<Answer<C::Payload>, Fault>
        ensures { Does (line_view C.view self.old) call result (line_view C.view self.new) }
    {
        self.call_step(call)
    }
}
