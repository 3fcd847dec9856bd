use coordinator::Transaction;
use post::Post;
use protocol::LIVE_LIMIT;
use table::Table;

mod admitting;
mod calling;
mod deliveries;
mod leaving;
mod public;
mod steps;

// A line over the four cells. No `impl Model`, as for a cell: clauses say `line_view` by the view that the cells have.
#[derive(Drop)]
pub struct Line<C> {
    cells: C,
    transactions: Table<Transaction, LIVE_LIMIT>,
    post: Post,
    // How many transactions were opened so far.
    opens: u64,
}
