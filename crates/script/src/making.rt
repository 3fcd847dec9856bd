// The line that a script runs on.
ghost use Rattle.std.specs.Prelude.{◌≡◌, [], IfOk};
ghost use Rattle.serial.specs.Runs.{Reached};
ghost use Rattle.script.specs.Running.{script_view, fresh_script};

use cells::Cells;
use chain::Chain;
use journal::Journal;
use line::Line;
use protocol::PerSite;
use std::alloc::Global;
use store::Unmade;

// Items of each cell's store.
pub const SCRIPT_ITEMS: usize = 8;

// Rows of each cell's store.
const SCRIPT_ROWS: usize = 64;

// Spread of each cell.
const SCRIPT_SPREAD: u64 = 500;

// Cells 0 and 1 have journal stores, 2 and 3 chain stores.
pub type ScriptCells<P> = Cells<
    Journal<P, SCRIPT_ITEMS>,
    Journal<P, SCRIPT_ITEMS>,
    Chain<P, SCRIPT_ITEMS>,
    Chain<P, SCRIPT_ITEMS>,
>;

pub type ScriptLine<P> = Line<ScriptCells<P>>;

// A new line for a script of one kind of payload.
pub fn new_line<P: Copy>(heap: Global) -> Result<ScriptLine<P>, Unmade>
    ensures { IfOk result (λ l. (script_view l ≡ fresh_script) × Reached (script_view l) []) }
{
    let store0 = Journal::new(heap, SCRIPT_ROWS)?;
    let store1 = Journal::new(heap, SCRIPT_ROWS)?;
    let store2 = Chain::new(heap, SCRIPT_ROWS)?;
    let store3 = Chain::new(heap, SCRIPT_ROWS)?;
    let spreads = PerSite::all(SCRIPT_SPREAD);
    Ok(Line::new(store0, store1, store2, store3, spreads))
}
