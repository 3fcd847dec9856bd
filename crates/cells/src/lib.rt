// The four cells of a line, each over a store of its own, reached by their site.
#![tactic(auto)]

mod four;
mod parts;

pub use four::FourCells;
pub use parts::Cells;
