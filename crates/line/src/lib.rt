// A line: four cells, a coordinator and a post, over any four stores of one kind of payload.
#![tactic(auto)]

mod parts;

pub use parts::Line;
