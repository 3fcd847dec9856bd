// A list of at most N records that needs no memory of its own, so that making it cannot fail. Records are reached by their number.
#![tactic(auto)]

ghost use Rattle.std.specs.Prelude.{◌≡◌, ◌≤◌, length};

mod calls;

pub use calls::{Machine, Numbered};

// The first `len` of the items count; the others stand for nothing.
// No `ArrayVec`, which asks a default of its records where one is taken out, and no `impl Model`, which would hide from callers that
// every table has at most N records: a ghost field says it of each value.
#[derive(Drop)]
pub struct Table<T, const N: usize> {
    items: [T; N],
    len: usize,
    ghost room: { len ≤ N },
    ghost long: { length items ≡ N },
}
