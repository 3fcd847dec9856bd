use crate::making::ScriptLine;
use pose::PoseBits;

mod replies;

pub use replies::{too_long, too_long_bytes};

// A script from its first line on. An enum, which can have no `impl Model` yet, so that clauses say `session_view`.
#[derive(Drop)]
pub enum Session {
    NoKind,
    Counts(ScriptLine<u64>),
    Poses(ScriptLine<PoseBits>),
}
