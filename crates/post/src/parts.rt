use protocol::{Fault, Message, POST_LIMIT};
use table::Table;

#[derive(Drop)]
pub struct Post {
    pub messages: Table<Message, POST_LIMIT>,
}

// So many places are missing for what was to be sent.
#[derive(Clone, Copy, Debug, Eq, PartialEq)]
pub struct NoRoom {
    pub missing: usize,
}

impl From<NoRoom> for Fault {
    ghost use Rattle.std.specs.Prelude.{◌≡◌};
    ghost use Rattle.protocol.specs.declared.faults.Fault.TheVariants.{NoRoom};

    ghost from_gives = { λ refused fault. fault ≡ NoRoom refused.missing };

    fn from(refused: NoRoom) -> Fault {
        Fault::NoRoom(refused.missing)
    }
}
