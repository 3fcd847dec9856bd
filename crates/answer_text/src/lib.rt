// The printed text of answers, as bytes and as UTF-8 text. Both are values that lie on the stack, and their types say how long they can be.
#![tactic(auto)]

mod answers;
mod faults;
mod payloads;
mod pieces;

pub use answers::{LINE_ROOM, answer_bytes, answer_line};
pub use faults::{LONGEST_SCRIPT, ScriptFault, script_fault_bytes, script_fault_line};
pub use payloads::{PAYLOAD_ROOM, PayloadBytes, PayloadPrint};

#[cfg(test)]
mod tests;
