// The text of refusals.
ghost use Rattle.std.specs.Prelude.{◌≡◌, ◌≤◌, [], ◌∷◌, ◌++◌, length};
ghost use Rattle.answer_text.specs.Texts.{layer_text, refusal_text, fault_text, script_text};

use crate::answers::LINE_ROOM;
use crate::pieces::{as_text, line_of};
use arrayvec::{ArrayString, ArrayVec};
use itoa::Buffer;
use protocol::{Fault, Layer};

// A script has at most so many bytes.
pub const LONGEST_SCRIPT: u64 = 65_536;

// Why the script layer itself refuses. Two refusals, and no Option: neither is the want of the other.
#[derive(Clone, Copy, Debug, PartialEq, Eq)]
pub enum ScriptFault {
    // The line with this number, counted from 1, is no command.
    Malformed(u64),
    // The script has more than 65,536 bytes; nothing of it is run.
    TooLong,
}

fn refusal_line(layer: &str, number: u64, detail: u64) -> ArrayVec<u8, LINE_ROOM>
    requires { length layer.now ≤ 6 }
    ensures { result.items ≡ refusal_text layer.now number detail ++ (10 ∷ []) }
{
    line_of(&[
        b"no ",
        layer.as_bytes(),
        b" ",
        Buffer::new().format(number).as_bytes(),
        b" ",
        Buffer::new().format(detail).as_bytes(),
    ])
}

// A function and no `Display`, as for every text here.
fn layer_name(layer: Layer) -> &'static str
    ensures value { result.now ≡ layer_text layer }
    ensures bound { length result.now ≤ 6 }
{
    match layer {
        Layer::Line => "line",
        Layer::Cell => "cell",
        Layer::Store => "store",
    }
}

pub(crate) fn fault_line(fault: Fault) -> ArrayVec<u8, LINE_ROOM>
    ensures { result.items ≡ fault_text fault ++ (10 ∷ []) }
{
    refusal_line(layer_name(fault.layer()), fault.number(), fault.detail())
}

// The line of a refusal by the script layer, in bytes: its text and a newline.
pub fn script_fault_bytes(fault: ScriptFault) -> ArrayVec<u8, LINE_ROOM>
    ensures { result.items ≡ script_text fault ++ (10 ∷ []) }
{
    match fault {
        ScriptFault::Malformed(line) => refusal_line("script", 14, line),
        ScriptFault::TooLong => refusal_line("script", 15, LONGEST_SCRIPT),
    }
}

// The same line as a text.
pub fn script_fault_line(fault: ScriptFault) -> ArrayString<LINE_ROOM>
    ensures { result.bytes ≡ script_text fault ++ (10 ∷ []) }
{
    as_text(&script_fault_bytes(fault))
}
