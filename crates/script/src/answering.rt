// A line of a script that has its kind of payload.
ghost use Rattle.std.specs.Prelude.{◌≡◌};
ghost use Rattle.line.specs.View.{line_view};
ghost use Rattle.script.specs.Answers.{Answered};

use answer_text::{LINE_ROOM, PayloadBytes, ScriptFault, answer_bytes, script_fault_bytes};
use arrayvec::ArrayVec;
use cells::FourCells;
use command::{PayloadText, parse_call};
use line::Line;

// What is printed for a line of a script.
pub fn answer<P: Copy + PayloadText + PayloadBytes, C: FourCells<Payload = P>>(
    line: &mut Line<C>,
    number: u64,
    text: &[u8],
) -> ArrayVec<u8, LINE_ROOM>
    ensures { Answered P.PayloadText.lawful P.PayloadText.written P.PayloadBytes.shown (line_view C.view line.old) (line_view C.view line.new) number text.now result.items }
{
    match parse_call::<P>(text) {
        Some(call) => answer_bytes(&line.call(call)),
        None => script_fault_bytes(ScriptFault::Malformed(number)),
    }
}
