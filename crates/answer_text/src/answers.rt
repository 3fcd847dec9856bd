// The text of answers.
ghost use Rattle.std.specs.Prelude.{◌≡◌, [], ◌∷◌, ◌++◌};
ghost use Rattle.answer_text.specs.Texts.{decision_text, stage_text, delivery_text, read_text, accepted_text, text_of};

use crate::faults::fault_line;
use crate::payloads::{PAYLOAD_ROOM, PayloadBytes, PayloadPrint};
use crate::pieces::{as_text, joined, line_of};
use arrayvec::{ArrayString, ArrayVec};
use itoa::Buffer;
use protocol::{Answer, Decision, Delivery, Fault, Range, Stage};

// Room for the line of any answer: its text and its newline.
pub const LINE_ROOM: usize = 64;

fn decision_text(decision: Decision) -> ArrayVec<u8, 27>
    ensures { result.items ≡ decision_text decision }
{
    match decision {
        Decision::Commit(time) => joined(&[b"commit ", Buffer::new().format(time).as_bytes()]),
        Decision::Abort => joined(&[b"abort"]),
    }
}

fn stage_text(stage: Stage) -> ArrayVec<u8, 27>
    ensures { result.items ≡ stage_text stage }
{
    match stage {
        Stage::Open => joined(&[b"open"]),
        Stage::Polling => joined(&[b"polling"]),
        Stage::Decided(decision) => decision_text(decision),
    }
}

fn delivery_text(delivery: Delivery) -> ArrayVec<u8, 47>
    ensures { result.items ≡ delivery_text delivery }
{
    match delivery {
        Delivery::Ranged(Range { earliest, latest }) => joined(&[
            b"range ",
            Buffer::new().format(earliest).as_bytes(),
            b" ",
            Buffer::new().format(latest).as_bytes(),
        ]),
        Delivery::Declined => joined(&[b"out"]),
        Delivery::Noted => joined(&[b"noted"]),
        Delivery::Committed(time) => joined(&[b"commit ", Buffer::new().format(time).as_bytes()]),
        Delivery::Aborted => joined(&[b"abort"]),
        Delivery::Settled => joined(&[b"done"]),
        Delivery::Stale => joined(&[b"stale"]),
        Delivery::Closed => joined(&[b"closed"]),
    }
}

// What a read gave.
fn read_text<P: PayloadBytes>(read: &Option<P>) -> ArrayVec<u8, PAYLOAD_ROOM>
    ensures { result.items ≡ read_text P.shown read.now }
{
    match read {
        Some(payload) => payload.bytes(),
        None => joined(&[b"absent"]),
    }
}

fn accepted_line<P: PayloadBytes>(answer: &Answer<P>) -> ArrayVec<u8, LINE_ROOM>
    ensures { result.items ≡ accepted_text P.shown answer.now ++ (10 ∷ []) }
{
    match answer {
        Answer::Accepted => line_of(&[b"ok"]),
        Answer::Number(number) => line_of(&[b"ok ", Buffer::new().format(*number).as_bytes()]),
        Answer::Payload(read) => line_of(&[b"ok ", &read_text(read)]),
        Answer::Delivered(delivery) => line_of(&[b"ok ", &delivery_text(*delivery)]),
        Answer::Stands(stage) => line_of(&[b"ok ", &stage_text(*stage)]),
    }
}

// The line of what a call answers, in bytes: its text and a newline.
pub fn answer_bytes<P: PayloadBytes>(answer: &Result<Answer<P>, Fault>) -> ArrayVec<u8, LINE_ROOM>
    ensures { result.items ≡ text_of P.shown answer.now ++ (10 ∷ []) }
{
    match answer {
        Ok(answer) => accepted_line(answer),
        Err(fault) => fault_line(*fault),
    }
}

fn accepted_text_line<P: PayloadPrint>(answer: &Answer<P>) -> ArrayString<LINE_ROOM>
    ensures { result.bytes ≡ accepted_text P.shown answer.now ++ (10 ∷ []) }
{
    // Where no payload was read, the line is the same whatever the payloads are.
    let of_counts = match answer {
        Answer::Payload(Some(payload)) => {
            let mut line = ArrayString::new();
            line.push_str("ok ");
            line.push_str(&payload.text());
            line.push('\n');
            return line;
        }
        Answer::Payload(None) => Answer::Payload(None),
        Answer::Accepted => Answer::Accepted,
        Answer::Number(number) => Answer::Number(*number),
        Answer::Delivered(delivery) => Answer::Delivered(*delivery),
        Answer::Stands(stage) => Answer::Stands(*stage),
    };
    as_text(&accepted_line::<u64>(&of_counts))
}

// The same line as a text, of payloads that have a text.
pub fn answer_line<P: PayloadPrint>(answer: &Result<Answer<P>, Fault>) -> ArrayString<LINE_ROOM>
    ensures { result.bytes ≡ text_of P.shown answer.now ++ (10 ∷ []) }
{
    match answer {
        Ok(answer) => accepted_text_line(answer),
        Err(fault) => as_text(&fault_line(*fault)),
    }
}
