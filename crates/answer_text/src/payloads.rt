// How payloads are printed.
ghost use Rattle.std.specs.Prelude.{◌≡◌, ◌≤◌, ℕ, List, decimal, length};
ghost use Rattle.pose.specs.Texts.{joint_text, pose_text};

use crate::pieces::{as_text, joined};
use arrayvec::{ArrayString, ArrayVec};
use itoa::Buffer;
use pose::{PoseBits, bits_to_degrees};

// No payload's text is longer.
pub const PAYLOAD_ROOM: usize = 20;

// A payload that can be printed, as whatever bytes.
pub trait PayloadBytes {
    ghost shown: { Self → List ℕ };

    // The bytes that are printed.
    fn bytes(&self) -> ArrayVec<u8, PAYLOAD_ROOM>
        ensures { result.items ≡ shown self.now };
}

// A count is printed in decimal.
impl PayloadBytes for u64 {
    ghost shown = { decimal };

    fn bytes(&self) -> ArrayVec<u8, PAYLOAD_ROOM> {
        joined(&[Buffer::new().format(*self).as_bytes()])
    }
}

// An angle is printed in whole degrees, and as a question mark where it has none from -360 to 360.
fn joint_text(bits: u32, digits: &mut Buffer) -> &[u8]
    ensures value { result.now ≡ joint_text bits }
    ensures bound { length result.now ≤ 4 }
{
    match bits_to_degrees(bits) {
        Some(degrees) => digits.format(degrees).as_bytes(),
        None => b"?",
    }
}

// A pose is printed as its four angles.
impl PayloadBytes for PoseBits {
    ghost shown = { pose_text };

    fn bytes(&self) -> ArrayVec<u8, PAYLOAD_ROOM> {
        joined(&[
            joint_text(self.joint0, &mut Buffer::new()),
            b" ",
            joint_text(self.joint1, &mut Buffer::new()),
            b" ",
            joint_text(self.joint2, &mut Buffer::new()),
            b" ",
            joint_text(self.joint3, &mut Buffer::new()),
        ])
    }
}

// A payload that can be printed as a text, of which the type says that it is UTF-8.
pub trait PayloadPrint {
    ghost shown: { Self → List ℕ };

    // The payload's text.
    fn text(&self) -> ArrayString<PAYLOAD_ROOM>
        ensures { result.bytes ≡ shown self.now };
}

// The text of a count is what is printed of it.
impl PayloadPrint for u64 {
    ghost shown = { decimal };

    fn text(&self) -> ArrayString<PAYLOAD_ROOM> {
        let digits = self.bytes();
        as_text(&digits)
    }
}

// The text of a pose is what is printed of it.
impl PayloadPrint for PoseBits {
    ghost shown = { pose_text };

    fn text(&self) -> ArrayString<PAYLOAD_ROOM> {
        let angles = self.bytes();
        as_text(&angles)
    }
}
