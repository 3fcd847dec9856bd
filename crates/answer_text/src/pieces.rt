// Texts in pieces.
ghost use Rattle.std.specs.Prelude.{◌≡◌, ◌<◌, ◌≤◌, [], ◌∷◌, ◌++◌, length, flat_map, IsUtf8};

use crate::answers::LINE_ROOM;
use arrayvec::{ArrayString, ArrayVec};
use std::str;

// The pieces one after another.
// No `write!` and `Display` here: a formatter may answer an error, and once the line has changed there would be nothing to print.
pub(crate) fn joined<const N: usize>(pieces: &[&[u8]]) -> ArrayVec<u8, N>
    requires room { length (flat_map (λ p. p.now) pieces.now) ≤ N }
    requires small { N ≤ LINE_ROOM }
    ensures { result.items ≡ flat_map (λ p. p.now) pieces.now }
{
    let mut text = ArrayVec::new();
    for piece in pieces {
        // It fits, as `room` says.
        let _fits = text.try_extend_from_slice(piece);
    }
    text
}

// The pieces one after another, and a newline, with no text between them and the line: a text that is copied right after its bytes were
// written waits for them.
pub(crate) fn line_of(pieces: &[&[u8]]) -> ArrayVec<u8, LINE_ROOM>
    requires { length (flat_map (λ p. p.now) pieces.now) < LINE_ROOM }
    ensures { result.items ≡ flat_map (λ p. p.now) pieces.now ++ (10 ∷ []) }
{
    let mut line = joined(pieces);
    line.push(b'\n');
    line
}

// The bytes as a text, whose type says that they are UTF-8.
pub(crate) fn as_text<const N: usize>(bytes: &ArrayVec<u8, N>) -> ArrayString<N>
    requires { IsUtf8 bytes.now.items }
    ensures { result.bytes ≡ bytes.now.items }
{
    let mut text = ArrayString::new();
    text.push_str(str::from_utf8(bytes).unwrap());
    text
}
