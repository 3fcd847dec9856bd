ghost use Rattle.std.specs.Prelude.{◌≡◌, [], ◌∷◌, ◌++◌, Some, IfOk, MatchResult};
ghost use Rattle.answer_text.specs.Texts.{script_text};
ghost use Rattle.answer_text.specs.declared.faults.ScriptFault.TheVariants.{TooLong};
ghost use Rattle.script.specs.Sessions.{session_view, Unset, kind_after, Begins, Chooses, Replies};

use crate::answering::answer;
use crate::making::new_line;
use crate::session::Session;
use answer_text::{LINE_ROOM, ScriptFault, answer_bytes, script_fault_bytes, script_fault_line};
use arrayvec::{ArrayString, ArrayVec};
use command::{Kind, parse_kind};
use protocol::Answer;
use std::alloc::{AllocError, Global};
use std::str;
use store::Unmade;

impl Session {
    pub fn new() -> Self
        ensures { session_view result ≡ Unset }
    {
        Session::NoKind
    }

    // A session that runs on a new line.
    fn start(heap: Global, kind: Kind) -> Result<Self, Unmade>
        ensures { IfOk result (λ session. (session_view session ≡ kind_after (Some kind)) × Begins (session_view session)) }
    {
        match kind {
            Kind::Count => Ok(Session::Counts(new_line(heap)?)),
            Kind::Pose => Ok(Session::Poses(new_line(heap)?)),
        }
    }

    // The first kind line makes the line that the script runs on.
    fn choose(
        &mut self,
        heap: Global,
        number: u64,
        text: &[u8],
    ) -> Result<ArrayVec<u8, LINE_ROOM>, AllocError>
        requires { session_view self.old ≡ Unset }
        ensures { MatchResult result (λ printed. Chooses number text.now printed.items (session_view self.new)) (λ _. session_view self.new ≡ Unset) }
    {
        let Some(kind) = parse_kind(text) else {
            return Ok(script_fault_bytes(ScriptFault::Malformed(number)));
        };
        // Eight items are in range, so that a line is unmade for want of memory alone.
        *self = Session::start(heap, kind).map_err(|_| AllocError)?;
        Ok(answer_bytes(&Ok(Answer::<u64>::Accepted)))
    }

    // What is printed for the script's line with this number, counted from 1, in bytes. Only the kind line takes memory; where
    // there is none, nothing has changed.
    pub fn answer_bytes(
        &mut self,
        heap: Global,
        number: u64,
        text: &[u8],
    ) -> Result<ArrayVec<u8, LINE_ROOM>, AllocError>
        ensures { MatchResult result (λ printed. Replies (session_view self.old) number text.now printed.items (session_view self.new)) (λ _. session_view self.new ≡ session_view self.old) }
    {
        match self {
            Session::NoKind => self.choose(heap, number, text),
            Session::Counts(line) => Ok(answer(line, number, text)),
            Session::Poses(line) => Ok(answer(line, number, text)),
        }
    }

    // The same as a text.
    pub fn answer_line(
        &mut self,
        heap: Global,
        number: u64,
        text: &[u8],
    ) -> Result<ArrayString<LINE_ROOM>, AllocError>
        ensures { MatchResult result (λ printed. Replies (session_view self.old) number text.now printed.bytes (session_view self.new)) (λ _. session_view self.new ≡ session_view self.old) }
    {
        let bytes = self.answer_bytes(heap, number, text)?;
        let mut printed = ArrayString::new();
        printed.push_str(str::from_utf8(&bytes).unwrap());
        Ok(printed)
    }
}

// What is printed for a script that is too long, in bytes; nothing of it is run.
pub fn too_long_bytes() -> ArrayVec<u8, LINE_ROOM>
    ensures { result.items ≡ script_text TooLong ++ (10 ∷ []) }
{
    script_fault_bytes(ScriptFault::TooLong)
}

// The same as a text.
pub fn too_long() -> ArrayString<LINE_ROOM>
    ensures { result.bytes ≡ script_text TooLong ++ (10 ∷ []) }
{
    script_fault_line(ScriptFault::TooLong)
}
