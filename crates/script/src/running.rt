// Whole scripts.
ghost use Rattle.std.specs.Prelude.{◌≡◌, ◌<◌, ◌≤◌, [], ◌∷◌, ◌++◌, length, Some, None, IfOk};
ghost use Rattle.answer_text.specs.Texts.{script_text};
ghost use Rattle.answer_text.specs.declared.faults.ScriptFault.TheVariants.{TooLong};
ghost use Rattle.script.specs.Scripts.{Cut, PrintedFor};

use crate::session::{Session, too_long_bytes};
use answer_text::LONGEST_SCRIPT;
use std::alloc::{AllocError, Global};

// The first line of a script without its newline, and what follows it; none where nothing is left.
pub fn first_line(script: &[u8]) -> Option<(&[u8], &[u8])>
    ensures { elim result [ Some p ↦ Cut script.now p.0.now p.1.now | None ↦ script.now ≡ [] ] }
{
    if script.is_empty() {
        return None;
    }
    match script.iter().position(|byte| *byte == b'\n') {
        Some(end) => Some((&script[..end], &script[end + 1..])),
        None => Some((script, &script[script.len()..])),
    }
}

// What is printed for the lines of a script, one after another.
fn run_lines(heap: Global, script: &[u8]) -> Result<Vec<u8>, AllocError>
    requires { length script.now ≤ 65536 }
    ensures { IfOk result (λ printed. PrintedFor script.now printed.items) }
{
    let mut session = Session::new();
    let mut printed = Vec::new(heap);
    let mut number = 0u64;
    let mut rest = script;
    // The number and the rest by hand: a proof speaks of the rest, which an iterator of lines would keep to itself.
    while let Some((text, after)) = first_line(rest) {
        number += 1;
        let reply = session.answer_bytes(heap, number, text)?;
        printed.extend_from_slice(&reply)?;
        rest = after;
    }
    Ok(printed)
}

// What is printed for a script, in bytes.
pub fn run_bytes(heap: Global, script: &[u8]) -> Result<Vec<u8>, AllocError>
    ensures long { 65536 < length script.now → IfOk result (λ printed. printed.items ≡ script_text TooLong ++ (10 ∷ [])) }
    ensures lines { length script.now ≤ 65536 → IfOk result (λ printed. PrintedFor script.now printed.items) }
{
    if script.len() as u64 > LONGEST_SCRIPT {
        too_long_bytes().to_vec(heap)
    } else {
        run_lines(heap, script)
    }
}

// The same as a text.
pub fn run(heap: Global, script: &[u8]) -> Result<String, AllocError>
    ensures long { 65536 < length script.now → IfOk result (λ printed. printed.bytes.items ≡ script_text TooLong ++ (10 ∷ [])) }
    ensures lines { length script.now ≤ 65536 → IfOk result (λ printed. PrintedFor script.now printed.bytes.items) }
{
    let bytes = run_bytes(heap, script)?;
    Ok(String::from_utf8(bytes).unwrap())
}
