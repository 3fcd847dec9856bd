// Reads a script from standard input, and prints a line for each of its lines.
#![tactic(auto)]

use script::{LONGEST_SCRIPT, run_bytes};
use std::io;
use std::io::{Read, Write};

fn main(rt: HostRuntime) -> io::Result<()> {
    let heap = rt.alloc();
    let mut script = Vec::new(heap);
    // One byte more than a script may have, so that a longer one shows.
    let mut input = rt.stdin().take(LONGEST_SCRIPT + 1);
    input.read_to_end(&mut script)?;
    let printed = run_bytes(heap, &script)?;
    rt.stdout().write_all(printed.as_slice())
}
