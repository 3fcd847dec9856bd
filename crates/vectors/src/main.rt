// Runs every script under data/ and compares what is printed with what is expected.
#![tactic(auto)]

use script::run_bytes;
use std::{fs, io};

// Whether the script of the name prints what is expected.
fn is_as_expected(rt: &HostRuntime, name: &str) -> io::Result<bool> {
    let heap = rt.alloc();
    let script_path = format!(in heap; "{name}.script")?;
    let script = fs::read(rt, script_path.as_str())?;
    let expected_path = format!(in heap; "{name}.expected")?;
    let expected = fs::read(rt, expected_path.as_str())?;
    let printed = run_bytes(heap, &script)?;
    Ok(printed.as_slice() == expected.as_slice())
}

fn main(rt: HostRuntime) -> io::Result<()> {
    let names = fs::read_to_string(&rt, "names")?;
    for name in names.lines() {
        if is_as_expected(&rt, name)? {
            println!(rt; "{name} as expected")?;
        } else {
            println!(rt; "{name} DIFFERS")?;
        }
    }
    Ok(())
}
