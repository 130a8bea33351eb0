// Reads a sheet from standard input and prints what its lines did.
#![tactic(auto)]

use std::io::{Read, Write};

fn main(rt: HostRuntime) -> anyhow::Result<()> {
    let mut sheet = Vec::new(rt.alloc());
    rt.stdin().read_to_end(&mut sheet)?;
    let print = sheet::replay(rt.alloc(), &sheet)?;
    rt.stdout().write_all(print.as_bytes())?;
    Ok(())
}
