// Replays each sheet that an argument names and holds its print to the stored one.
#![tactic(auto)]

use std::{env, fs};

fn stored(rt: &HostRuntime, name: &str, ending: &str) -> anyhow::Result<Vec<u8>> {
    let path = format!(in rt.alloc(); "{name}.{ending}")?;
    Ok(fs::read(rt, path)?)
}

fn is_as_stored(rt: &HostRuntime, name: &str) -> anyhow::Result<bool> {
    let sheet = stored(rt, name, "sheet")?;
    let print = sheet::replay(rt.alloc(), &sheet)?;
    let wanted = stored(rt, name, "out")?;
    Ok(print.as_bytes() == wanted.as_slice())
}

fn main(rt: HostRuntime) -> anyhow::Result<()> {
    for name in env::args(&rt)?.skip(1) {
        let verdict = if is_as_stored(&rt, name.as_str())? {
            "as stored"
        } else {
            "differs"
        };
        println!(rt; "{name}: {verdict}")?;
    }
    Ok(())
}
