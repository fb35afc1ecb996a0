//! The first program of README: the profile of a list of two names.
#![tactic(auto)]

use allocative::profile_value;
use anyhow::Result;

fn main(rt: HostRuntime) -> Result<()> {
    let alloc = rt.alloc();
    let ada = String::from_str(alloc, "Ada")?;
    let grace = String::from_str(alloc, "Grace")?;
    let names = vec![in alloc; ada, grace]?;
    let profile = profile_value(alloc, &names)?;
    print!(rt; "{}", profile.flamegraph().write()?)?;
    Ok(())
}
