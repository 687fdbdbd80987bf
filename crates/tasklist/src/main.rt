#![tactic(auto)]

use lists::list::run_list;
use std::io;
use std::io::Read;

// One byte more than a list may have, which is enough to know that one is too long.
const ENOUGH: u64 = 32769;

// Runs the list of calls on standard input and prints its answers.
fn main(rt: HostRuntime) -> anyhow::Result<()> {
    let mut text = Vec::new(rt.alloc());
    rt.stdin().take(ENOUGH).read_to_end(&mut text)?;
    // The writer of a longer text shall not find its reader gone.
    io::copy(&mut rt.stdin(), &mut io::sink())?;
    let out = run_list(rt.alloc(), text.as_slice())?;
    rt.print(out.as_str())?;
    Ok(())
}
