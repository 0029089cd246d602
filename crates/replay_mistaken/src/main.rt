//! Reads a journal from standard input, makes its calls, and prints the answers.
#![tactic(auto)]

use anyhow::bail;
use journals::run_journal;
use printing::Meter;

fn main(rt: HostRuntime) -> anyhow::Result<()> {
    let mut meter = Meter::of_run(&rt);
    if run_journal(rt.alloc(), rt.stdin(), &mut rt.stdout(), &mut meter)? {
        bail!("a line of the journal is no call");
    }
    Ok(())
}
