//! Reads a sheet from standard input, clears its round, and prints the award.
#![tactic(auto)]

use anyhow::bail;
use clap::{Arg, ArgAction, Command};
use printing::Meter;
use reports::{Rules, answer_sheet};
use std::alloc::Global;
use std::env;

// What the command line may say.
fn command<'a>(heap: Global) -> Result<Command<'a>, clap::Error> {
    let quick = Arg::new(heap, "quick")
        .long("quick")
        .action(ArgAction::SetTrue)
        .help(
            "searches by the rules limits, all-in, shares and tangent, not only by limits and all-in; the award is the same",
        );
    Ok(
        Command::new(heap, "award")
            .about("Clears the round of the sheet on standard input and prints the award.")
            .arg(quick)?,
    )
}

fn main(rt: HostRuntime) -> anyhow::Result<()> {
    let mut words = Vec::new(rt.alloc());
    for word in env::args(&rt)? {
        words.push(word)?;
    }
    let rules = match command(rt.alloc())?.try_get_matches_from(&words) {
        Ok(matches) if matches.get_flag("quick") => Rules::Quick,
        Ok(_) => Rules::Stated,
        Err(e) => {
            e.print(&rt)?;
            if e.use_stderr() {
                bail!("the command line is not understood");
            }
            return Ok(());
        }
    };
    let mut meter = Meter::of_search(&rt);
    if answer_sheet(rt.alloc(), rt.stdin(), &mut rt.stdout(), rules, &mut meter)? {
        bail!("the sheet is refused");
    }
    Ok(())
}
