// Plays a trial: each line of standard input is asked of the stand, and what came
// of it is printed at once.
#![tactic(auto)]

use stand_play::{Stand, tell};
use std::io::{BufRead, BufReader};

fn run(rt: &HostRuntime) -> anyhow::Result<()> {
    let mut stand = Stand::new();
    let lines = BufReader::new(rt.alloc(), rt.stdin())?.split(rt.alloc(), b'\n');
    for (line, number) in lines.zip(1..) {
        let line = line?;
        tell(rt, &mut stand, line.as_slice(), number)?;
    }
    Ok(())
}

fn main(rt: HostRuntime) -> anyhow::Result<()> {
    run(&rt)
}
