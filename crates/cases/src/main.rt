// Plays the machine's test cases: a stand's script in which each `machine` line begins anew.
// It shares `tell` with the program `stand`; what is left is reading.
#![tactic(auto)]

use stand_play::{Stand, tell};
use std::io::{BufRead, BufReader};

fn run(rt: &HostRuntime) -> anyhow::Result<()> {
    let mut stand = Stand::new();
    let lines = BufReader::new(rt.alloc(), rt.stdin())?.split(rt.alloc(), b'\n');
    for (line, number) in lines.zip(1..) {
        let line = line?;
        if line.as_slice().starts_with(b"machine") {
            stand = Stand::new();
        }
        tell(rt, &mut stand, line.as_slice(), number)?;
    }
    Ok(())
}

fn main(rt: HostRuntime) -> anyhow::Result<()> {
    run(&rt)
}
