// The machine end on a real cable: each read from standard input is a burst that arrived
// together, and its reply goes to standard output at once.
#![tactic(auto)]

use anyhow::anyhow;
use live_cable::arguments::named;
use live_cable::machines::LiveCable;
use std::env;
use std::io::{Read, Write};

// The words of the command line behind the program's own name, with spaces between them.
fn command_line(rt: &HostRuntime) -> anyhow::Result<String> {
    let mut line = String::new(rt.alloc());
    let mut words = env::args(rt)?;
    let _program = words.next();
    for word in words {
        line.push_str(word.as_str())?;
        line.push(' ')?;
    }
    Ok(line)
}

fn serve(rt: &HostRuntime, cable: &mut LiveCable) -> anyhow::Result<()> {
    let mut input = rt.stdin();
    let mut output = rt.stdout();
    // a count, since a loop that waits for input has no end that could be proved
    for _ in 0..u64::MAX {
        let mut burst = [0; 64];
        let n = input.read(&mut burst)?;
        if n == 0 {
            break;
        }
        if let Some(reply) = cable.answer(&burst[0..n]) {
            output.write_all(reply.as_slice())?;
            output.flush()?;
        }
    }
    Ok(())
}

fn main(rt: HostRuntime) -> anyhow::Result<()> {
    let line = command_line(&rt)?;
    match named(rt.alloc(), line.as_bytes()) {
        Ok(mut cable) => serve(&rt, &mut cable),
        Err(fault) => Err(anyhow!(
            "{fault}; usage: live ADDRESS four|twelve|feeder tenths|grams .. [each N]"
        )),
    }
}
