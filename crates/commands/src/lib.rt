// Commands: reading a burst that travels down.
#![tactic(auto)]

pub mod command;
mod read;
