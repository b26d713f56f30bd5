// What scripts say of machines, and how bytes are written in texts.
#![tactic(auto)]

pub mod bytes;
pub mod plate;
